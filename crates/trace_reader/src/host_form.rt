//! The lines of a host thread: `hN WORD P`, with a word for each change of one
//! page, `hN huge P L` and `hN small P`.
ghost use Rattle.std.specs.Prelude.{◌≡◌, ◌≤◌, ◌<◌, length, map, IfOk};
ghost use Rattle.core_views.specs.Traces.{IsCommandOf};
ghost use Rattle.core_views.specs.declared.trace.Command.TheVariants.{ChangeHost, ChangeRun};
ghost use Rattle.core_views.specs.declared.trace.RunChange.TheVariants.{Small};
ghost use Rattle.trace_reader.specs.Operands.{host_thread, large_level};
ghost use Rattle.trace_reader.specs.HostForms.{by_host, change_form, huge_form, page_form, small_form};

use crate::Reason;
use crate::form::{index_of, is, number_of};
use core_views::{Actor, Command, Header, HostChange, RunChange};

#[tactic(auto, unfolding(crate::specs::Operands::host_thread))]
fn host_thread_of(header: &Header, word: &[u8]) -> Result<u8, Reason>
    ensures value { result ≡ host_thread header.now word.now }
    ensures small { IfOk result (λ n. n < length header.now.hosts) }
{
    index_of(b'h', 3, header.hosts.as_slice().len() as u64, word)
}

// The level of large pages that the word spells.
#[tactic(auto, unfolding(crate::specs::Operands::large_level))]
fn level_of(word: &[u8]) -> Result<u8, Reason>
    ensures value { result ≡ large_level word.now }
    ensures large { IfOk result (λ level. (2 ≤ level) × (level ≤ 3)) }
{
    let level = number_of(word)?;
    if level < 2 || level > 3 {
        return Err(Reason::Number);
    }
    Ok(level as u8)
}

// A line that changes one page: the command's word tells the change.
#[tactic(auto, unfolding(crate::specs::HostForms::page_form))]
fn change_said(
    header: &Header,
    change: HostChange,
    who: &[u8],
    rest: &[&[u8]],
) -> Result<(Actor, Command), Reason>
    ensures value { result ≡ change_form header.now change who.now (map (λ w. w.now) rest.now) }
    ensures allowed { IfOk result (λ x. IsCommandOf header.now x.0 x.1) }
{
    let [page] = rest else {
        return Err(Reason::Word);
    };
    let index = host_thread_of(header, who)?;
    let page = number_of(page)?;
    Ok((Actor::Host(index), Command::ChangeHost { page, change }))
}

// A line that maps a run as one large page.
#[tactic(auto, unfolding(crate::specs::HostForms::huge_form))]
fn huge_said(header: &Header, who: &[u8], rest: &[&[u8]]) -> Result<(Actor, Command), Reason>
    ensures value { result ≡ huge_form header.now who.now (map (λ w. w.now) rest.now) }
    ensures allowed { IfOk result (λ x. IsCommandOf header.now x.0 x.1) }
{
    let [page, level] = rest else {
        return Err(Reason::Word);
    };
    let index = host_thread_of(header, who)?;
    let page = number_of(page)?;
    let change = RunChange::Huge(level_of(level)?);
    Ok((Actor::Host(index), Command::ChangeRun { page, change }))
}

// A line that maps the pages of a large page by themselves.
#[tactic(auto, unfolding(crate::specs::HostForms::page_form))]
fn small_said(header: &Header, who: &[u8], rest: &[&[u8]]) -> Result<(Actor, Command), Reason>
    ensures value { result ≡ small_form header.now who.now (map (λ w. w.now) rest.now) }
    ensures allowed { IfOk result (λ x. IsCommandOf header.now x.0 x.1) }
{
    let [page] = rest else {
        return Err(Reason::Word);
    };
    let index = host_thread_of(header, who)?;
    let page = number_of(page)?;
    let change = RunChange::Small;
    Ok((Actor::Host(index), Command::ChangeRun { page, change }))
}

/// What the words after the command's word of a host thread say: one row for each form.
#[tactic(auto, unfolding(crate::specs::HostForms::by_host))]
pub fn host_command_said(
    header: &Header,
    who: &[u8],
    command: &[u8],
    rest: &[&[u8]],
) -> Result<(Actor, Command), Reason>
    ensures value { result ≡ by_host header.now who.now command.now (map (λ w. w.now) rest.now) }
    ensures allowed { IfOk result (λ x. IsCommandOf header.now x.0 x.1) }
{
    if is(command, "move") {
        change_said(header, HostChange::Move, who, rest)
    } else if is(command, "evict") {
        change_said(header, HostChange::Evict, who, rest)
    } else if is(command, "protect") {
        change_said(header, HostChange::Protect, who, rest)
    } else if is(command, "allow") {
        change_said(header, HostChange::Allow, who, rest)
    } else if is(command, "huge") {
        huge_said(header, who, rest)
    } else if is(command, "small") {
        small_said(header, who, rest)
    } else {
        Err(Reason::Word)
    }
}
