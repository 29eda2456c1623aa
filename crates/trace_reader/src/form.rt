ghost use Rattle.std.specs.Prelude.{◌≡◌, ◌≤◌, ◌<◌, ◌^◌, map, IfOk};
ghost use Rattle.std.specs.Str.{bytes_eq};
ghost use Rattle.core_views.specs.Traces.{IsCommandOf};
ghost use Rattle.core_views.specs.declared.actor.Actor.TheVariants.{Manager};
ghost use Rattle.trace_reader.specs.Operands.{indexed, vcpu, address, number as number_word};
ghost use Rattle.trace_reader.specs.Forms.{slot, slot_command, setting, read_form, write_form, add_form, slot_form, by_command};
ghost use Rattle.trace_reader.specs.Forms.{by_form};
ghost use Rattle.trace_reader.specs.Grammar.{AreSlotPlaces};
ghost use Rattle.trace_reader.specs.Steps.{ReadsTo};

use crate::Reason;
use crate::host_form::host_command_said;
use crate::log_form::{clear_said, get_said, log_said};
use crate::number::{decimal, number};
use crate::refusal::ReadError;
use crate::split_form::split_said;
use core_views::{Actor, Command, Header, Op, Slot};
use std::alloc::Global;

/// Whether the word is this name.
pub fn is(word: &[u8], name: &str) -> bool
    ensures { result ≡ bytes_eq word.now name.now }
{
    word == name.as_bytes()
}

/// The number that the word spells.
#[tactic(auto, unfolding(crate::specs::Operands::number))]
pub fn number_of(word: &[u8]) -> Result<u64, Reason>
    ensures { result ≡ number_word word.now }
{
    number(word).ok_or(Reason::Number)
}

#[tactic(auto, unfolding(crate::specs::Operands::address))]
fn address_of(header: &Header, word: &[u8]) -> Result<(u64, u8), Reason>
    requires { header.now.words ≤ 8 }
    ensures value { result ≡ address header.now word.now }
    ensures page { IfOk result (λ x. x.0 < 2 ^ 36) }
    ensures word { IfOk result (λ x. x.1 < header.now.words) }
{
    match number(word) {
        Some(at) if at < 1 << 48 && at % 8 == 0 && at % 4096 < 8 * header.words as u64 => {
            Ok((at / 4096, (at % 4096 / 8) as u8))
        }
        _ => Err(Reason::Number),
    }
}

/// The index in an actor's name: at most `most`, and below the count of those
/// that are declared.
#[tactic(auto, unfolding(crate::specs::Operands::indexed))]
pub fn index_of(letter: u8, most: u64, count: u64, word: &[u8]) -> Result<u8, Reason>
    requires { most ≤ 15 }
    ensures value { result ≡ indexed letter most count word.now }
    ensures small { IfOk result (λ n. n < count) }
{
    let [first, digits @ ..] = word else {
        return Err(Reason::Word);
    };
    if *first != letter {
        return Err(Reason::Word);
    }
    match decimal(digits) {
        Some(index) if index <= most => {
            if index < count {
                Ok(index as u8)
            } else {
                Err(Reason::Actor)
            }
        }
        _ => Err(Reason::Word),
    }
}

#[tactic(auto, unfolding(crate::specs::Operands::vcpu))]
fn vcpu_of(header: &Header, word: &[u8]) -> Result<u8, Reason>
    ensures value { result ≡ vcpu header.now word.now }
    ensures small { IfOk result (λ n. n < header.now.vcpus) }
{
    index_of(b'v', 15, header.vcpus as u64, word)
}

#[tactic(auto, unfolding(crate::specs::Forms::read_form))]
fn read_said(header: &Header, who: &[u8], rest: &[&[u8]]) -> Result<(Actor, Command), Reason>
    requires { header.now.words ≤ 8 }
    ensures value { result ≡ read_form header.now who.now (map (λ w. w.now) rest.now) }
    ensures allowed { IfOk result (λ x. IsCommandOf header.now x.0 x.1) }
{
    let [address] = rest else {
        return Err(Reason::Word);
    };
    let index = vcpu_of(header, who)?;
    let (gfn, word) = address_of(header, address)?;
    let op = Op::Read;
    Ok((Actor::Vcpu(index), Command::Access { gfn, word, op }))
}

#[tactic(auto, unfolding(crate::specs::Forms::write_form))]
fn write_said(header: &Header, who: &[u8], rest: &[&[u8]]) -> Result<(Actor, Command), Reason>
    requires { header.now.words ≤ 8 }
    ensures value { result ≡ write_form header.now who.now (map (λ w. w.now) rest.now) }
    ensures allowed { IfOk result (λ x. IsCommandOf header.now x.0 x.1) }
{
    let [address, value] = rest else {
        return Err(Reason::Word);
    };
    let index = vcpu_of(header, who)?;
    let (gfn, word) = address_of(header, address)?;
    let op = Op::Write(number_of(value)?);
    Ok((Actor::Vcpu(index), Command::Access { gfn, word, op }))
}

#[tactic(auto, unfolding(crate::specs::Forms::add_form))]
fn add_said(header: &Header, who: &[u8], rest: &[&[u8]]) -> Result<(Actor, Command), Reason>
    requires { header.now.words ≤ 8 }
    ensures value { result ≡ add_form header.now who.now (map (λ w. w.now) rest.now) }
    ensures allowed { IfOk result (λ x. IsCommandOf header.now x.0 x.1) }
{
    let [address, value] = rest else {
        return Err(Reason::Word);
    };
    let index = vcpu_of(header, who)?;
    let (gfn, word) = address_of(header, address)?;
    let op = Op::Add(number_of(value)?);
    Ok((Actor::Vcpu(index), Command::Access { gfn, word, op }))
}

#[tactic(auto, unfolding(crate::specs::Forms::slot))]
fn slot_of(base: &[u8], pages: &[u8], host: &[u8], read_only: bool) -> Result<Slot, Reason>
    ensures value { result ≡ slot base.now pages.now host.now read_only }
    ensures pages { IfOk result (λ s. s.pages < 2 ^ 36) }
    ensures places { IfOk result (λ s. AreSlotPlaces s.base s.host) }
{
    let base = number_of(base)?;
    let pages = number_of(pages)?;
    let host = number_of(host)?;
    if base >= 1 << 36 || pages >= 1 << 36 {
        return Err(Reason::Number);
    }
    if host >= 1 << 36 || host % 64 != 0 {
        return Err(Reason::Number);
    }
    Ok(Slot {
        base,
        pages,
        host,
        read_only,
    })
}

// What a line with these numbers asks for: with no pages the slot is deleted.
fn slot_command(header: &Header, id: u64, slot: &Slot) -> Command
    requires pages { slot.now.pages < 2 ^ 36 }
    requires places { AreSlotPlaces slot.now.base slot.now.host }
    ensures value { result ≡ slot_command id slot.now }
    ensures allowed { IsCommandOf header.now Manager result }
{
    if slot.pages == 0 {
        Command::DeleteSlot { id }
    } else {
        Command::SetSlot { id, slot: *slot }
    }
}

#[tactic(auto, unfolding(crate::specs::Forms::setting))]
fn setting_said(
    header: &Header,
    id: &[u8],
    base: &[u8],
    pages: &[u8],
    host: &[u8],
    read_only: bool,
) -> Result<(Actor, Command), Reason>
    ensures value { result ≡ setting id.now base.now pages.now host.now read_only }
    ensures allowed { IfOk result (λ x. IsCommandOf header.now x.0 x.1) }
{
    let id = number_of(id)?;
    let slot = slot_of(base, pages, host, read_only)?;
    Ok((Actor::Manager, slot_command(header, id, &slot)))
}

#[tactic(auto, unfolding(crate::specs::Forms::slot_form))]
fn slot_said(header: &Header, who: &[u8], rest: &[&[u8]]) -> Result<(Actor, Command), Reason>
    ensures value { result ≡ slot_form who.now (map (λ w. w.now) rest.now) }
    ensures allowed { IfOk result (λ x. IsCommandOf header.now x.0 x.1) }
{
    if !is(who, "vm") {
        return Err(Reason::Word);
    }
    match rest {
        [id, base, pages, host] => setting_said(header, id, base, pages, host, false),
        [id, base, pages, host, last] if is(last, "ro") => {
            setting_said(header, id, base, pages, host, true)
        }
        _ => Err(Reason::Word),
    }
}

// What the words after a command's word say: one row for each form but that of a clear, and one
// for all of host threads.
#[tactic(auto, unfolding(crate::specs::Forms::by_command))]
fn command_said(
    header: &Header,
    who: &[u8],
    command: &[u8],
    rest: &[&[u8]],
) -> Result<(Actor, Command), Reason>
    requires { header.now.words ≤ 8 }
    ensures value { result ≡ by_command header.now who.now command.now (map (λ w. w.now) rest.now) }
    ensures allowed { IfOk result (λ x. IsCommandOf header.now x.0 x.1) }
{
    if is(command, "read") {
        read_said(header, who, rest)
    } else if is(command, "write") {
        write_said(header, who, rest)
    } else if is(command, "add") {
        add_said(header, who, rest)
    } else if is(command, "slot") {
        slot_said(header, who, rest)
    } else if is(command, "logon") {
        log_said(true, who, rest)
    } else if is(command, "logoff") {
        log_said(false, who, rest)
    } else if is(command, "get") {
        get_said(who, rest)
    } else if is(command, "split") {
        split_said(header, who, rest)
    } else {
        host_command_said(header, who, command, rest)
    }
}

/// What the words of line `line`, which is an actor's, say: the actor and its command.
#[tactic(auto, unfolding(crate::specs::Forms::by_form))]
pub fn form_said(
    alloc: Global,
    header: &Header,
    line: u32,
    words: &[&[u8]],
) -> Result<(Actor, Command), ReadError>
    requires { header.now.words ≤ 8 }
    ensures read { ReadsTo line (λ x. x) result (by_form header.now (map (λ w. w.now) words.now)) }
    ensures allowed { IfOk result (λ x. IsCommandOf header.now x.0 x.1) }
{
    let [who, command, rest @ ..] = words else {
        return Err(ReadError::Refused {
            line,
            reason: Reason::Word,
        });
    };
    if is(command, "clear") {
        return clear_said(alloc, line, who, rest);
    }
    match command_said(header, who, command, rest) {
        Ok(found) => Ok(found),
        Err(reason) => Err(ReadError::Refused { line, reason }),
    }
}
