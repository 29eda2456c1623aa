ghost use Rattle.std.specs.Prelude.{◌≡◌, ◌≤◌, map, IfOk};
ghost use Rattle.std.specs.List.{list_any};
ghost use Rattle.trace_reader.specs.Forms.{is_empty};
ghost use Rattle.trace_reader.specs.Sayings.{IsSayingOf, by_first, by_words, command_said, go_said, schedule_said};
ghost use Rattle.trace_reader.specs.Steps.{ReadsTo};

use crate::Reason;
use crate::form::{form_said, is};
use crate::item::item_of;
use crate::refusal::ReadError;
use core_views::{Actor, Command, Header, Item};
use std::alloc::Global;

/// What a line after the header says.
#[derive(Clone, Drop)]
pub enum Saying {
    /// That the actor makes this command.
    Does { actor: Actor, command: Command },
    /// `go`: the lines above it run alone.
    Go,
    /// An item of the schedule.
    Schedules(Item),
}

fn go_of(go_seen: bool, rest: &[&[u8]]) -> Result<Saying, Reason>
    ensures { result ≡ go_said go_seen (map (λ w. w.now) rest.now) }
{
    if rest.is_empty() && !go_seen {
        Ok(Saying::Go)
    } else {
        Err(Reason::Word)
    }
}

#[tactic(auto, unfolding(crate::specs::Sayings::schedule_said))]
fn schedule_of(header: &Header, rest: &[&[u8]]) -> Result<Saying, Reason>
    ensures value { result ≡ schedule_said header.now (map (λ w. w.now) rest.now) }
    ensures allowed { IfOk result (λ s. IsSayingOf header.now s) }
{
    match rest {
        [who, last] => {
            let item = item_of(header, who, last)?;
            Ok(Saying::Schedules(item))
        }
        _ => Err(Reason::Word),
    }
}

#[tactic(auto, unfolding(crate::specs::Sayings::command_said))]
fn command_of(
    alloc: Global,
    header: &Header,
    line: u32,
    words: &[&[u8]],
) -> Result<Saying, ReadError>
    requires { header.now.words ≤ 8 }
    ensures read { ReadsTo line (λ s. s) result (command_said header.now (map (λ w. w.now) words.now)) }
    ensures allowed { IfOk result (λ s. IsSayingOf header.now s) }
{
    match form_said(alloc, header, line, words) {
        Ok((actor, command)) => Ok(Saying::Does { actor, command }),
        Err(error) => Err(error),
    }
}

#[tactic(auto, unfolding(crate::specs::Sayings::by_first))]
fn first_said(
    alloc: Global,
    header: &Header,
    go_seen: bool,
    line: u32,
    words: &[&[u8]],
) -> Result<Saying, ReadError>
    requires { header.now.words ≤ 8 }
    ensures read { ReadsTo line (λ s. s) result (by_first header.now go_seen (map (λ w. w.now) words.now)) }
    ensures allowed { IfOk result (λ s. IsSayingOf header.now s) }
{
    let [first, rest @ ..] = words else {
        return Err(ReadError::Refused {
            line,
            reason: Reason::Word,
        });
    };
    let found = if is(first, "go") {
        go_of(go_seen, rest)
    } else if is(first, ">") {
        schedule_of(header, rest)
    } else {
        return command_of(alloc, header, line, words);
    };
    match found {
        Ok(says) => Ok(says),
        Err(reason) => Err(ReadError::Refused { line, reason }),
    }
}

fn has_empty(words: &[&[u8]]) -> bool
    ensures { result ≡ list_any is_empty (map (λ w. w.now) words.now) }
{
    let mut rest = words;
    while let [word, after @ ..] = rest {
        if word.is_empty() {
            return true;
        }
        rest = after;
    }
    false
}

/// What line `line` says, by its words.
#[tactic(auto, unfolding(crate::specs::Sayings::by_words))]
pub fn words_said(
    alloc: Global,
    header: &Header,
    go_seen: bool,
    line: u32,
    words: &[&[u8]],
) -> Result<Saying, ReadError>
    requires { header.now.words ≤ 8 }
    ensures read { ReadsTo line (λ s. s) result (by_words header.now go_seen (map (λ w. w.now) words.now)) }
    ensures allowed { IfOk result (λ s. IsSayingOf header.now s) }
{
    if has_empty(words) {
        Err(ReadError::Refused {
            line,
            reason: Reason::Word,
        })
    } else {
        first_said(alloc, header, go_seen, line, words)
    }
}
