//! The lines about a dirty log: `vm logon ID`, `vm logoff ID`, `vm get ID` and
//! `vm clear ID FIRST COUNT WORD ..`.
ghost use Rattle.std.specs.Prelude.{◌≡◌, map, IfOk};
ghost use Rattle.core_views.specs.Traces.{IsCommandOf};
ghost use Rattle.core_views.specs.declared.trace.Header.{Header};
ghost use Rattle.trace_reader.specs.Operands.{are_counted, numbers};
ghost use Rattle.trace_reader.specs.Forms.{clear_form, clearing, get_form, id_form, log_form, pages_named};
ghost use Rattle.trace_reader.specs.Steps.{ReadsTo};

use crate::Reason;
use crate::form::{is, number_of};
use crate::number::number;
use crate::refusal::ReadError;
use core_views::{Actor, Command, WORD_PAGES, Words};
use std::alloc::Global;

// The slot's ID, where it is the only word after the command's.
#[tactic(auto, unfolding(crate::specs::Forms::id_form))]
fn id_said(who: &[u8], rest: &[&[u8]]) -> Result<u64, Reason>
    ensures { result ≡ id_form who.now (map (λ w. w.now) rest.now) }
{
    let [id] = rest else {
        return Err(Reason::Word);
    };
    if !is(who, "vm") {
        return Err(Reason::Word);
    }
    number_of(id)
}

/// A line that turns a dirty log on or off: the command's word tells which.
#[tactic(auto, unfolding(crate::specs::Forms::log_form))]
pub fn log_said(on: bool, who: &[u8], rest: &[&[u8]]) -> Result<(Actor, Command), Reason>
    ensures value { result ≡ log_form on who.now (map (λ w. w.now) rest.now) }
    ensures allowed { (h : Header) → IfOk result (λ x. IsCommandOf h x.0 x.1) }
{
    let id = id_said(who, rest)?;
    Ok((Actor::Manager, Command::SetLog { id, on }))
}

/// A line that gets a dirty log.
#[tactic(auto, unfolding(crate::specs::Forms::get_form))]
pub fn get_said(who: &[u8], rest: &[&[u8]]) -> Result<(Actor, Command), Reason>
    ensures value { result ≡ get_form who.now (map (λ w. w.now) rest.now) }
    ensures allowed { (h : Header) → IfOk result (λ x. IsCommandOf h x.0 x.1) }
{
    let id = id_said(who, rest)?;
    Ok((Actor::Manager, Command::GetLog { id }))
}

// Whether there are as many words as a clear of so many pages has. Where their count is no
// number, there may be any.
fn are_counted(count: Option<u64>, words: &[&[u8]]) -> bool
    ensures { result ≡ are_counted count (map (λ w. w.now) words.now) }
{
    match count {
        Some(count) => words.len() as u64 == count.div_ceil(WORD_PAGES),
        None => true,
    }
}

// The numbers that the words of a line spell.
fn numbers_of(alloc: Global, line: u32, words: &[&[u8]]) -> Result<Vec<u64>, ReadError>
    ensures { ReadsTo line (λ v. v.items) result (numbers (map (λ w. w.now) words.now)) }
{
    let mut numbers = Vec::new(alloc);
    let mut rest = words;
    while let [word, after @ ..] = rest {
        match number_of(word) {
            Ok(value) => numbers.push(value)?,
            Err(reason) => return Err(ReadError::Refused { line, reason }),
        }
        rest = after;
    }
    Ok(numbers)
}

// The slot's ID, the first page, and how many pages.
#[tactic(auto, unfolding(crate::specs::Forms::pages_named))]
fn pages_named(id: &[u8], first: &[u8], count: &[u8]) -> Result<(u64, u64, u64), Reason>
    ensures { result ≡ pages_named id.now first.now count.now }
{
    let id = number_of(id)?;
    let first = number_of(first)?;
    let count = number_of(count)?;
    Ok((id, first, count))
}

#[tactic(auto, unfolding(crate::specs::Forms::clearing))]
fn clearing_said(
    alloc: Global,
    line: u32,
    id: &[u8],
    first: &[u8],
    count: &[u8],
    words: &[&[u8]],
) -> Result<(Actor, Command), ReadError>
    ensures { ReadsTo line (λ x. x) result (clearing id.now first.now count.now (map (λ w. w.now) words.now)) }
{
    let (id, first, count) = match pages_named(id, first, count) {
        Ok(found) => found,
        Err(reason) => return Err(ReadError::Refused { line, reason }),
    };
    let bits = numbers_of(alloc, line, words)?;
    let command = Command::ClearLog {
        id,
        first,
        count,
        words: Words::from_vec(bits),
    };
    Ok((Actor::Manager, command))
}

/// A line that clears a dirty log.
#[tactic(auto, unfolding(crate::specs::Forms::clear_form))]
pub fn clear_said(
    alloc: Global,
    line: u32,
    who: &[u8],
    rest: &[&[u8]],
) -> Result<(Actor, Command), ReadError>
    ensures read { ReadsTo line (λ x. x) result (clear_form who.now (map (λ w. w.now) rest.now)) }
    ensures allowed { (h : Header) → IfOk result (λ x. IsCommandOf h x.0 x.1) }
{
    match rest {
        [id, first, count, words @ ..] if is(who, "vm") && are_counted(number(count), words) => {
            clearing_said(alloc, line, id, first, count, words)
        }
        _ => Err(ReadError::Refused {
            line,
            reason: Reason::Word,
        }),
    }
}
