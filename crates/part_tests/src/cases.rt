//! Tables of acts, as text, and machines at which they are done. A case of a table is the lines of a trace, with a header or
//! after the table's, a line `==`, and a row for each act, which says who does it, what it is, with a number or none, and
//! after a `:` what comes of it. A line `--` stands between cases.
//! `machine word N` looks at a word of the machine, `machine zeros N` counts the words from there on that are 0, and
//! a last row `machine words` has how many words there are. Numbers above 65535 are told in sixteens. Lines that
//! begin with `//` say what the rows are about.
ghost use Rattle.std.specs.Prelude.{◌<◌, length};
ghost use Rattle.core_views.specs.Sizes.{index_of};

use crate::{has_actor, machine_of};
use core_views::{Actor, Seen};
use part_steps::{PartStep, map_of};
use std::alloc::Global;
use step_seats::{MachineOwner, PlainMachine, Stepper, Turn, allows, make_part};

/// What comes of an act: some words, and up to four numbers after them.
#[derive(Clone, Copy, Drop)]
pub struct Came {
    words: &'static str,
    numbers: [u64; 4],
    count: usize,
}

impl Came {
    /// These words.
    pub fn only(words: &'static str) -> Came {
        Came {
            words,
            numbers: [0; 4],
            count: 0,
        }
    }

    /// These words, and a number.
    pub fn one(words: &'static str, number: u64) -> Came {
        Came {
            words,
            numbers: [number, 0, 0, 0],
            count: 1,
        }
    }

    /// These words, and two numbers.
    pub fn two(words: &'static str, first: u64, second: u64) -> Came {
        Came {
            words,
            numbers: [first, second, 0, 0],
            count: 2,
        }
    }

    /// These words, and three numbers.
    pub fn three(words: &'static str, first: u64, second: u64, third: u64) -> Came {
        Came {
            words,
            numbers: [first, second, third, 0],
            count: 3,
        }
    }

    /// These words, and four numbers.
    pub fn four(words: &'static str, first: u64, second: u64, third: u64, fourth: u64) -> Came {
        Came {
            words,
            numbers: [first, second, third, fourth],
            count: 4,
        }
    }

    /// The hand doesn't allow the step.
    pub fn not_allowed() -> Came {
        Came::only("not allowed")
    }

    /// No memory is left for the act.
    pub fn no_memory() -> Came {
        Came::only("no memory")
    }

    /// There is no such act.
    pub fn unknown() -> Came {
        Came::only("no such act")
    }

    /// What a turn said: a wait has the word that it found in its way, and that word's value.
    pub fn turn<T: Drop>(turn: &Turn<T>) -> Came {
        match turn {
            Turn::More => Came::only("more"),
            Turn::Wait(Seen { word, value }) => Came::two("wait", *word as u64, *value),
            Turn::Retry(_) => Came::only("retry"),
            Turn::Done(_) => Came::only("done"),
        }
    }
}

/// Makes this step of a part, where the hand allows it.
pub fn make<S: Stepper>(seat: &mut S, step: PartStep) -> Came {
    if seat.reserve().is_err() {
        return Came::no_memory();
    }
    if !allows(seat.hand(), step, 0) {
        return Came::not_allowed();
    }
    let _ = make_part(seat, step, 0);
    Came::only("made")
}

/// The acts that the rows of a table name.
pub trait Acts {
    /// The actor does what this word says, with the number after it, or 0: what comes of it.
    fn act(&mut self, machine: &mut PlainMachine, actor: Actor, word: &str, number: u64) -> Came
        requires there { index_of machine.old.sizes actor < length machine.old.hands };
}

// The number that is written there, in tens or, after `0x`, in sixteens.
fn number(text: &str) -> Option<u64> {
    match text.strip_prefix("0x") {
        Some(digits) => u64::from_str_radix(digits, 16).ok(),
        None => text.parse::<u64>().ok(),
    }
}

// Whether this is what came of an act: its words, and its numbers after them.
fn is_told(came: &Came, want: &str) -> bool {
    let Some(rest) = want.strip_prefix(came.words) else {
        return false;
    };
    let mut count = 0usize;
    for word in rest.split(' ') {
        if !word.is_empty() {
            if number(word) != came.numbers.get(count).copied() {
                return false;
            }
            count = count.saturating_add(1);
        }
    }
    count == came.count
}

/// The actor of this name, of those that tables name.
pub fn actor_named(name: &str) -> Option<Actor> {
    match name {
        "v0" => Some(Actor::Vcpu(0)),
        "v1" => Some(Actor::Vcpu(1)),
        "h0" => Some(Actor::Host(0)),
        "h1" => Some(Actor::Host(1)),
        "vm" => Some(Actor::Manager),
        "w0" => Some(Actor::Worker(0)),
        _ => None,
    }
}

fn word_at(machine: &PlainMachine, place: u64) -> u64 {
    match u32::try_from(place) {
        Ok(place) => machine.word(place),
        Err(_) => 0,
    }
}

fn zeros(machine: &PlainMachine, first: u64) -> u64 {
    let total = map_of(&machine.sizes()).total() as u64;
    let mut count = 0u64;
    for place in first..total {
        if word_at(machine, place) != 0 {
            break;
        }
        count = count.saturating_add(1);
    }
    count
}

// What a row finds that looks at words of the machine.
fn looked(machine: &PlainMachine, word: &str, place: u64) -> Came {
    match word {
        "word" => Came::one("", word_at(machine, place)),
        "zeros" => Came::one("", zeros(machine, place)),
        _ => Came::unknown(),
    }
}

// What comes of an act with this number, by whom the row names.
fn act_by<A: Acts>(
    acts: &mut A,
    machine: &mut PlainMachine,
    name: &str,
    word: &str,
    number: u64,
) -> Came {
    match actor_named(name) {
        Some(actor) if has_actor(machine, actor) => acts.act(machine, actor, word, number),
        Some(_) => Came::unknown(),
        None => looked(machine, word, number),
    }
}

// The words of an act: who does it, what, and the number, if it has one.
fn parts(act: &str) -> (&str, &str, &str) {
    let Some((name, rest)) = act.split_once(' ') else {
        return (act, "", "0");
    };
    match rest.split_once(' ') {
        Some((word, number)) => (name, word, number),
        None => (name, rest, "0"),
    }
}

// Whether the act comes out as it stands in its row.
fn comes<A: Acts>(acts: &mut A, machine: &mut PlainMachine, act: &str, want: &str) -> bool {
    let (name, word, digits) = parts(act);
    let Some(number) = number(digits) else {
        return false;
    };
    is_told(&act_by(acts, machine, name, word, number), want)
}

// The act of a row and what is to come of it, but of a note.
fn act_of(row: &str) -> Option<(&str, &str)> {
    if row.starts_with("//") {
        None
    } else {
        row.split_once(": ")
    }
}

// How many acts come out as they stand in their rows, one after another, up to the first that doesn't.
fn acts_that_come<A: Acts>(acts: &mut A, machine: &mut PlainMachine, rows: &str) -> usize {
    let mut count = 0usize;
    for row in rows.split('\n') {
        if let Some((act, want)) = act_of(row) {
            if !comes(acts, machine, act, want) {
                return count;
            }
            count = count.saturating_add(1);
        }
    }
    count
}

// The parts of a case: the lines of the trace, the acts, and how many words there are, if it says so.
fn parts_of(case: &str) -> (&str, &str, Option<&str>) {
    let Some((lines, rest)) = case.split_once("==\n") else {
        return (case, "", None);
    };
    match rest.split_once("machine words: ") {
        Some((rows, words)) => (lines, rows, Some(words)),
        None => (lines, rest, None),
    }
}

fn words_of(machine: PlainMachine) -> usize {
    machine.into_closing().words.as_slice().len()
}

// 1 if this is how many words there are by the case's last row, else 0.
fn counted(words: usize, want: Option<&str>) -> usize {
    match want {
        Some(want) => {
            let want = want.strip_suffix('\n').unwrap_or(want);
            usize::from(want.parse::<usize>().ok() == Some(words))
        }
        None => 0,
    }
}

// How many rows of the case come out as they stand there, one after another. Its machine has this header, or its own.
fn rows_that_come<A: Acts>(alloc: Global, head: &str, acts: &mut A, case: &str) -> usize {
    let (lines, rows, words) = parts_of(case);
    let head = if lines.starts_with("tdp ") { "" } else { head };
    let Some(mut machine) = machine_of(alloc, head, lines) else {
        return 0;
    };
    let count = acts_that_come(acts, &mut machine, rows);
    count.saturating_add(counted(words_of(machine), words))
}

/// How many rows of the table come out as they stand there, in each case up to the first that doesn't. The traces of its
/// machines have this header, but for those that have one of their own.
pub fn all_that_come<A: Acts>(alloc: Global, head: &str, acts: &mut A, table: &str) -> usize {
    let mut count = 0usize;
    for case in table.split("--\n") {
        count = count.saturating_add(rows_that_come(alloc, head, acts, case));
    }
    count
}
