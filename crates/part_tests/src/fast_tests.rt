//! The two steps of a fast fault that change a word, at a machine that is at its start: no actor makes them without a line.
use crate::{Acts, Came, HEAD, all_that_come};
use core_views::Actor;
use part_steps::PartStep;
use std::alloc::Global;
use step_seats::{PlainMachine, Stepper, allows, make_part, needs_line};

// Whether the hand allows that writes are allowed in a leaf, or that a page is marked.
fn may<S: Stepper>(seat: &mut S) -> Came {
    if seat.reserve().is_err() {
        return Came::no_memory();
    }
    if allows(seat.hand(), PartStep::Fix(5), 0) || allows(seat.hand(), PartStep::Mark, 0) {
        Came::only("may")
    } else {
        Came::only("may not")
    }
}

// Makes the step, where the actor may.
fn step<S: Stepper>(seat: &mut S, step: PartStep) -> Came {
    if seat.reserve().is_err() {
        return Came::no_memory();
    }
    if !allows(seat.hand(), step, 0) {
        return Came::not_allowed();
    }
    let _ = make_part(seat, step, 0);
    may(seat)
}

fn line(step: PartStep) -> Came {
    if needs_line(step) {
        Came::only("needs a line")
    } else {
        Came::only("needs none")
    }
}

fn step_named(word: &str) -> Option<PartStep> {
    match word {
        "begin" => Some(PartStep::Begin),
        "slots" => Some(PartStep::Slots),
        "root" => Some(PartStep::Root),
        "fix" => Some(PartStep::Fix(5)),
        "mark" => Some(PartStep::Mark),
        _ => None,
    }
}

// `begin`, `slots` and `root`: whether the actor may fix a leaf or mark a page after this step. `fix` and `mark`:
// whether these steps need a line.
#[derive(Drop)]
struct FastSteps;

impl Acts for FastSteps {
    fn act(&mut self, machine: &mut PlainMachine, actor: Actor, word: &str, _number: u64) -> Came {
        let named = step_named(word);
        let mut seat = machine.as_actor(actor);
        match named {
            Some(PartStep::Fix(gfn)) => line(PartStep::Fix(gfn)),
            Some(PartStep::Mark) => line(PartStep::Mark),
            Some(named) => step(&mut seat, named),
            None => Came::unknown(),
        }
    }
}

// Each actor, in a section, has loaded the slot set and the root.
const TABLE: &str = "\
==
v0 begin: may not
v0 slots: may not
v0 root: may not
v1 begin: may not
v1 slots: may not
v1 root: may not
h0 begin: may not
h0 slots: may not
h0 root: may not
vm begin: may not
vm slots: may not
vm root: may not
v0 fix: needs a line
v0 mark: needs a line
";

/// How many rows of the table come out as they stand there.
pub fn rows(alloc: Global) -> usize {
    let mut acts = FastSteps;
    all_that_come(alloc, HEAD, &mut acts, TABLE)
}
