//! A virtual processor goes into the guest and out of it, at a machine.
ghost use Rattle.std.specs.Prelude.{◌≡◌, ◌<◌, true};
ghost use Rattle.mmu_core.specs.machine.MayMake.{MayMake};

use crate::{Acts, Came, HEAD, all_that_come};
use core_views::Actor;
use part_steps::PartStep;
use std::alloc::Global;
use step_seats::{PlainMachine, Stepper, allows};
use vcpu_tlb::{Entered, enter, leave, paused};

// Whether the seat may make the step, for which it has taken room.
fn may<S: Stepper>(seat: &mut S, step: PartStep, note: u64) -> bool
    ensures may { result ≡ true → MayMake step note (S.seat seat.new).hand }
    ensures room { result ≡ true → 0 < (S.seat seat.new).room }
{
    seat.reserve().is_ok() && allows(seat.hand(), step, note)
}

// Whether processors are to stay outside.
fn pause<S: Stepper>(seat: &mut S, note: u64) -> &'static str {
    if !may(seat, PartStep::Pause, note) {
        return "not allowed, cached";
    }
    if paused(seat, note) {
        "paused, cached"
    } else {
        "not paused, cached"
    }
}

fn go_in<S: Stepper>(seat: &mut S, note: u64) -> &'static str {
    if !may(seat, PartStep::Enter, note) {
        return "not allowed, cached";
    }
    match enter(seat, note) {
        Entered::In => "in, cached",
        Entered::Flushed => "flushed, cached",
    }
}

fn go_out<S: Stepper>(seat: &mut S, note: u64) -> &'static str {
    if !may(seat, PartStep::Leave, note) {
        return "not allowed, cached";
    }
    leave(seat, note);
    "left, cached"
}

// `pause`, `enter` and `leave`: the step by its part with this note, where the hand allows it, and how many
// translations the processor has cached then.
#[derive(Drop)]
struct Entries;

impl Acts for Entries {
    fn act(&mut self, machine: &mut PlainMachine, actor: Actor, word: &str, number: u64) -> Came {
        let mut seat = machine.as_actor(actor);
        let words = match word {
            "pause" => pause(&mut seat, number),
            "enter" => go_in(&mut seat, number),
            "leave" => go_out(&mut seat, number),
            _ => "no such act",
        };
        Came::one(words, seat.hand().cache().len() as u64)
    }
}

// Virtual processor 0 looks at the pause, enters and leaves. No step asks for a flush, so
// that `flushed` is never reached. Its state word is word 8.
const TABLE: &str = "\
==
v0 pause 0: not paused, cached 0
v0 leave 0: not allowed, cached 0
v0 enter 1: in, cached 0
v0 enter 0: not allowed, cached 0
v0 leave 0: left, cached 0
v0 leave 0: not allowed, cached 0
machine word 8: 0
";

/// How many rows of the table come out as they stand there.
pub fn rows(alloc: Global) -> usize {
    let mut acts = Entries;
    all_that_come(alloc, HEAD, &mut acts, TABLE)
}
