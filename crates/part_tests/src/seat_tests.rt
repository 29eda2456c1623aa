//! Steps through the bound, at the machine.
ghost use Rattle.std.specs.Prelude.{◌≡◌, ◌<◌, length, true};
ghost use Rattle.core_views.specs.Sizes.{index_of};
ghost use Rattle.mmu_core.specs.machine.Enabled.{mmu};
ghost use Rattle.mmu_core.specs.machine.Machine.{Leads};
ghost use Rattle.step_seats.specs.Machines.{world_in};
ghost use Rattle.step_seats.specs.Told.{WorldLeadsOn};

use crate::{Acts, Came, HEAD, all_that_come, has_actor};
use core_views::{Actor, Answer, NoMemory};
use std::alloc::Global;
use step_seats::{Hand, MachineOwner, PlainMachine, Stepper, next_kind, rests};

// The next step of the seat's line, through the bound, where it has one left.
fn step<S: Stepper>(seat: &mut S) -> Result<Option<u64>, NoMemory>
    ensures told { WorldLeadsOn (S.seat seat.old).tells.world (S.seat seat.new).tells.world }
    ensures same { ((S.seat seat.new).actor ≡ (S.seat seat.old).actor) × (S.frame seat.new ≡ S.frame seat.old) }
{
    seat.reserve()?;
    let hand = seat.hand();
    if hand.next_line().is_none() {
        return Ok(None);
    }
    rests(hand);
    let kind = next_kind(hand);
    Ok(Some(seat.act(kind)))
}

// The same of the first processor of the machine: what is told through the bound, is so of the
// machine's world.
fn step_of(machine: &mut PlainMachine, actor: Actor) -> Result<Option<u64>, NoMemory>
    requires there { index_of machine.old.sizes actor < length machine.old.hands }
    ensures leads { Leads mmu (world_in machine.old) (world_in machine.new) }
{
    let mut seat = machine.as_actor(actor);
    step(&mut seat)
}

// A step of the actor's line: what it found, where one is left.
fn next(machine: &mut PlainMachine, actor: Actor) -> Option<u64> {
    if has_actor(machine, actor) {
        step_of(machine, actor).unwrap_or(None)
    } else {
        None
    }
}

// So many steps of the actor's line, while each finds the same: how many they are, and what they found. One that
// finds another thing is not counted.
fn run(machine: &mut PlainMachine, actor: Actor, most: u64) -> Came {
    let first = next(machine, actor);
    let Some(found) = first else {
        return Came::only("none left");
    };
    for made in 1..most {
        if next(machine, actor) != first {
            return Came::two("", made, found);
        }
    }
    Came::two("", most, found)
}

// The answers of the actor: how many, and whether the first is an MMIO exit.
fn answered(hand: &Hand) -> Came {
    let answers = hand.answers();
    let words = match answers.first() {
        Some(line) if matches!(line.answer, Answer::Mmio) => "mmio",
        _ => "another",
    };
    Came::one(words, answers.len() as u64)
}

// `steps N`: how many steps of the actor's line, N at most, find the same, one after another, and what they find.
// `answers`: the first of its answers, and how many there are. `actors`: how many there are.
#[derive(Drop)]
struct Steps;

impl Acts for Steps {
    fn act(&mut self, machine: &mut PlainMachine, actor: Actor, word: &str, number: u64) -> Came {
        match word {
            "steps" => run(machine, actor, number),
            "answers" => answered(machine.as_actor(actor).hand()),
            "actors" => Came::one("", machine.sizes().actors()),
            _ => Came::unknown(),
        }
    }
}

// An access of a guest frame that no slot has: it enters the guest, finds no entry
// in the root, and leaves; its fault takes the sequence number, and finds no slot
// in the set of pool page 1. Each step answers what it found. There are
// 12 + 1 + 3 + 2 + 70 + 4 + 2048 + 260 words.
const TABLE: &str = "\
v0 read 0x5008
==
v0 steps 4: 4 0
v0 steps 1: 1 3
v0 steps 2: 2 0
v0 steps 1: 1 1
v0 steps 32: 32 0
v0 steps 24: 1 2
v0 answers: mmio 1
vm actors: 4
machine word 1: 1
machine word 8: 0
machine word 12: 12
machine word 14: 0xffffffffffffffc0
machine words: 2400
";

/// How many rows of the table come out as they stand there.
pub fn rows(alloc: Global) -> usize {
    let mut acts = Steps;
    all_that_come(alloc, HEAD, &mut acts, TABLE)
}
