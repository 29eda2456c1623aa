//! Turns of the jobs of faults: of whole ones, and of fast ones.
ghost use Rattle.std.specs.Prelude.{IfSome};
ghost use Rattle.part_tests.specs.Faults.{StandsIn};

use crate::{Came, make_steps};
use core_views::{AccessPlace, Cause, Command, FaultPlace, Place};
use fast_fault::{FastFaulted, FastJob};
use fault_install::{FaultJob, Faulted};
use step_seats::{Hand, Stepper, Turn, is_fast_place};

// The most turns that a fault makes.
const MOST: u64 = 9000;

// The fault of the hand's line, where the line stands in a fast one, or in a whole one.
fn fault_of(hand: &Hand, fast: bool) -> Option<FaultJob>
    ensures { IfSome result (λ job. StandsIn fast job hand.now.core) }
{
    if !hand.has_line() {
        return None;
    }
    let Place::Access(access) = hand.progress().place else {
        return None;
    };
    let AccessPlace::Fault(place) = access else {
        return None;
    };
    if is_fast_place(place) != fast {
        return None;
    }
    let Command::Access { gfn, op, .. } = &hand.line().command else {
        return None;
    };
    Some(FaultJob {
        gfn: *gfn,
        write: op.is_write(),
    })
}

/// Makes the steps of the seat's lines up to the next whole fault.
pub fn go_to_fault<S: Stepper>(seat: &mut S) -> Came {
    for _ in 0..40 {
        if fault_of(seat.hand(), false).is_some() {
            return Came::only("at its fault");
        }
        if make_steps(seat, 1).is_err() {
            return Came::no_memory();
        }
    }
    Came::only("no whole fault")
}

// What a turn that begins anew says, the one with this number.
fn anew(cause: Cause, number: u64) -> Came {
    match cause {
        Cause::Entry { word, read, seen } => {
            Came::four(
                "begins anew, turn, word, read and seen",
                number,
                word as u64,
                read,
                seen,
            )
        }
        _ => Came::one("begins anew, turn", number),
    }
}

// What the last turn of a whole fault says, the one with this number. Nothing where there is more.
fn whole(turn: &Turn<Faulted>, number: u64) -> Option<Came> {
    match turn {
        Turn::More => None,
        Turn::Wait(_) => Some(Came::one("waits, turn", number)),
        Turn::Retry(cause) => Some(anew(*cause, number)),
        Turn::Done(Faulted::Installed) => Some(Came::one("installed, turn", number)),
        Turn::Done(Faulted::Mmio) => Some(Came::one("mmio, turn", number)),
        Turn::Done(Faulted::HostFault) => Some(Came::one("hostfault, turn", number)),
        Turn::Done(Faulted::Starved) => Some(Came::one("starved, turn", number)),
    }
}

// Makes a turn of the whole fault in which the seat's line stands, if it stands in one.
fn whole_turn<S: Stepper>(s: &mut S, number: u64) -> Option<Came> {
    if s.reserve().is_err() {
        return Some(Came::no_memory());
    }
    let Some(job) = fault_of(s.hand(), false) else {
        return Some(Came::only("no whole fault"));
    };
    whole(&job.turn(s), number)
}

// Whether the hand's line stands at this place of its fault.
fn stands_at(hand: &Hand, stop: Option<FaultPlace>) -> bool {
    let Place::Access(AccessPlace::Fault(place)) = hand.progress().place else {
        return false;
    };
    match stop {
        Some(FaultPlace::Link) => matches!(place, FaultPlace::Link),
        Some(FaultPlace::Bring) => matches!(place, FaultPlace::Bring),
        _ => false,
    }
}

/// The turns of the whole fault in which the seat's line stands, up to this place of it.
pub fn whole_fault<S: Stepper>(seat: &mut S, stop: Option<FaultPlace>) -> Came {
    for number in 1..MOST {
        if stands_at(seat.hand(), stop) {
            return Came::one("more, turn", number - 1);
        }
        if let Some(came) = whole_turn(seat, number) {
            return came;
        }
    }
    Came::one("more, turn", MOST)
}

// What the last turn of a fast fault says, the one with this number. Nothing where there is more.
fn fast(turn: &Turn<FastFaulted>, number: u64) -> Option<Came> {
    match turn {
        Turn::More => None,
        Turn::Wait(_) => Some(Came::one("waits, turn", number)),
        Turn::Retry(cause) => Some(anew(*cause, number)),
        Turn::Done(FastFaulted::Fixed { marked: true }) => {
            Some(Came::one("fixed, marked, turn", number))
        }
        Turn::Done(FastFaulted::Fixed { .. }) => Some(Came::one("fixed, turn", number)),
        Turn::Done(FastFaulted::NotFast(word)) => {
            Some(Came::two("not fast, turn and word", number, *word))
        }
    }
}

// The same of a fast one.
fn fast_turn<S: Stepper>(s: &mut S, number: u64) -> Option<Came> {
    if s.reserve().is_err() {
        return Some(Came::no_memory());
    }
    let Some(FaultJob { gfn, write }) = fault_of(s.hand(), true) else {
        return Some(Came::only("no fast fault"));
    };
    fast(&FastJob { gfn, write }.turn(s), number)
}

/// The turns of the fast fault in which the seat's line stands.
pub fn fast_fault<S: Stepper>(seat: &mut S) -> Came {
    for number in 1..MOST {
        if let Some(came) = fast_turn(seat, number) {
            return came;
        }
    }
    Came::one("more, turn", MOST)
}
