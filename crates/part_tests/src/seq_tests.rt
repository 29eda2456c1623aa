//! A snapshot and a check at a machine that is at its start, and checks at numbers.
use crate::{Acts, Came, HEAD, all_that_come, make};
use core_views::{Actor, CheckStage, Hold, Invalidated, Invalidations};
use invalidate_seq::{Check, Checked, Snapshot};
use part_steps::PartStep;
use std::alloc::Global;
use step_seats::{PlainMachine, Stepper, Turn, allows};

fn checked(turn: &Turn<Checked>) -> Came {
    match turn {
        Turn::Done(Checked::Fresh) => Came::only("fresh"),
        Turn::Done(Checked::Open { count, start, end }) => Came::three(
            "open", *count, *start, *end,
        ),
        Turn::Done(Checked::Moved { snapshot, seq }) => Came::two("moved", *snapshot, *seq),
        _ => Came::turn(turn),
    }
}

// A snapshot by an actor that doesn't hold the lock, where the hand allows it.
fn snapshot<S: Stepper>(seat: &mut S) -> Came {
    if seat.reserve().is_err() {
        return Came::no_memory();
    }
    let is_loose = seat.hand().topics().hold == Hold::Loose;
    if !allows(seat.hand(), PartStep::Seq, 0) || !is_loose {
        return Came::not_allowed();
    }
    match Snapshot::new().turn(seat, 0) {
        Turn::Done(number) => Came::one("done", number),
        turn => Came::turn(&turn),
    }
}

// What the last turn of a check says, by an actor that shares the lock and has a snapshot, where the hand allows its
// steps. The first turn says that there is more, and goes on to the sequence number.
fn check<S: Stepper>(seat: &mut S, job: &mut Check, gfn: u64) -> Came {
    if seat.reserve().is_err() {
        return Came::no_memory();
    }
    let shares = seat.hand().topics().hold == Hold::Shared;
    let has_snapshot = seat.hand().topics().invalidations.snapshot.is_some();
    if !allows(seat.hand(), PartStep::Count, 0) || !shares || !has_snapshot {
        return Came::not_allowed();
    }
    *job = Check::new(gfn);
    let first = job.turn(seat, 0);
    if seat.reserve().is_err() {
        return Came::no_memory();
    }
    if !matches!(first, Turn::More) || job.stage != CheckStage::Seq {
        return Came::only("ended with the count");
    }
    if !allows(seat.hand(), PartStep::Seq, 0) {
        return Came::not_allowed();
    }
    checked(&job.turn(seat, 0))
}

// `snapshot`, `share`. `check N`: both turns of a check of a guest frame, of which the first one goes on to the sequence
// number: what the second one says. `of`: the guest frame of the last check. `end N` and `number N`: a check of a guest frame at
// numbers, of no actor.
#[derive(Drop)]
struct Checks {
    check: Check,
}

impl Acts for Checks {
    fn act(&mut self, machine: &mut PlainMachine, actor: Actor, word: &str, number: u64) -> Came {
        let mut seat = machine.as_actor(actor);
        match word {
            "share" => make(&mut seat, PartStep::Share),
            "snapshot" => snapshot(&mut seat),
            "check" => check(&mut seat, &mut self.check, number),
            "of" => Came::one("frame", self.check.gfn),
            "end" => said(CheckStage::End, number),
            "number" => said(CheckStage::Seq, number),
            _ => Came::unknown(),
        }
    }
}

// What a check of the guest frame says at the end of the range 5 to 9, or at the sequence number, where the numbers
// kept are these.
fn said_at(stage: CheckStage, gfn: u64) -> Option<Turn<Checked>> {
    let kept = Invalidations {
        snapshot: Some(7),
        count: 2,
        start: 5,
        end: 9,
        seq: 8,
        checked: core_views::Checked::Range,
        opened: false,
        own: Invalidated {
            pages: None,
            start: 0,
            end: 0,
        },
        raised: false,
    };
    let mut check = Check { gfn, stage };
    match stage {
        CheckStage::End => Some(check.go_on(&kept)),
        CheckStage::Seq if gfn >= 9 => {
            let all = Invalidations {
                checked: core_views::Checked::All,
                ..kept
            };
            Some(check.go_on(&all))
        }
        _ => None,
    }
}

fn said(stage: CheckStage, gfn: u64) -> Came {
    match said_at(stage, gfn) {
        Some(turn) => checked(&turn),
        None => Came::not_allowed(),
    }
}

// No invalidation is open at the start, and the sequence number is 0: a check
// loads these two words, and finds nothing.
const TABLE: &str = "\
==
v0 snapshot: done 0
v0 share: made
v0 check 5: fresh
v0 of: frame 5
--
==
// The frame after the range isn't in it.
v0 end 4: more
v0 end 5: open 2 5 9
v0 end 8: open 2 5 9
v0 end 9: more
v0 number 9: moved 7 8
";

/// How many rows of the table come out as they stand there.
pub fn rows(alloc: Global) -> usize {
    let mut acts = Checks {
        check: Check::new(0),
    };
    all_that_come(alloc, HEAD, &mut acts, TABLE)
}
