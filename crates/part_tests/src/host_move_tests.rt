//! A host page that is moved to another frame, at a machine.

use crate::host_tests::{change_next, run};
use crate::{Acts, Came, HEAD_OF_POOL_8, all_that_come, go_to, is_next};
use core_views::{Actor, OwnedFrame};
use host_map::{copy, frame_give, store};
use part_steps::PartStep;
use std::alloc::Global;
use step_seats::{Hand, PlainMachine, Stepper};

// Copies the content word with this index, where the line's steps lead to that.
fn copy_next<S: Stepper>(seat: &mut S, index: u64) -> Came {
    if go_to(seat, PartStep::Copy(index), 0).is_err() || seat.reserve().is_err() {
        return Came::no_memory();
    }
    if is_next(seat.hand(), PartStep::Copy(index), 0) {
        Came::one("copied", copy(seat, index, 0))
    } else {
        Came::only("not next")
    }
}

// Stores in the content word with this index, if that is the next step of the seat's line.
fn store_next<S: Stepper>(seat: &mut S, index: u64) -> Came {
    if seat.reserve().is_err() {
        return Came::no_memory();
    }
    if !is_next(seat.hand(), PartStep::Store(index), 0) {
        return Came::only("not next");
    }
    store(seat, index, 0);
    Came::only("stored")
}

// Gives the frame back, with which the seat's line ends.
fn give_next<S: Stepper>(seat: &mut S) -> Came {
    if go_to(seat, PartStep::GiveFrame, 1).is_err() || seat.reserve().is_err() {
        return Came::no_memory();
    }
    if !is_next(seat.hand(), PartStep::GiveFrame, 1) {
        return Came::only("not next");
    }
    frame_give(seat, 1);
    Came::only("given")
}

// The frame that the actor owns, how many of its words are filled, and the word that is copied and not yet stored.
fn owned(hand: &Hand) -> Came {
    match hand.topics().frames.owned {
        Some(
            OwnedFrame {
                frame,
                filled,
                copied: Some(word),
            },
        ) => Came::three("frame, filled, copied", frame, filled, word),
        Some(OwnedFrame { frame, filled, .. }) => Came::two("frame, filled", frame, filled),
        None => Came::only("none"),
    }
}

// `run N`: so many steps of the actor's lines, or those that are left. `copy N`, `store N`, `change N` and `give`:
// this step, where the next one of the line is it, of a content word, or of the host word of the page. `owned`: the
// frame that the actor owns.
#[derive(Drop)]
struct Moves;

impl Acts for Moves {
    fn act(&mut self, machine: &mut PlainMachine, actor: Actor, word: &str, number: u64) -> Came {
        let mut seat = machine.as_actor(actor);
        match word {
            "run" => run(&mut seat, number),
            "copy" => copy_next(&mut seat, number),
            "store" => store_next(&mut seat, number),
            "change" => change_next(&mut seat, number),
            "give" => give_next(&mut seat),
            "owned" => owned(seat.hand()),
            _ => Came::unknown(),
        }
    }
}

// Slot 0 is set, of which guest frame 18 is host page 66, 77 is written to word 1 of this page, and h0 moves it. Its
// words are copied from frame 66 to frame 70, the lowest free one, the page is moved there, and frame 66 is free then.
// Its host word is 4096 * 70 + 7. The content words of frame 66 begin with index 132, and those of frame 70 with 140.
const TABLE: &str = "\
vm slot 0 16 4 64
v0 write 0x12008 77
h0 move 66
==
vm run 524: ran
v0 run 2000: ran
h0 copy 132: copied 0
h0 owned: frame, filled, copied 70 0 0
h0 store 140: stored
h0 owned: frame, filled 70 1
h0 copy 133: copied 77
h0 owned: frame, filled, copied 70 1 77
h0 store 141: stored
h0 owned: frame, filled 70 2
h0 change 0x46007: set
h0 owned: frame, filled 66 0
h0 give: given
h0 owned: none
// Frames 64 to 127 are word 14, host page 66 is word 18 + 66, and the contents begin at word 4192.
machine word 14: 0xffffffffffffff84
machine word 84: 0x46007
machine word 4332: 0
machine word 4333: 77
machine word 4325: 77
machine words: 4452
";

/// How many rows of the table come out as they stand there.
pub fn rows(alloc: Global) -> usize {
    let mut acts = Moves;
    all_that_come(alloc, HEAD_OF_POOL_8, &mut acts, TABLE)
}
