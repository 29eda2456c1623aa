//! Claims of frames by lines of two host threads, each of which moves a page, at a plain
//! machine with 70 pages: word 1 of the map of frames has a bit for each frame after them.
ghost use Rattle.std.specs.Prelude.{◌≡◌, IfSome};
ghost use Rattle.mmu_core.specs.declared.claim.FreeMap.TheVariants.{Frames};
ghost use Rattle.mmu_core.specs.orders.ClaimSteps.{claim_part};
ghost use Rattle.mmu_core.specs.machine.MayMake.{MayMake};

use crate::{Acts, Came, all_that_come, is_next, make_steps};
use core_views::{Actor, Answer, MapClaim, Refusal};
use mmu_core::FreeMap;
use part_steps::PartStep;
use std::alloc::Global;
use step_seats::{Hand, PlainMachine, Stepper, Turn};
use table_pool::{Claim, Claimed};

const HEAD_OF_72: &str =
    "tdp 1 vcpus 1 workers 0 pages 70 frames 72 words 1 pool 4 cache 1 manual 0 hosts 0 35\n";

// The step of a claim of a frame.
fn step_of(begun: bool, claim: &MapClaim) -> PartStep
    ensures { result ≡ claim_part Frames begun claim.now }
{
    if begun && claim.seen > 0 {
        PartStep::Frame
    } else {
        PartStep::FrameMap(if begun { claim.at } else { 0 })
    }
}

// Looks whether this is the next step of the seat's line; answers the note that it makes
// then, which is 1 where the line may end with the step.
fn claim_note<S: Stepper>(seat: &S, begun: bool) -> Option<u64>
    ensures { IfSome result (λ note. MayMake (claim_part Frames begun (S.seat seat.now).hand.topics.frames.claim) note (S.seat seat.now).hand) }
{
    let hand = seat.hand();
    let step = step_of(begun, &hand.topics().frames.claim);
    if is_next(hand, step, 0) {
        return Some(0);
    }
    if is_next(hand, step, 1) {
        return Some(1);
    }
    None
}

fn said(turn: &Turn<Claimed>) -> Came {
    match turn {
        Turn::Done(Claimed::Got(frame)) => Came::one("got", *frame),
        Turn::Done(Claimed::Empty) => Came::only("empty"),
        _ => Came::turn(turn),
    }
}

// A turn of a claim, where it is the next step of the line.
fn claim<S: Stepper>(seat: &mut S, begun: bool) -> Came {
    if seat.reserve().is_err() {
        return Came::no_memory();
    }
    let Some(note) = claim_note(seat, begun) else {
        return Came::only("not next");
    };
    let mut job = Claim {
        map: FreeMap::Frames,
        begun,
    };
    said(&job.turn(seat, note))
}

// The answer that the actor has given last.
fn answer(hand: &Hand) -> Came {
    match hand.answers().last() {
        Some(last) if matches!(last.answer, Answer::Refused(Refusal::NoFrame)) => {
            Came::only("refused no-frame")
        }
        Some(_) => Came::only("another"),
        None => Came::only("none"),
    }
}

// A step of the actor's line, where one is left: how many it made.
fn step<S: Stepper>(seat: &mut S) -> Came {
    match make_steps(seat, 1) {
        Ok(made) => Came::one("made", made),
        Err(_) => Came::no_memory(),
    }
}

// `step`: a step of the actor's line, where one is left. `claim-anew`: the first turn of a claim. `claim`: the next
// one. `answer`: what the actor has answered last.
#[derive(Drop)]
struct FrameClaims;

impl Acts for FrameClaims {
    fn act(&mut self, machine: &mut PlainMachine, actor: Actor, word: &str, _number: u64) -> Came {
        let mut seat = machine.as_actor(actor);
        match word {
            "step" => step(&mut seat),
            "claim-anew" => claim(&mut seat, false),
            "claim" => claim(&mut seat, true),
            "answer" => answer(seat.hand()),
            _ => Came::unknown(),
        }
    }
}

// The first step of each line is the look at the page. A claim loads both words of the map, of which the second is
// word 14 of all words.

// Frame 70 is the lowest free one, and frame 71 is left: bit 7 of word 14.
const TABLE: &str = "\
h0 move 5
h1 move 40
==
h0 step: made 1
h0 claim-anew: more
h0 claim: more
h0 claim: got 70
machine word 14: 128
--
tdp 1 vcpus 1 workers 0 pages 70 frames 70 words 1 pool 4 cache 1 manual 0 hosts 0 35
h0 move 5
h1 move 40
==
// Each frame has a page: the line is answered with the load of the last word.
h0 step: made 1
h0 claim-anew: more
h0 claim: empty
h0 answer: refused no-frame
--
tdp 1 vcpus 1 workers 0 pages 70 frames 71 words 1 pool 4 cache 1 manual 0 hosts 0 35
h0 move 5
h1 move 40
==
// After both threads have seen the map, the only free frame is taken: the claim of the other one loads the word
// again, and finds none.
h0 step: made 1
h0 claim-anew: more
h0 claim: more
h1 step: made 1
h1 claim-anew: more
h1 claim: more
h1 claim: got 70
h0 claim: wait 14 0
h0 claim: empty
";

/// How many rows of the table come out as they stand there.
pub fn rows(alloc: Global) -> usize {
    let mut acts = FrameClaims;
    all_that_come(alloc, HEAD_OF_72, &mut acts, TABLE)
}
