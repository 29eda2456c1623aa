//! Claims, fills and gives at a plain machine with four pool pages, of which 2
//! and 3 are free.
ghost use Rattle.std.specs.Prelude.{◌≡◌, ◌<◌, true};
ghost use Rattle.mmu_core.specs.declared.claim.FreeMap.TheVariants.{Pages};
ghost use Rattle.mmu_core.specs.machine.MayMake.{MayMake};
ghost use Rattle.part_steps.specs.PartTasks.{page_owned};
ghost use Rattle.table_pool.specs.Claims.{claim_step};
ghost use Rattle.table_pool.specs.Pages.{fill_step};

use crate::{Acts, Came, HEAD, all_that_come};
use core_views::Actor;
use mmu_core::FreeMap;
use part_steps::{PartStep, map_of};
use spte_words::Area;
use std::alloc::Global;
use step_seats::{PlainMachine, Stepper, Turn, allows, part_rests, words_filled};
use table_pool::{Claim, Claimed, Fill, Give};

// Takes room for a step, and looks whether the hand allows it.
fn may<S: Stepper>(seat: &mut S, step: PartStep) -> bool
    ensures may { result ≡ true → MayMake step 0 (S.seat seat.new).hand }
    ensures room { result ≡ true → 0 < (S.seat seat.new).room }
    ensures hand { (S.seat seat.new).hand ≡ (S.seat seat.old).hand }
{
    seat.reserve().is_ok() && allows(seat.hand(), step, 0)
}

// Whether the claim may go on: the hand has no line left and owns no page,
// and the claim isn't over.
fn may_claim<S: Stepper>(seat: &S, job: &Claim) -> bool
    requires { job.now.map ≡ Pages }
    ensures { result ≡ true → MayMake (claim_step job.now (S.seat seat.now).hand.topics) 0 (S.seat seat.now).hand }
{
    let hand = seat.hand();
    part_rests(hand);
    let words = map_of(&hand.progress().sizes).size_of(Area::PoolMap);
    let is_over = job.begun && hand.topics().claim.at >= words as u64;
    if hand.next_line().is_some() || hand.topics().owned.is_some() || is_over {
        return false;
    }
    job.may_turn(hand, 0);
    true
}

fn claimed(turn: &Turn<Claimed>) -> Came {
    match turn {
        Turn::Done(Claimed::Got(page)) => Came::one("got", *page),
        Turn::Done(Claimed::Empty) => Came::only("empty"),
        _ => Came::turn(turn),
    }
}

// What a turn of a claim says, which has begun before it or not. It has begun after each turn.
fn claim<S: Stepper>(seat: &mut S, begun: bool) -> Came {
    let mut job = Claim {
        map: FreeMap::Pages,
        begun,
    };
    if seat.reserve().is_err() {
        return Came::no_memory();
    }
    if !may_claim(seat, &job) {
        return Came::not_allowed();
    }
    let turn = job.turn(seat, 0);
    if job.begun {
        claimed(&turn)
    } else {
        Came::only("not begun")
    }
}

// Whether the seat owns the page.
fn owns<S: Stepper>(seat: &S, page: u64) -> bool
    ensures { result ≡ true → page_owned (S.seat seat.now).hand.topics.owned ≡ page }
{
    match seat.hand().topics().owned {
        Some(owned) => owned.page == page,
        None => false,
    }
}

// The step that fills a page of which so many words are filled.
fn fill_step(filled: u64, value: u64) -> PartStep
    ensures { result ≡ fill_step filled value }
{
    if filled == 512 {
        PartStep::Role(value)
    } else {
        PartStep::Fill(value)
    }
}

// A turn of the fill, where the seat owns the page.
fn fill<S: Stepper>(seat: &mut S, job: &mut Fill, value: u64) -> Option<Turn<()>> {
    if !owns(seat, job.page) {
        return None;
    }
    let step = fill_step(words_filled(seat.hand().topics().owned), value);
    if may(seat, step) {
        Some(job.turn(seat, value, 0))
    } else {
        None
    }
}

fn filled(turn: &Option<Turn<()>>) -> Came {
    match turn {
        Some(turn) => Came::turn(turn),
        None => Came::not_allowed(),
    }
}

// How many turns of a fill that write this value, 512 of them at most, said that there is more, before one that said
// something else.
fn fill_words<S: Stepper>(seat: &mut S, job: &mut Fill, value: u64) -> Came {
    for more in 0..512 {
        if !matches!(fill(seat, job, value), Some(Turn::More)) {
            return Came::one("more", more);
        }
    }
    Came::one("more", 512)
}

fn give<S: Stepper>(seat: &mut S, page: u64) -> Came {
    let mut job = Give::new(page);
    if owns(seat, page) && may(seat, PartStep::Give) {
        Came::turn(&job.turn(seat, 0))
    } else {
        Came::not_allowed()
    }
}

// `claim-anew`: the first turn of a claim. `claim`: the next one. `fill N`: the next word of page 2 is filled, or its
// role. `fill-words N`: its 512 words are. `give N`: the page is given back.
#[derive(Drop)]
struct PageSteps {
    job: Fill,
}

impl Acts for PageSteps {
    fn act(&mut self, machine: &mut PlainMachine, actor: Actor, word: &str, number: u64) -> Came {
        let mut seat = machine.as_actor(actor);
        match word {
            "claim-anew" => claim(&mut seat, false),
            "claim" => claim(&mut seat, true),
            "fill" => filled(&fill(&mut seat, &mut self.job, number)),
            "fill-words" => fill_words(&mut seat, &mut self.job, number),
            "give" => give(&mut seat, number),
            _ => Came::unknown(),
        }
    }
}

// The pool's map is word 12, the role of page 2 is word 90, and its own words are 1116 to 1627.

const TABLE: &str = "\
==
v0 claim-anew: more
v0 claim: got 2
v1 claim-anew: more
v1 claim: got 3
h0 claim-anew: empty
machine word 12: 0
machine words: 2400
--
==
// A page that is taken meanwhile: the claim goes on with what it sees then, and
// loads the word again once it sees none.
v0 claim-anew: more
h0 claim-anew: more
v1 claim-anew: more
v1 claim: got 2
v0 claim: wait 12 8
h0 claim: wait 12 8
h0 claim: got 3
v0 claim: wait 12 0
v0 claim: empty
machine words: 2400
--
==
v0 claim-anew: more
v0 claim: got 2
v0 fill-words 0: more 512
v0 fill 3: done
machine word 12: 8
machine word 90: 3
// Page 3 and the contents are not written either.
machine zeros 1116: 1284
machine words: 2400
--
==
// The next claim gets the page with what was filled in.
v0 claim-anew: more
v0 claim: got 2
v0 fill 5: more
v0 fill 6: more
v0 give 2: done
v1 claim-anew: more
v1 claim: got 2
machine word 12: 8
machine word 1116: 5
machine word 1117: 6
machine word 1118: 0
machine words: 2400
";

/// How many rows of the table come out as they stand there.
pub fn rows(alloc: Global) -> usize {
    let mut acts = PageSteps { job: Fill::new(2) };
    all_that_come(alloc, HEAD, &mut acts, TABLE)
}
