//! Sections and watches at a machine of two virtual processors, one host thread
//! and the manager: their state words are 8 to 11.
ghost use Rattle.std.specs.Prelude.{◌≡◌};
ghost use Rattle.grace_period.specs.Watches.{watched_next};
ghost use Rattle.part_steps.specs.PartBounds.{PartRests};

use crate::{Acts, Came, HEAD, all_that_come};
use core_views::Actor;
use grace_period::{Watch, begin, end};
use part_steps::PartStep;
use std::alloc::Global;
use step_seats::{Hand, PlainMachine, Stepper, allows, make_part, next_watched, part_rests};

// The step on the actor's own state word, where it is allowed.
fn go<S: Stepper>(seat: &mut S, step: PartStep) -> Came {
    if seat.reserve().is_err() {
        return Came::no_memory();
    }
    if !allows(seat.hand(), step, 0) {
        return Came::not_allowed();
    }
    match step {
        PartStep::Begin => begin(seat, 0),
        PartStep::End => end(seat, 0),
        _ => {
            let _ = make_part(seat, step, 0);
        }
    }
    Came::only("done")
}

// A watch that has looked at an actor, or has looked at nobody yet.
fn watch_of(has_looked: bool) -> Watch
    ensures { result ≡ record { has_looked = has_looked } }
{
    if has_looked {
        Watch::under_way()
    } else {
        Watch::new()
    }
}

// The actor at whom such a watch looks next.
fn next_look(has_looked: bool, hand: &Hand) -> u64
    requires { PartRests hand.now.core }
    ensures { result ≡ watched_next (record { has_looked = has_looked }) hand.now.core }
{
    let state = hand.progress();
    let own = state.sizes.index_of(state.actor);
    let seen = if has_looked { hand.topics().watched } else { 0 };
    next_watched(own, seen)
}

// The next look of the watch, where it is allowed. Whether the watch has looked before, a
// comparison tells.
fn look<S: Stepper>(seat: &mut S, watch: &mut Watch) -> Came {
    let has_looked = *watch == Watch::under_way();
    *watch = watch_of(has_looked);
    if seat.reserve().is_err() {
        return Came::no_memory();
    }
    let hand = seat.hand();
    part_rests(hand);
    let index = next_look(has_looked, hand);
    if !allows(hand, PartStep::Watch(index), 0) {
        return Came::not_allowed();
    }
    Came::turn(&watch.turn(seat, 0))
}

fn step_named(word: &str) -> Option<PartStep> {
    match word {
        "begin" => Some(PartStep::Begin),
        "end" => Some(PartStep::End),
        "enter" => Some(PartStep::Enter),
        "leave" => Some(PartStep::Leave),
        _ => None,
    }
}

// `begin`, `end`, `enter` and `leave`: this step on the actor's own state word. `look-anew`: the first look of a new
// watch. `look`: the next look of the watch.
#[derive(Drop)]
struct Watching {
    watch: Watch,
}

impl Acts for Watching {
    fn act(&mut self, machine: &mut PlainMachine, actor: Actor, word: &str, _number: u64) -> Came {
        let step = step_named(word);
        if word == "look-anew" {
            self.watch = Watch::new();
        }
        let looks = word == "look" || word == "look-anew";
        let mut seat = machine.as_actor(actor);
        match step {
            Some(step) => go(&mut seat, step),
            None if looks => look(&mut seat, &mut self.watch),
            None => Came::unknown(),
        }
    }
}

// An actor waits for the state word of another one: 8 of v0, 9 of v1, 10 of h0, 11 of vm. It is 2 in a section, and
// 3 in the guest.

const TABLE: &str = "\
==
v0 begin: done
vm look: wait 8 2
vm look: wait 8 2
v0 end: done
vm look: more
v0 begin: done
v1 enter: done
vm look: wait 9 3
v1 leave: done
vm look: more
h0 begin: done
vm look: wait 10 2
h0 end: done
vm look: done
vm look: not allowed
--
==
vm look-anew: more
vm look: more
v0 begin: done
vm look-anew: wait 8 2
v0 end: done
vm look: more
vm look: more
vm look: done
--
==
v0 begin: done
v1 begin: done
v0 look-anew: wait 9 2
v1 end: done
v0 look: more
v0 look: more
vm begin: done
v0 look: wait 11 2
vm end: done
v0 look: done
v1 look-anew: wait 8 2
v0 end: done
v1 look: more
h0 begin: done
v1 look: wait 10 2
--
==
h0 end: not allowed
h0 begin: done
h0 begin: not allowed
h0 end: done
h0 begin: done
";

/// How many rows of the table come out as they stand there.
pub fn rows(alloc: Global) -> usize {
    let mut acts = Watching {
        watch: Watch::new(),
    };
    all_that_come(alloc, HEAD, &mut acts, TABLE)
}
