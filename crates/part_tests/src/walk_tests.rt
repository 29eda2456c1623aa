//! Walks at a machine that is at its start.
use crate::{Acts, Came, HEAD, all_that_come, make};
use core_views::{Actor, Stay};
use part_steps::PartStep;
use std::alloc::Global;
use step_seats::{PlainMachine, Stepper, Turn, allows};
use tdp_walk::{Walk, Walked};

// What a turn said.
fn said(turn: &Turn<Walked>) -> Came {
    match turn {
        Turn::Done(Walked::Absent { level }) => Came::one("absent", *level as u64),
        Turn::Done(Walked::Leaf { .. }) => Came::only("leaf"),
        Turn::Done(Walked::Frozen { .. }) => Came::only("frozen"),
        _ => Came::turn(turn),
    }
}

// The next turn of the walk, where the hand allows its step.
fn go_on<S: Stepper>(walk: &mut Walk, seat: &mut S) -> Came {
    if seat.reserve().is_err() {
        return Came::no_memory();
    }
    let in_section = seat.hand().topics().stay == Stay::Section;
    if walk.gfn >= 1 << 36 {
        return Came::not_allowed();
    }
    let allowed = if walk.rooted {
        allows(seat.hand(), PartStep::Walk(walk.gfn), 0)
    } else {
        allows(seat.hand(), PartStep::Root, 0) && in_section
    };
    if !allowed {
        return Came::not_allowed();
    }
    said(&walk.turn(seat, 0))
}

// The level, the root and the entry that the walk has come to.
fn place<S: Stepper>(seat: &S) -> Came {
    let held = seat.hand().topics().walk;
    Came::three(
        "level, root and entry",
        held.level as u64,
        held.root,
        held.entry,
    )
}

// `begin`. `walk`: the next turn of the walk. `at`: where the walk has come to.
#[derive(Drop)]
struct Walks {
    walk: Walk,
}

impl Acts for Walks {
    fn act(&mut self, machine: &mut PlainMachine, actor: Actor, word: &str, _number: u64) -> Came {
        let mut seat = machine.as_actor(actor);
        match word {
            "begin" => make(&mut seat, PartStep::Begin),
            "walk" => go_on(&mut self.walk, &mut seat),
            "at" => place(&seat),
            _ => Came::unknown(),
        }
    }
}

// The root of a machine at its start is pool page 0, and none of its entries is
// present: a walk to guest frame 5 ends in its second turn, at level 4.
const TABLE: &str = "\
==
v0 begin: made
v0 walk: more
v0 at: level, root and entry 4 0 0
v0 walk: absent 4
v0 at: level, root and entry 4 0 0
";

/// How many rows of the table come out as they stand there.
pub fn rows(alloc: Global) -> usize {
    let mut acts = Walks { walk: Walk::new(5) };
    all_that_come(alloc, HEAD, &mut acts, TABLE)
}
