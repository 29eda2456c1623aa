//! Searches at machines with no slot, and with one.
use crate::{Acts, Came, HEAD, all_that_come, make, make_steps};
use core_views::{Actor, Stay};
use memslots::{Find, FoundSlot, Sought};
use part_steps::PartStep;
use std::alloc::Global;
use step_seats::{PlainMachine, Stepper, Turn, allows};

// The next turn of the search, where the hand allows its step.
fn turn<S: Stepper>(find: &mut Find, seat: &mut S) -> Option<Turn<Option<FoundSlot>>> {
    if seat.reserve().is_err() {
        return None;
    }
    let in_section = seat.hand().topics().stay == Stay::Section;
    let allowed = if find.begun {
        allows(seat.hand(), PartStep::Slot, 0)
    } else {
        allows(seat.hand(), PartStep::Slots, 0) && in_section
    };
    if allowed {
        Some(find.turn(seat, 0))
    } else {
        None
    }
}

// A slot, as the line has it that sets it.
fn slot(found: &FoundSlot) -> Came {
    let FoundSlot { id, slot, logged } = *found;
    let words = match (slot.read_only, logged) {
        (false, false) => "slot",
        (true, false) => "ro slot",
        (_, true) => "slot with a log",
    };
    Came::four(words, id, slot.base, slot.pages, slot.host)
}

fn said(last: &Option<Turn<Option<FoundSlot>>>) -> Came {
    match last {
        Some(Turn::Done(Some(found))) => slot(found),
        Some(Turn::Done(None)) => Came::only("none"),
        Some(turn) => Came::turn(turn),
        None => Came::not_allowed(),
    }
}

// A search of at most 200 turns: how many said that there is more, and what the last one said.
fn search<S: Stepper>(seat: &mut S, sought: Sought) -> (u64, Option<Turn<Option<FoundSlot>>>) {
    let mut find = Find::new(sought);
    for more in 0..200 {
        let said = turn(&mut find, seat);
        if !matches!(said, Some(Turn::More)) {
            return (more, said);
        }
    }
    (200, Some(Turn::More))
}

// The page of the slot set that is searched.
fn set<S: Stepper>(seat: &S) -> u64 {
    seat.hand().topics().search.set.unwrap_or(0)
}

fn line<S: Stepper>(seat: &mut S) -> Came {
    match make_steps(seat, 600) {
        Ok(made) => Came::one("made", made),
        Err(_) => Came::no_memory(),
    }
}

// `line`: the steps of the actor's line, 600 of them at most, and how many there were. `begin`. `frame N` and
// `page N`: a search by a guest frame, or by a host page, and the slot. `more-and-set`: how many of its turns said that
// there is more, and the pool page of the slot set.
#[derive(Drop)]
struct Searches {
    more: u64,
}

impl Searches {
    fn finds<S: Stepper>(&mut self, seat: &mut S, sought: Sought) -> Came {
        let (more, last) = search(seat, sought);
        self.more = more;
        said(&last)
    }
}

impl Acts for Searches {
    fn act(&mut self, machine: &mut PlainMachine, actor: Actor, word: &str, number: u64) -> Came {
        let mut seat = machine.as_actor(actor);
        match word {
            "line" => line(&mut seat),
            "begin" => make(&mut seat, PartStep::Begin),
            "frame" => self.finds(&mut seat, Sought::GuestFrame(number)),
            "page" => self.finds(&mut seat, Sought::HostPage(number)),
            "more-and-set" => Came::two("", self.more, set(&seat)),
            _ => Came::unknown(),
        }
    }
}

// No slot is live at the start: the search ends with the flags of ID 31.
const TABLE: &str = "\
==
v0 begin: made
v0 frame 5: none
v0 more-and-set: 32 1
--
vm slot 3 5 3 64 ro
==
// The manager sets slot 3, of guest frames 5, 6 and 7, in 524 steps: the map, the page, 512 words and the role of the
// set, the lock, the count, the set, the lock, the three other actors, and the role and the page of the set before. The
// set stands in page 2 then. Each search loads the flags of IDs 0 to 2, and the four words of ID 3.
vm line: made 524
v0 begin: made
v0 frame 5: ro slot 3 5 3 64
v0 more-and-set: 7 2
v0 frame 7: ro slot 3 5 3 64
v0 more-and-set: 7 2
v0 frame 4: none
v0 more-and-set: 35 2
v0 frame 8: none
v0 more-and-set: 35 2
v0 page 64: ro slot 3 5 3 64
v0 more-and-set: 7 2
v0 page 66: ro slot 3 5 3 64
v0 more-and-set: 7 2
v0 page 63: none
v0 more-and-set: 35 2
v0 page 67: none
v0 more-and-set: 35 2
";

/// How many rows of the table come out as they stand there.
pub fn rows(alloc: Global) -> usize {
    let mut acts = Searches { more: 0 };
    all_that_come(alloc, HEAD, &mut acts, TABLE)
}
