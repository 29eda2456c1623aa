//! The lock on a machine whose actors have no lines.
use crate::untold::{UntoldSeat, exclusive_untold};
use crate::{Acts, Came, HEAD, all_that_come};
use core_views::{Actor, Hold};
use mmu_lock::{Lock, try_exclusive, try_shared, unlock};
use part_steps::PartStep;
use std::alloc::Global;
use step_seats::{PlainMachine, Stepper, Turn, WRITER, allows};

// What a try for the lock came to: the word that it found, where others have it.
fn tried(lock: Lock) -> Came {
    match lock {
        Lock::Got => Came::only("got"),
        Lock::Held(word) if word >= WRITER => Came::one("held writer +", word - WRITER),
        Lock::Held(word) => Came::one("held", word),
    }
}

fn shared_turn(turn: &Turn<Lock>) -> Came {
    match turn {
        Turn::Done(lock) => tried(*lock),
        _ => Came::turn(turn),
    }
}

// A turn of a reader's try, where the hand allows its step.
fn share<S: Stepper>(s: &mut S) -> Came {
    if s.reserve().is_err() {
        return Came::no_memory();
    }
    match s.hand().topics().hold {
        Hold::Loose => {
            if allows(s.hand(), PartStep::Share, 0) {
                return shared_turn(&try_shared(s, 0));
            }
        }
        Hold::Owing(_) => {
            if allows(s.hand(), PartStep::Unshare, 0) {
                return shared_turn(&try_shared(s, 0));
            }
        }
        Hold::Shared | Hold::Exclusive => {}
    }
    Came::not_allowed()
}

// A writer's try, where the hand allows its step.
fn exclude<S: Stepper>(s: &mut S) -> Came {
    if s.reserve().is_err() {
        return Came::no_memory();
    }
    if !allows(s.hand(), PartStep::Exclude, 0) {
        return Came::not_allowed();
    }
    tried(try_exclusive(s, 0))
}

// Gives the lock back, where it is held.
fn give_back<S: Stepper>(s: &mut S) -> Came {
    if s.reserve().is_err() {
        return Came::no_memory();
    }
    match s.hand().topics().hold {
        Hold::Shared => {
            if allows(s.hand(), PartStep::Unshare, 0) {
                unlock(s, 0);
                return Came::only("given back");
            }
        }
        Hold::Exclusive => {
            if allows(s.hand(), PartStep::Release, 0) {
                unlock(s, 0);
                return Came::only("given back");
            }
        }
        Hold::Loose | Hold::Owing(_) => {}
    }
    Came::not_allowed()
}

// A writer's try through a seat that tells no world, where the hand allows it.
fn exclude_untold(s: &mut UntoldSeat<'_>) -> Came {
    if s.reserve().is_err() {
        return Came::no_memory();
    }
    if !allows(s.hand(), PartStep::Exclude, 0) {
        return Came::not_allowed();
    }
    tried(exclusive_untold(s))
}

// `share`: the next turn of a reader's try. `exclude`: a writer's try. `give-back`. A try that finds others in the
// lock's word says so: its bit 63 is a writer.
#[derive(Drop)]
struct Locks;

impl Acts for Locks {
    fn act(&mut self, machine: &mut PlainMachine, actor: Actor, word: &str, _number: u64) -> Came {
        let mut seat = machine.as_actor(actor);
        match word {
            "share" => share(&mut seat),
            "exclude" => exclude(&mut seat),
            "give-back" => give_back(&mut seat),
            _ => Came::unknown(),
        }
    }
}

// `share` and `exclude` through a seat that tells no world.
#[derive(Drop)]
struct UntoldLocks;

impl Acts for UntoldLocks {
    fn act(&mut self, machine: &mut PlainMachine, actor: Actor, word: &str, _number: u64) -> Came {
        let mut seat = UntoldSeat {
            seat: machine.as_actor(actor),
        };
        match word {
            "share" => share(&mut seat),
            "exclude" => exclude_untold(&mut seat),
            _ => Came::unknown(),
        }
    }
}

// Two readers share the lock, and a writer finds both of them. The lock's word is word 6.
const TABLE: &str = "\
==
v0 share: got
v1 share: got
vm exclude: held 2
v0 give-back: given back
vm exclude: held 1
v1 give-back: given back
vm exclude: got
machine word 6: 0x8000000000000000
--
==
// A reader that finds a writer takes itself out again, and answers what it found.
vm exclude: got
v0 share: more
v1 share: more
v0 share: held writer + 0
vm give-back: given back
vm exclude: held 1
// It added itself after the other reader.
v1 share: held writer + 1
vm exclude: got
";

/// How many rows of the table come out as they stand there.
pub fn rows(alloc: Global) -> usize {
    all_that_come(alloc, HEAD, &mut Locks, TABLE)
}

// The parts do the same at a seat that tells no world. The last writer comes after the reader has added itself.
const UNTOLD: &str = "\
==
v0 exclude: got
v1 exclude: held writer + 0
v1 share: more
vm exclude: held writer + 1
";

/// The same of a table of acts through seats that tell no world.
pub fn untold_rows(alloc: Global) -> usize {
    all_that_come(alloc, HEAD, &mut UntoldLocks, UNTOLD)
}
