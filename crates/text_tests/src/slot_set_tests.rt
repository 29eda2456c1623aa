//! Sets of memory slots: what is set, moved, deleted, logged and refused, and the slot of a
//! guest frame.
use core_views::{MemorySlot, Refusal};
use hands::SlotSet;

// How many guest frames there are.
const FRAMES: u64 = 1 << 36;

const MAX: u64 = u64::MAX;

/// A set with slot 0, whose guest frames 0 to 15 are host pages 0 to 15.
pub fn first_slot() -> SlotSet {
    let mut set = SlotSet::empty();
    let _ = set.set(0, 0, 16, 0, false, 1024);
    set
}

/// A call of a set.
#[derive(Clone, Copy)]
pub enum Call {
    /// Sets a slot: its ID, first guest frame, pages, first host page, and whether it is read only.
    Set(u64, u64, u64, u64, bool),
    /// Deletes the slot with this ID.
    Delete(u64),
    /// Says whether the writes of the slot with this ID are logged.
    Log(u64, bool),
    /// Looks for the slot with this ID.
    Get(u64),
    /// Looks for the slot of this guest frame.
    SlotOf(u64),
    /// Asks whether this is the set with slot 0 alone.
    IsFirst,
    /// Asks whether this is the empty set.
    IsEmpty,
}

/// What comes of a call.
#[derive(Clone, Copy, PartialEq, Eq)]
pub enum Came {
    Done,
    Refused(Refusal),
    /// A slot that guest writes may reach: its ID, first guest frame, pages, first host page, and whether its writes are logged.
    Slot(u64, u64, u64, u64, bool),
    Nothing,
    Is(bool),
}

fn found(id: u64, found: &MemorySlot) -> Came {
    let slot = found.slot;
    if slot.read_only {
        Came::Nothing
    } else {
        Came::Slot(id, slot.base, slot.pages, slot.host, found.logged)
    }
}

// Makes this call, where there are so many host pages. A slot has a page at least: nothing comes of a call that sets one
// without.
fn made(set: &mut SlotSet, total: u64, call: Call) -> Came {
    let outcome = match call {
        Call::Set(id, base, pages, host, ro) => {
            if pages == 0 {
                return Came::Nothing;
            }
            set.set(id, base, pages, host, ro, total)
        }
        Call::Delete(id) => set.delete(id),
        Call::Log(id, on) => set.with_log(id, on),
        Call::Get(id) => {
            return match set.get(id) {
                Some(slot) => found(id, &slot),
                None => Came::Nothing,
            };
        }
        Call::SlotOf(gfn) => {
            return match set.slot_of(gfn) {
                Some((id, slot)) => found(id, &slot),
                None => Came::Nothing,
            };
        }
        Call::IsFirst => return Came::Is(*set == first_slot()),
        Call::IsEmpty => return Came::Is(*set == SlotSet::empty()),
    };
    match outcome {
        Ok(()) => Came::Done,
        Err(refusal) => Came::Refused(refusal),
    }
}

/// Whether what comes of these calls, each made after the one before it, is what stands here.
pub fn all_come(mut set: SlotSet, total: u64, calls: &[(Call, Came)]) -> bool {
    for (call, came) in calls {
        if made(&mut set, total, *call) != *came {
            return false;
        }
    }
    true
}

/// Of the empty set.
pub const EMPTY: [(Call, Came); 5] = [
    (Call::Get(0), Came::Nothing),
    (Call::Get(31), Came::Nothing),
    (Call::SlotOf(0), Came::Nothing),
    (Call::Delete(0), Came::Refused(Refusal::Missing)),
    (Call::Log(0, false), Came::Refused(Refusal::Missing)),
];

/// Refused slots, which change nothing.
pub const REFUSED: [(Call, Came); 10] = [
    (Call::Get(0), Came::Slot(0, 0, 16, 0, false)),
    (
        Call::Set(0, 0, 17, 0, false),
        Came::Refused(Refusal::Resize),
    ),
    (
        Call::Set(0, 0, 16, 64, false),
        Came::Refused(Refusal::Fixed),
    ),
    (Call::Set(0, 0, 16, 0, true), Came::Refused(Refusal::Fixed)),
    (
        Call::Set(1, 8, 16, 64, false),
        Came::Refused(Refusal::Overlap),
    ),
    (
        Call::Set(1, 100, 16, 0, false),
        Came::Refused(Refusal::HostOverlap),
    ),
    (
        Call::Set(1, 100, 2000, 0, false),
        Came::Refused(Refusal::TooLarge),
    ),
    (
        Call::Set(40, 100, 16, 64, false),
        Came::Refused(Refusal::BadId),
    ),
    (Call::Delete(1), Came::Refused(Refusal::Missing)),
    (Call::IsFirst, Came::Is(true)),
];

/// The first of several refusals is answered.
pub const FIRST_REFUSALS: [(Call, Came); 9] = [
    (Call::Set(1, 100, 16, 64, false), Came::Done),
    (
        Call::Set(32, FRAMES, 1, 0, false),
        Came::Refused(Refusal::BadId),
    ),
    (
        Call::Set(0, 0, 2000, 0, false),
        Came::Refused(Refusal::TooLarge),
    ),
    (
        Call::Set(0, 100, 17, 64, false),
        Came::Refused(Refusal::Resize),
    ),
    (
        Call::Set(0, 100, 16, 64, false),
        Came::Refused(Refusal::Fixed),
    ),
    (
        Call::Set(0, 100, 16, 0, false),
        Came::Refused(Refusal::Overlap),
    ),
    (Call::Log(0, true), Came::Done),
    (
        Call::Set(0, 100, 16, 0, false),
        Came::Refused(Refusal::Logged),
    ),
    (
        Call::Set(2, 8, 16, 8, false),
        Came::Refused(Refusal::Overlap),
    ),
];

/// A slot keeps its dirty log until this is taken away.
pub const LOGGED: [(Call, Came); 9] = [
    (Call::Log(0, false), Came::Refused(Refusal::NoLog)),
    (Call::Log(0, true), Came::Done),
    (Call::Log(0, true), Came::Refused(Refusal::Logged)),
    (Call::Set(0, 0, 16, 0, false), Came::Done),
    (Call::Get(0), Came::Slot(0, 0, 16, 0, true)),
    (Call::Delete(0), Came::Refused(Refusal::Logged)),
    (Call::Get(0), Came::Slot(0, 0, 16, 0, true)),
    (Call::Log(0, false), Came::Done),
    (Call::IsFirst, Came::Is(true)),
];

/// A slot moves, is deleted, and another one is set on its pages.
pub const MOVES: [(Call, Came); 8] = [
    (Call::Set(0, 8, 16, 0, false), Came::Done),
    (Call::SlotOf(7), Came::Nothing),
    (Call::SlotOf(8), Came::Slot(0, 8, 16, 0, false)),
    (Call::Delete(0), Came::Done),
    (Call::SlotOf(8), Came::Nothing),
    (Call::IsEmpty, Came::Is(true)),
    (Call::Set(1, 8, 16, 8, true), Came::Done),
    (Call::Get(0), Came::Nothing),
];

/// The slot of a guest frame is found.
pub const FOUND: [(Call, Came); 8] = [
    (Call::Set(7, 16, 16, 64, false), Came::Done),
    (Call::Set(2, 32, 16, 16, false), Came::Done),
    (Call::SlotOf(0), Came::Slot(0, 0, 16, 0, false)),
    (Call::SlotOf(15), Came::Slot(0, 0, 16, 0, false)),
    (Call::SlotOf(16), Came::Slot(7, 16, 16, 64, false)),
    (Call::SlotOf(31), Came::Slot(7, 16, 16, 64, false)),
    (Call::SlotOf(32), Came::Slot(2, 32, 16, 16, false)),
    (Call::SlotOf(48), Came::Nothing),
];

/// The last slot is set at the last guest frame and host page.
pub const LAST: [(Call, Came); 7] = [
    (
        Call::Set(31, FRAMES, 1, 1023, false),
        Came::Refused(Refusal::TooLarge),
    ),
    (
        Call::Set(31, FRAMES - 1, 2, 64, false),
        Came::Refused(Refusal::TooLarge),
    ),
    (
        Call::Set(31, FRAMES - 1, 1, 1024, false),
        Came::Refused(Refusal::TooLarge),
    ),
    (Call::Set(31, FRAMES - 1, 1, 1023, false), Came::Done),
    (
        Call::Set(32, 100, 1, 64, false),
        Came::Refused(Refusal::BadId),
    ),
    (Call::Delete(32), Came::Refused(Refusal::BadId)),
    (
        Call::SlotOf(FRAMES - 1),
        Came::Slot(31, FRAMES - 1, 1, 1023, false),
    ),
];

/// Numbers up to the greatest, where there are as many host pages.
pub const LARGE: [(Call, Came); 9] = [
    (
        Call::Set(1, MAX, MAX, MAX, true),
        Came::Refused(Refusal::TooLarge),
    ),
    (
        Call::Set(1, 100, 1, MAX, false),
        Came::Refused(Refusal::TooLarge),
    ),
    (Call::Set(1, 100, 1, MAX - 1, false), Came::Done),
    (
        Call::Set(2, 200, 2, MAX - 2, false),
        Came::Refused(Refusal::HostOverlap),
    ),
    (
        Call::Set(MAX, 200, 1, 64, false),
        Came::Refused(Refusal::BadId),
    ),
    (Call::Delete(MAX), Came::Refused(Refusal::BadId)),
    (Call::Log(MAX, true), Came::Refused(Refusal::Missing)),
    (Call::Get(MAX), Came::Nothing),
    (Call::SlotOf(MAX), Came::Nothing),
];

// Refusals and their names.
const NAMES: [(Refusal, &str); 9] = [
    (Refusal::Missing, "missing"),
    (Refusal::Logged, "logged"),
    (Refusal::NoLog, "no-log"),
    (Refusal::Resize, "resize"),
    (Refusal::Fixed, "fixed"),
    (Refusal::Overlap, "overlap"),
    (Refusal::HostOverlap, "host-overlap"),
    (Refusal::IsHuge, "is-huge"),
    (Refusal::NotAligned, "not-aligned"),
];

/// Whether these are the names of refusals.
pub fn names_each_refusal() -> bool {
    for (refusal, name) in NAMES {
        if refusal.name() != name {
            return false;
        }
    }
    true
}
