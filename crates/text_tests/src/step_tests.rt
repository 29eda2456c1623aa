//! The lines of steps.
use core_views::{Actor, Answer, LogMode, Refusal, Sizes};
use spte_words::{Area, WordMap};
use std::alloc::Global;
use step_text::{Ending, Row, WordPlace, place_of, push_row};

// Two virtual processors, a host thread, the manager and a worker; two words a frame.
const SIZES: Sizes = Sizes {
    pages: 64,
    frames: 80,
    words: 2,
    pool: 64,
    cache: 8,
    vcpus: 2,
    hosts: 1,
    workers: 1,
    mode: LogMode::Automatic,
    first_pages: [0, 64, 64, 64],
};

/// A turn of v0: its kind of step, which word of the area it is on, the role of the page that this is in, and what it found and
/// left there. Then the line of the turn with which its line goes on.
pub type Turn = (u8, Area, u32, u64, u64, u64, &'static str);

fn row(turn: &Turn) -> Row {
    let (code, area, index, role, found, left, _) = *turn;
    Row {
        first: 1,
        count: 1,
        actor: Actor::Vcpu(0),
        code,
        place: WordPlace { area, index },
        role,
        found,
        left,
    }
}

// Whether this is the line of a turn that ends so, without its end.
fn is_line(alloc: Global, row: &Row, ending: &Ending<'_>, wanted: &str) -> bool {
    let mut text = String::new(alloc);
    match push_row(&mut text, &SIZES, row, ending) {
        Ok(()) => text.strip_suffix('\n') == Some(wanted),
        Err(_) => false,
    }
}

/// Whether the turns have these lines.
pub fn are_told(alloc: Global, turns: &[Turn]) -> bool {
    for turn in turns {
        let (.., wanted) = *turn;
        if !is_line(alloc, &row(turn), &Ending::GoesOn, wanted) {
            return false;
        }
    }
    true
}

/// Entries, told by the role of their page.
pub const ENTRIES: [Turn; 11] = [
    (
        3,
        Area::Pool,
        0,
        4,
        0x4807,
        0x4807,
        "1 v0 walk pool[0][0] 0x4807 (link 4)",
    ),
    (
        3,
        Area::Pool,
        1553,
        3,
        0,
        0,
        "1 v0 walk pool[3][17] 0x0 (absent)",
    ),
    (
        3,
        Area::Pool,
        511,
        2,
        0x5a0,
        0x5a0,
        "1 v0 walk pool[0][511] 0x5a0 (frozen)",
    ),
    (
        3,
        Area::Pool,
        1029,
        1,
        0x600000000005807,
        0x600000000005807,
        "1 v0 walk pool[2][5] 0x600000000005807 (leaf frame 5 rw)",
    ),
    (
        3,
        Area::Pool,
        1030,
        1,
        0x600000000005805,
        0x600000000005805,
        "1 v0 walk pool[2][6] 0x600000000005805 (leaf frame 5 ro)",
    ),
    (
        3,
        Area::Pool,
        1031,
        2,
        0x600000000200887,
        0x600000000200887,
        "1 v0 walk pool[2][7] 0x600000000200887 (leaf frame 512 rw)",
    ),
    (
        13,
        Area::Pool,
        1553,
        3,
        0,
        0x4807,
        "1 v0 swap pool[3][17] 0x0 (absent) -> 0x4807 (link 4)",
    ),
    (
        23,
        Area::Pool,
        1029,
        1,
        0x600000000005807,
        0,
        "1 v0 zap pool[2][5] 0x600000000005807 (leaf frame 5 rw) -> 0x0 (absent)",
    ),
    (
        10,
        Area::Pool,
        515,
        5,
        0x1000,
        0x1000,
        "1 v0 slot pool[1][3] 0x1000",
    ),
    (
        20,
        Area::Pool,
        515,
        0,
        0,
        0x4807,
        "1 v0 fill pool[1][3] 0x0 -> 0x4807",
    ),
    (
        20,
        Area::Pool,
        515,
        6,
        0x4807,
        0,
        "1 v0 fill pool[1][3] 0x4807 -> 0x0",
    ),
];

/// Host words and state words.
pub const STATES: [Turn; 10] = [
    (
        11,
        Area::Host,
        5,
        0,
        0x5007,
        0x5007,
        "1 v0 host host[5] 0x5007 (frame 5 rw)",
    ),
    (
        12,
        Area::Host,
        5,
        0,
        0x5006,
        0x5007,
        "1 v0 bring host[5] 0x5006 (absent frame 5 rw) -> 0x5007 (frame 5 rw)",
    ),
    (
        26,
        Area::Host,
        6,
        0,
        0x6007,
        0x6005,
        "1 v0 change host[6] 0x6007 (frame 6 rw) -> 0x6005 (frame 6 ro)",
    ),
    (
        26,
        Area::Host,
        6,
        0,
        0x6005,
        0x6004,
        "1 v0 change host[6] 0x6005 (frame 6 ro) -> 0x6004 (absent frame 6 ro)",
    ),
    (
        1,
        Area::State,
        0,
        0,
        0,
        3,
        "1 v0 enter state[v0] 0x0 (outside) -> 0x3 (in guest)",
    ),
    (
        7,
        Area::State,
        1,
        0,
        0,
        2,
        "1 v0 begin state[v1] 0x0 (outside) -> 0x2 (in section)",
    ),
    (
        24,
        Area::State,
        1,
        0,
        3,
        7,
        "1 v0 ask state[v1] 0x3 (in guest) -> 0x7 (in guest, flush asked)",
    ),
    (
        31,
        Area::State,
        2,
        0,
        6,
        6,
        "1 v0 watch state[h0] 0x6 (in section, flush asked)",
    ),
    (
        31,
        Area::State,
        3,
        0,
        4,
        4,
        "1 v0 watch state[vm] 0x4 (outside, flush asked)",
    ),
    (
        31,
        Area::State,
        4,
        0,
        1,
        1,
        "1 v0 watch state[w0] 0x1 (in guest)",
    ),
];

/// Other words, told by their number.
pub const OTHERS: [Turn; 13] = [
    (9, Area::Root, 0, 0, 0, 0, "1 v0 control root 0x0"),
    (30, Area::Slots, 0, 0, 1, 2, "1 v0 publish slots 0x1 -> 0x2"),
    (22, Area::Seq, 0, 0, 9, 10, "1 v0 set seq 0x9 -> 0xa"),
    (22, Area::Count, 0, 0, 0, 1, "1 v0 set count 0x0 -> 0x1"),
    (
        22,
        Area::RangeStart,
        0,
        0,
        0,
        16,
        "1 v0 set rangestart 0x0 -> 0x10",
    ),
    (
        22,
        Area::RangeEnd,
        0,
        0,
        0,
        32,
        "1 v0 set rangeend 0x0 -> 0x20",
    ),
    (
        17,
        Area::Lock,
        0,
        0,
        0,
        0x8000000000000000,
        "1 v0 exclude lock 0x0 -> 0x8000000000000000",
    ),
    (9, Area::Pause, 0, 0, 0, 0, "1 v0 control pause 0x0"),
    (
        19,
        Area::PoolMap,
        0,
        0,
        0xffffffffffffffff,
        0xfffffffffffffffe,
        "1 v0 claim poolmap[0] 0xffffffffffffffff -> 0xfffffffffffffffe",
    ),
    (
        28,
        Area::FrameMap,
        1,
        0,
        0xabcd,
        0xabcc,
        "1 v0 frame framemap[1] 0xabcd -> 0xabcc",
    ),
    (14, Area::Log, 0, 0, 0, 8, "1 v0 mark log[0] 0x0 -> 0x8"),
    (20, Area::Role, 3, 0, 0, 1, "1 v0 fill role[3] 0x0 -> 0x1"),
    (
        5,
        Area::Content,
        11,
        0,
        0,
        0xffffffffffffffff,
        "1 v0 write content[5][1] 0x0 -> 0xffffffffffffffff",
    ),
];

// How a turn of v0 on the lock is told that goes on or delays its line.
const DELAYS: [(Ending<'static>, &str); 5] = [
    (Ending::GoesOn, "1 v0 share lock 0x2 -> 0x3"),
    (Ending::Waits, "1 v0 share lock 0x2 -> 0x3 waits"),
    (
        Ending::Open {
            count: 1,
            start: 16,
            end: 32,
        },
        "1 v0 share lock 0x2 -> 0x3 begins anew (1 open over 16 to 32)",
    ),
    (
        Ending::Moved { old: 0, now: 1 },
        "1 v0 share lock 0x2 -> 0x3 begins anew (moved 0 to 1)",
    ),
    (
        Ending::Lost {
            place: WordPlace {
                area: Area::Pool,
                index: 0,
            },
            read: 0,
            seen: 0x803,
        },
        "1 v0 share lock 0x2 -> 0x3 begins anew (pool[0][0] held 0x0, holds 0x803)",
    ),
];

/// Whether the same turn is told so, for each way in which it ends.
pub fn tells_how_turns_end(alloc: Global) -> bool {
    let row = row(&(15, Area::Lock, 0, 0, 2, 3, ""));
    for (ending, wanted) in DELAYS {
        if !is_line(alloc, &row, &ending, wanted) {
            return false;
        }
    }
    let reached = Answer::Reached { frame: 1, value: 0 };
    let refused = Answer::Refused(Refusal::BadId);
    let answers = [
        (
            &reached,
            "1 v0 share lock 0x2 -> 0x3 answers frame 1 value 0",
        ),
        (&Answer::Done, "1 v0 share lock 0x2 -> 0x3 answers done"),
        (
            &refused,
            "1 v0 share lock 0x2 -> 0x3 answers refused bad-id",
        ),
    ];
    for (answer, wanted) in answers {
        if !is_line(alloc, &row, &Ending::Answers(answer), wanted) {
            return false;
        }
    }
    true
}

// So many fills of an actor, from a turn and a word on.
fn fills(first: u64, count: u32, actor: Actor, area: Area, index: u32, left: u64) -> Row {
    Row {
        first,
        count,
        actor,
        code: 20,
        place: WordPlace { area, index },
        role: 0,
        found: 0,
        left,
    }
}

/// Whether fills are told as one line.
pub fn tells_fills(alloc: Global) -> bool {
    let rows = [
        (
            fills(21, 512, Actor::Vcpu(0), Area::Pool, 1024, 0),
            "21-532 v0 fill pool[2][0..511] 0x0",
        ),
        (
            fills(40, 2, Actor::Host(0), Area::Content, 10, 7),
            "40-41 h0 fill content[5][0..1] 0x0 -> 0x7",
        ),
        (
            fills(533, 1, Actor::Manager, Area::Pool, 1025, 1),
            "533 vm fill pool[2][1] 0x0 -> 0x1",
        ),
        (
            fills(u64::MAX, 2, Actor::Worker(0), Area::Pool, 32766, u64::MAX),
            "18446744073709551615-18446744073709551616 w0 fill pool[63][510..511] 0x0 -> 0xffffffffffffffff",
        ),
    ];
    for (row, wanted) in rows {
        if !is_line(alloc, &row, &Ending::GoesOn, wanted) {
            return false;
        }
    }
    true
}

/// Whether these words are found in their areas.
#[tactic(auto, unfolding(spte_words::specs::Areas::total))]
pub fn finds_places() -> bool {
    let places = [
        (0, Area::Root, 0),
        (7, Area::Pause, 0),
        (8, Area::State, 0),
        (12, Area::State, 4),
        (13, Area::PoolMap, 0),
        (47, Area::Host, 0),
        (33_902, Area::Pool, 32_767),
        (33_903, Area::Content, 0),
        (34_942, Area::Content, 1039),
    ];
    for (word, area, index) in places {
        let place = place_of(&WordMap::new(1024, 1040, 1, 64, 5), word % 34_943);
        if place.area != area || place.index != index {
            return false;
        }
    }
    true
}
