//! What lines ask of the dirty logs of slots, and which logs they may read, worked out by hand. The rows of
//! the table are
//!
//! - `get ID`, `delete ID` and `clear ID FIRST COUNT`, with words whose bits are set;
//! - what comes of it: why the line may not read the log; or the page that bit 0 is of, how many bits there
//!   are, the bits of the first three words that it asks for, how many of the pages 0 to 255 those are, the
//!   last of them, and how many words it reads of any log at most.

use crate::command::line_of;
use crate::rows::numbers;
use core_views::{Command, LogMode, Sizes, Slot};
use hands::SlotSet;
use std::alloc::Global;

// A set of five slots, of 100, 64, 127, 64 pages and one page: all but slot 1 have a dirty log.
fn five_slots() -> SlotSet {
    let mut set = SlotSet::empty();
    let _ = set.set(0, 1000, 100, 0, false, 1024);
    let _ = set.set(1, 2000, 64, 128, false, 1024);
    let _ = set.set(2, 3000, 127, 192, false, 1024);
    let _ = set.set(3, 4000, 64, 320, false, 1024);
    let _ = set.set(4, 5000, 1, 384, false, 1024);
    let _ = set.with_log(0, true);
    let _ = set.with_log(2, true);
    let _ = set.with_log(3, true);
    let _ = set.with_log(4, true);
    set
}

// The sizes of a machine of 1024 host pages.
const SIZES: Sizes = Sizes {
    pages: 1024,
    frames: 1040,
    words: 2,
    pool: 64,
    cache: 64,
    vcpus: 1,
    hosts: 1,
    workers: 0,
    mode: LogMode::Manual,
    first_pages: [0, 1024, 1024, 1024],
};

// What the line asks for of the log of this slot, and how many of the pages 0 to 255, of which the last is 0 where there is none.
fn asked(line: &Command, slot: &Slot) -> [u64; 8] {
    let mut count = 0u64;
    let mut last = 0;
    for page in 0..256u64 {
        if line.asks_for(page) {
            count = count.saturating_add(1);
            last = page;
        }
    }
    [
        line.first_asked(),
        line.count_asked(slot),
        line.mask_asked(slot, 0),
        line.mask_asked(slot, 1),
        line.mask_asked(slot, 2),
        count,
        last,
        SIZES.most_words(line) as u64,
    ]
}

// Whether this comes of the row: the line's numbers, or why it may not read the log.
fn comes(alloc: Global, row: &str, wanted: &str) -> Option<bool> {
    let line = line_of(alloc, row)?.command;
    let numbers = numbers(alloc, wanted).ok()?;
    let Some(id) = line.log_read() else {
        return Some(numbers.as_slice() == [SIZES.most_words(&line) as u64].as_slice());
    };
    Some(match five_slots().to_read(&line, id) {
        Ok(found) => numbers.as_slice() == asked(&line, &found.slot).as_slice(),
        Err(refusal) => refusal.name() == wanted,
    })
}

/// How many rows come out as they stand there, one after another.
pub fn rows_that_come(alloc: Global, table: &str) -> usize {
    let mut count = 0usize;
    for row in table.split('\n') {
        if let Some((case, wanted)) = row.split_once(": ") {
            if comes(alloc, case, wanted) != Some(true) {
                return count;
            }
            count = count.saturating_add(1);
        }
    }
    count
}

// A get asks for each page. Of bits 35 and 36 the first is that of the last page of slot 0; bits from the count
// on count for nothing, and a word that isn't given has no bit set.
pub const ASKS: &str = "\
get 0: from 0 100 bits 0xffffffffffffffff 0xfffffffff 0x0 pages 256 last 255 most 17
get 2: from 0 127 bits 0xffffffffffffffff 0x7fffffffffffffff 0x0 pages 256 last 255 most 17
get 3: from 0 64 bits 0xffffffffffffffff 0x0 0x0 pages 256 last 255 most 17
get 4: from 0 1 bits 0x1 0x0 0x0 pages 256 last 255 most 17
clear 0 64 36 0x1800000000: from 64 36 bits 0x800000000 0x0 0x0 pages 1 last 99 most 1
clear 0 64 36 0x1000000000: from 64 36 bits 0x0 0x0 0x0 pages 0 last 0 most 1
clear 0 0 100 0xffffffffffffffff 0xffffffffffffffff: from 0 100 bits 0xffffffffffffffff 0xfffffffff 0x0 pages 100 last 99 most 2
clear 0 0 100 5: from 0 100 bits 0x5 0x0 0x0 pages 2 last 2 most 2
clear 0 0 64 0xffffffffffffffff 0xffffffffffffffff: from 0 64 bits 0xffffffffffffffff 0x0 0x0 pages 64 last 63 most 2
clear 0 64 36: from 64 36 bits 0x0 0x0 0x0 pages 0 last 0 most 1
clear 0 64 0 0xffffffffffffffff: from 64 0 bits 0x0 0x0 0x0 pages 0 last 0 most 1
clear 2 64 63 0xffffffffffffffff: from 64 63 bits 0x7fffffffffffffff 0x0 0x0 pages 63 last 126 most 1
clear 2 0 127 0 2: from 0 127 bits 0x0 0x2 0x0 pages 1 last 65 most 2
clear 4 0 1 0xffffffffffffffff: from 0 1 bits 0x1 0x0 0x0 pages 1 last 0 most 1
delete 0: reads none most 0
";

// No slot has the ID; else the slot has no log; else the range begins within a word, ends within one before the
// slot's end, or reaches past the slot, as where its end is 0 or 100 modulo 2^64.
pub const REFUSED: &str = "\
get 5: missing
get 32: missing
get 0xffffffffffffffff: missing
clear 5 32 64: missing
get 1: no-log
clear 1 32 64: no-log
clear 0 32 64: bad-range
clear 0 32 68: bad-range
clear 0 0 36: bad-range
clear 0 0 99: bad-range
clear 0 64 35: bad-range
clear 0 64 37: bad-range
clear 0 64 128: bad-range
clear 0 0 128: bad-range
clear 0 128 0: bad-range
clear 0 0xffffffffffffffc0 64: bad-range
clear 0 0xffffffffffffffc0 164: bad-range
clear 0 64 0xffffffffffffffc0: bad-range
";

// Whether the line takes out what it reads, where logs are automatic, manual, and manual with all set.
fn takes_out(line: &Command) -> (bool, bool, bool) {
    (
        line.takes_out(LogMode::Automatic),
        line.takes_out(LogMode::Manual),
        line.takes_out(LogMode::ManualAllSet),
    )
}

/// Whether a get and a clear are such lines. Words above all of a log have none of its bits, as where 64 times their number is 0
/// or 64 modulo 2^64.
pub fn takes_out_by_the_mode(alloc: Global) -> bool {
    let (Some(get), Some(clear)) = (line_of(alloc, "get 0"), line_of(alloc, "clear 0 0 64")) else {
        return false;
    };
    let Some(found) = five_slots().get(0) else {
        return false;
    };
    let far = get.command.mask_asked(&found.slot, 1 << 58);
    let farther = get.command.mask_asked(&found.slot, (1 << 58) + 1);
    let get = takes_out(&get.command) == (true, false, false);
    get && takes_out(&clear.command) == (true, true, true) && far == 0 && farther == 0
}
