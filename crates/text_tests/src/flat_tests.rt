//! Lines that `Plain` answers and no trace has, worked out by hand: those of a migration, those of a host thread that the header
//! doesn't declare, runs of level 1, and clears with more words than they ask for. A case begins with a line that says how many
//! pages of two words and frames there are, in which mode dirty logs are taken, by its number, and from which pages on those of
//! each host thread are, as the header of a trace does. The rows after it are lines (`command.rt`). What a trace has is
//! `examples/cases/flat-answers.cases`.
use crate::command::{line_of, small};
use crate::rows::numbers;
use core_views::{Header, Lines, Trace, Words};
use flat_model::Plain;
use std::alloc::Global;

/// The header of a trace with these sizes, whose pages have two words.
pub fn header(pages: u64, frames: u64, manual: u8, hosts: Vec<u64>) -> Header {
    Header {
        version: 1,
        vcpus: 1,
        workers: 0,
        pages,
        frames,
        words: 2,
        pool: 64,
        cache: 64,
        manual,
        hosts: Words::from_vec(hosts),
    }
}

// The memory with which a case begins.
fn begun(alloc: Global, head: &str) -> Option<Plain> {
    let numbers = numbers(alloc, head).ok()?;
    let [pages, frames, manual, hosts @ ..] = numbers.as_slice() else {
        return None;
    };
    let hosts = hosts.to_vec(alloc).ok()?;
    let header = header(*pages, *frames, small(*manual), hosts);
    let trace = Trace::unscheduled(alloc, header, Lines::from_vec(Vec::new(alloc)));
    Plain::new(alloc, &trace).ok()
}

// Whether the row is answered so.
fn is_answered(alloc: Global, plain: &mut Plain, row: &str, wanted: &str) -> Option<bool> {
    let line = line_of(alloc, row)?;
    let answer = plain.line(alloc, &line).ok()?;
    let text = format!(in alloc; "{answer}").ok()?;
    Some(text.as_str() == wanted)
}

// How many rows of a case are answered as they stand there, one after another.
fn rows_answered(alloc: Global, case: &str) -> usize {
    let (head, rows) = case.split_once('\n').unwrap_or((case, ""));
    let Some(mut plain) = begun(alloc, head) else {
        return 0;
    };
    let mut count = 0usize;
    for row in rows.split('\n') {
        if let Some((row, wanted)) = row.split_once(": ") {
            if is_answered(alloc, &mut plain, row, wanted) != Some(true) {
                return count;
            }
            count = count.saturating_add(1);
        }
    }
    count
}

/// How many rows of the table are answered as they stand there, in each case up to the first that isn't.
pub fn all_answered(alloc: Global, table: &str) -> usize {
    let mut count = 0usize;
    for case in table.split("--\n") {
        count = count.saturating_add(rows_answered(alloc, case));
    }
    count
}

// A host thread changes its own pages alone: here h0 owns pages 0 to 511, and h1 pages 512 to 1023.
//
// Frames 2048 to 2559 are free at first. A page that was moved, or isn't present, or allows less than the others, is in no large
// one. A large page can be read and written as a small one.
//
// The run at page 256 of h0 has pages of h1, and page 255 is none of h1's.
pub const HOSTS: &str = "\
pages 1024 frames 1040 manual 0 hosts 0 512
slot 0 0 16 0: done
move 512 by 0: refused out-of-range
evict 511 by 1: refused out-of-range
protect 1024 by 1: refused out-of-range
allow 0xffffffffffffffff by 1: refused out-of-range
move 0 by 2: refused out-of-range
move 511 by 0: frame 1024
move 512 by 1: frame 511
--
pages 2048 frames 2560 manual 0 hosts 0
slot 0 0 16 512: done
write 9 0 7: frame 521 value 0
huge 512 2 by 0: done
huge 1023 2 by 0: refused is-huge
huge 768 2 by 0: refused is-huge
read 9 0: frame 521 value 7
write 9 0 8: frame 521 value 7
evict 1023 by 0: refused is-huge
protect 521 by 0: refused is-huge
allow 512 by 0: refused is-huge
move 1024 by 0: frame 2048
small 1023 by 0: done
small 1023 by 0: done
protect 521 by 0: done
huge 512 2 by 0: refused not-aligned
write 9 0 9: hostfault
allow 521 by 0: done
huge 512 2 by 0: done
small 512 by 0: done
evict 520 by 0: done
huge 512 2 by 0: refused not-aligned
read 8 0: frame 520 value 0
huge 512 2 by 0: done
huge 1536 2 by 0: done
huge 1025 1 by 0: done
move 1025 by 0: frame 1024
--
pages 2048 frames 2560 manual 0 hosts 0 512
slot 0 0 16 0: done
huge 256 2 by 0: refused out-of-range
huge 255 1 by 1: refused out-of-range
huge 0 2 by 1: refused out-of-range
huge 512 2 by 1: done
small 512 by 0: refused out-of-range
huge 0 2 by 0: done
small 511 by 0: done
move 511 by 0: frame 2048
move 512 by 1: refused is-huge
huge 0 2 by 2: refused out-of-range
";

// A write or an add makes its page dirty, if its slot has a log, and a get takes out what it
// reads. A log that is taken away is forgotten. A protected page is not written, and one of a
// read-only slot isn't either.
//
// A slot with a log is not moved or deleted, and keeps its log where it is set again. The pages to be
// cleared begin within a word, end within one before the slot's end, or reach past it.
//
// A get only looks, and a clear takes out those of its pages whose bits are set. Bits past the
// count are ignored.
//
// Each page of a new log is dirty, and those of another slot's aren't.
//
// The same of a log of two words: bit 0 of the second one is of page 64, and its last one of page 99.
pub const LOGS: &str = "\
pages 1024 frames 1040 manual 0 hosts 0
slot 0 0 16 0: done
slot 1 32 16 64 ro: done
write 3 0 1: frame 3 value 0
log 0 on: done
write 1 0 7: frame 1 value 0
add 9 1 1: frame 9 value 0
write 9 0 2: frame 9 value 0
read 4 0: frame 4 value 0
get 0: bits 0x202
get 0: bits 0x0
write 15 0 1: frame 15 value 0
write 0 0 1: frame 0 value 0
clear 0 0 16 0x8000 0: bits 0x8000
get 0: bits 0x1
protect 2 by 0: done
write 2 0 1: hostfault
log 1 on: done
write 32 0 1: mmio
get 1: bits 0x0
write 5 0 1: frame 5 value 0
log 0 off: done
log 0 on: done
get 0: bits 0x0
--
pages 1024 frames 1040 manual 0 hosts 0
log 0 on: refused missing
log 32 off: refused missing
get 0: refused missing
clear 0 1 1 0 0: refused missing
slot 0 0 16 0: done
log 0 off: refused no-log
get 0: refused no-log
clear 0 1 1 0 0: refused no-log
log 0 on: done
log 0 on: refused logged
write 6 0 1: frame 6 value 0
delete 0: refused logged
slot 0 16 16 0: refused logged
slot 0 0 16 0: done
clear 0 1 15 0 0: refused bad-range
clear 0 0 15 0 0: refused bad-range
clear 0 0 64 0 0: refused bad-range
clear 0 64 0 0 0: refused bad-range
clear 0 0 0xffffffffffffffff 0 0: refused bad-range
clear 0 0xffffffffffffffc0 64 0 0: refused bad-range
clear 0 0 0 0x40 0: bits
get 0: bits 0x40
log 0 off: done
slot 0 16 16 0: done
log 0 on: done
get 0: bits 0x0
log 0 off: done
delete 0: done
--
pages 1024 frames 1040 manual 1 hosts 0
slot 0 0 16 0: done
log 0 on: done
get 0: bits 0x0
write 1 0 7: frame 1 value 0
write 9 0 7: frame 9 value 0
get 0: bits 0x202
get 0: bits 0x202
clear 0 0 16 0xf0002 0xffffffffffffffff: bits 0x2
get 0: bits 0x200
add 1 0 1: frame 1 value 7
get 0: bits 0x202
clear 0 0 16 0xffff 0: bits 0x202
get 0: bits 0x0
--
pages 1024 frames 1040 manual 2 hosts 0
slot 0 0 16 0: done
slot 1 16 16 64: done
log 0 on: done
get 0: bits 0xffff
clear 0 0 16 0xff 0: bits 0xff
get 0: bits 0xff00
write 3 0 1: frame 3 value 0
get 0: bits 0xff08
get 1: refused no-log
log 1 on: done
clear 1 0 16 0x1 0: bits 0x1
get 1: bits 0xfffe
log 0 off: done
get 1: bits 0xfffe
log 0 on: done
get 0: bits 0xffff
--
pages 1024 frames 1040 manual 2 hosts 0
slot 3 1000 100 0: done
log 3 on: done
get 3: bits 0xffffffffffffffff 0xfffffffff
clear 3 64 36 0x800000001 0: bits 0x800000001
get 3: bits 0xffffffffffffffff 0x7fffffffe
clear 3 0 64 0xfffffffffffffffe 0xffffffffffffffff: bits 0xfffffffffffffffe
get 3: bits 0x1 0x7fffffffe
write 1099 0 1: frame 99 value 0
clear 3 0 100 0x3 0x800000003: bits 0x1 0x800000002
get 3: bits 0x0 0x7fffffffc
";

// All pages are copied first, and then those that were written since. An access in the pause is not made.
//
// Slots, their logs and reading these are barred while a migration goes on, and a round and its end without one.
//
// A page that moves, or is evicted, isn't copied again: its content stays. In the pause host threads go on.
pub const MIGRATIONS: &str = "\
pages 1024 frames 1040 manual 0 hosts 0
slot 0 0 16 0: done
log 0 on: done
write 2 0 7: frame 2 value 0
start: done
round: copied 16
add 2 0 5: frame 2 value 7
round: copied 1
finish: image 0:2:0=12
read 2 0: paused
resume: done
read 2 0: frame 2 value 12
--
pages 1024 frames 1040 manual 0 hosts 0
slot 0 0 16 0: done
get 0: refused no-log
round: refused not-started
start: refused not-logged
get 5: refused missing
log 0 on: done
log 0 on: refused logged
slot 0 32 16 0: refused logged
start: done
get 0: refused migrating
finish: image
resume: done
log 0 off: done
clear 0 0 16 0x1: refused no-log
--
pages 1024 frames 1040 manual 0 hosts 0
slot 0 0 16 0: done
log 0 on: done
start: done
write 3 1 9: frame 3 value 0
round: copied 16
move 3 by 0: frame 1024
evict 5 by 0: done
write 3 0 4: frame 1024 value 0
round: copied 1
write 5 1 8: frame 5 value 0
finish: image 0:3:0=4 0:3:1=9 0:5:1=8
read 3 0: paused
evict 6 by 0: done
finish: refused not-started
resume: done
resume: refused not-started
read 3 1: frame 1024 value 9
";
