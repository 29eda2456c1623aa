ghost use Rattle.std.specs.Prelude.{◌≡◌, ◌*◌, ◌<◌, ℕ, All, IfOk};
ghost use Rattle.std.specs.List.{list_any};
ghost use Rattle.core_views.specs.Need.{count_below, is_counted, wants, need as need_of};
ghost use Rattle.trace_reader.specs.Ranges.{IsFrameRange, AreRising, EndBy, any_covers};

use core_views::{Command, Line, NoMemory, Slot, Trace};
use std::alloc::Global;

/// Guest frames from `base` up to `end`, which it leaves out.
#[derive(Clone, Copy, Drop)]
struct FrameRange {
    base: u64,
    end: u64,
}

/// Whether the slot counts on a machine of `pages` pages.
fn counts(pages: u64, slot: &Slot) -> bool
    ensures { result ≡ is_counted pages slot.now }
{
    let size = slot.pages;
    let frames = 1 << 36;
    1 <= size && size <= pages && size <= frames && slot.base <= frames - size
}

/// The ranges of the slots that count, in the order of their first frames.
fn ranges_of(alloc: Global, pages: u64, lines: &[Line]) -> Result<Vec<FrameRange>, NoMemory>
    ensures ranges { IfOk result (λ v. All IsFrameRange v.items) }
    ensures rising { IfOk result (λ v. AreRising v.items) }
    ensures same { IfOk result (λ v. (span index : ℕ) → any_covers span v.items index ≡ list_any (λ line. wants pages span index line.command) lines.now) }
{
    let mut ranges = Vec::new(alloc);
    for line in lines {
        if let Command::SetSlot { id: _, slot } = line.command {
            if counts(pages, &slot) {
                let base = slot.base;
                let end = base + slot.pages;
                ranges.push(FrameRange { base, end })?;
            }
        }
    }
    ranges.sort_unstable_by_key(|range| range.base);
    Ok(ranges)
}

/// How many tables of `span` frames the ranges need. It is one pass: `next` is
/// after the last table that it has counted.
fn tables(ranges: &[FrameRange], span: u64) -> u64
    requires span { 0 < span }
    requires ranges { All IsFrameRange ranges.now }
    requires rising { AreRising ranges.now }
    ensures { (n : ℕ) → EndBy (n * span) ranges.now → result ≡ count_below n (any_covers span ranges.now) }
{
    let mut count = 0;
    let mut next = 0;
    for range in ranges {
        let first = next.max(range.base / span);
        let end = (range.end - 1) / span + 1;
        if first < end {
            count += end - first;
            next = end;
        }
    }
    count
}

/// How many pool pages the trace needs at most: four, and one for each table
/// that the pages of its slots can ask for. A table covers 2^27, 2^18 or 2^9
/// guest frames. The time is that of sorting the lines.
pub fn need(alloc: Global, trace: &Trace) -> Result<u64, NoMemory>
    ensures { IfOk result (λ n. n ≡ need_of trace.now.header trace.now.lines) }
{
    let ranges = ranges_of(alloc, trace.header.pages, trace.lines.as_slice())?;
    let upper = tables(&ranges, 1 << 27);
    let middle = tables(&ranges, 1 << 18);
    let lower = tables(&ranges, 1 << 9);
    Ok(4 + upper + middle + lower)
}
