ghost use Rattle.std.specs.Prelude.{◌≡◌, ◌≤◌, ◌<◌, ◌/◌, ◌%◌};
ghost use Rattle.part_steps.specs.PartTasks.{entry_index};
ghost use Rattle.spte_words.specs.Entries.{level_span};

use spte_words::{ENTRIES, Spte};

/// The span of entries of the level that the guest frame is in.
pub fn span_of(gfn: u64, level: u8) -> u64
    requires from { 1 ≤ level }
    requires to { level ≤ 4 }
    ensures { result ≡ gfn / level_span level }
{
    gfn / Spte::level_span(level)
}

/// The place of the guest frame's entry in a table of the level.
pub fn entry_index(gfn: u64, level: u8) -> u64
    requires from { 1 ≤ level }
    requires to { level ≤ 4 }
    ensures is { result ≡ entry_index gfn level }
    ensures below { result < 512 }
{
    span_of(gfn, level) % ENTRIES
}
