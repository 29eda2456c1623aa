//! Which runs of guest frames one leaf may map.
ghost use Rattle.std.specs.Prelude.{◌≡◌, ◌≤◌, ◌<◌, ◌^◌};
ghost use Rattle.part_steps.specs.RunHoldings.{has_run, maps_run};

use crate::part_step::word_looked;
use core_views::{Slot, Topics};
use spte_words::{HostWord, Spte};

// Whether the slot has all frames of the guest frame's run, and the guest frame is as far from the
// first of its run as its page is from the first of the page's.
#[tactic(auto, using(spte_words::proofs::Spans::in_span))]
fn has_run(level: u8, gfn: u64, slot: &Slot) -> bool
    requires from { 1 ≤ level }
    requires to { level ≤ 4 }
    requires small { gfn < 2 ^ 36 }
    ensures { result ≡ has_run level gfn slot.now }
{
    let span = Spte::level_span(level);
    let first = gfn - gfn % span;
    slot.base <= first
        && first - slot.base + span <= slot.pages
        && (slot.host % span + (gfn - slot.base)) % span == gfn % span
}

/// Whether a leaf of the level may map the guest frame's run: it is one of a single page; or else
/// the host maps the pages of the run as one, and the slot that was found has the run whole and no
/// dirty log.
pub fn maps_run(level: u8, gfn: u64, topics: &Topics) -> bool
    requires from { 1 ≤ level }
    requires to { level ≤ 4 }
    requires small { gfn < 2 ^ 36 }
    ensures { result ≡ maps_run level gfn topics.now }
{
    let host = HostWord::from_word(word_looked(topics.host));
    level <= 1
        || level <= host.level()
            && !topics.search.logged
            && has_run(level, gfn, &topics.search.slot)
}
