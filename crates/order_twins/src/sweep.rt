//! The steps of a sweep over guest frames, which several kinds of line make in the same order.
ghost use Rattle.std.specs.Prelude.{◌≡◌, ◌≤◌, ◌<◌, ◌^◌};
ghost use Rattle.part_steps.specs.PartHoldings.{IsOver, SawEntry};
ghost use Rattle.part_steps.specs.PartTasks.{entry_index};
ghost use Rattle.part_steps.specs.SweepTopics.{gone_up, swept_to};
ghost use Rattle.part_steps.specs.WalkTopics.{gone_down};
ghost use Rattle.std.specs.Prelude.{None};
ghost use Rattle.mmu_core.specs.orders.InvalidateSteps.{IsWalkSmall};
ghost use Rattle.mmu_core.specs.orders.SweepSteps.{sweep_next, swept_on};

use core_views::{FrameRange, TableWalk};
use mmu_core::SweepNext;
use part_twins::{entry_index, has_entry, is_done, sweep_on, swept_to};

// After an entry of the sweep for these frames, where the walk has come to this.
fn sweep_next(zaps: bool, range: FrameRange, walk: &TableWalk) -> SweepNext
    requires from { 1 ≤ walk.now.level }
    requires to { walk.now.level ≤ 4 }
    requires prefix { walk.now.prefix < 2 ^ 36 }
    requires small { swept_to zaps range.start walk.now < 2 ^ 64 }
    ensures { result ≡ sweep_next zaps range walk.now }
{
    if range.end <= swept_to(zaps, range.start, walk) {
        SweepNext::Over
    } else if has_entry(walk) && !is_done(zaps, walk) {
        SweepNext::Leaf
    } else {
        SweepNext::Entry
    }
}

/// After the next entry of the sweep, which is this.
pub(crate) fn after_entry(zaps: bool, range: FrameRange, walk: &TableWalk, found: u64) -> SweepNext
    requires walk { IsWalkSmall walk.now }
    requires there { 1 ≤ walk.now.level }
    requires over { IsOver (swept_to zaps range.start walk.now) (gone_up walk.now) }
    ensures { result ≡ sweep_next zaps range (swept_on (swept_to zaps range.start walk.now) walk.now found) }
{
    let gfn = swept_to(zaps, range.start, walk);
    sweep_next(zaps, range, &sweep_on(gfn, walk, found))
}

/// After the change of the leaf that it has come to, where this is left.
pub(crate) fn after_leaf(zaps: bool, range: FrameRange, walk: &TableWalk, left: u64) -> SweepNext
    requires walk { IsWalkSmall walk.now }
    requires saw { SawEntry (swept_to zaps range.start walk.now) walk.now }
    ensures { result ≡ sweep_next zaps range (gone_down None walk.now (entry_index (swept_to zaps range.start walk.now) walk.now.level) left) }
{
    let mut after = *walk;
    after.index = entry_index(swept_to(zaps, range.start, walk), after.level);
    after.entry = left;
    sweep_next(zaps, range, &after)
}
