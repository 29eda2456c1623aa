//! The steps that forbid writes to guest frames.
ghost use Rattle.std.specs.Prelude.{◌≡◌, ◌≤◌, ◌<◌, ◌^◌, false, true};
ghost use Rattle.core_views.specs.declared.place.WriteProtectPlace.TheVariants as protect;
ghost use Rattle.part_steps.specs.LogHoldings.{MayProtect};
ghost use Rattle.part_steps.specs.SweepHoldings.{MaySweep};
ghost use Rattle.part_steps.specs.SweepTopics.{swept_to};
ghost use Rattle.mmu_core.specs.orders.InvalidateSteps.{IsWalkSmall};
ghost use Rattle.mmu_core.specs.orders.WriteProtectSteps.{protect_next, protect_part, protect_swept, protect_sweeps};

use crate::sweep::{after_entry, after_leaf};
use core_views::{FrameRange, Sizes, Topics, WriteProtectPlace};
use mmu_core::{SweepNext, WriteProtectNext};
use part_steps::PartStep;
use part_twins::{has_to_flush, swept_to};
use spte_words::Spte;

/// The step of this place, where writes to these guest frames are to be forbidden.
pub fn protect_part(place: WriteProtectPlace, range: FrameRange, topics: &Topics) -> PartStep
    requires walk { IsWalkSmall topics.now.walk }
    requires there { protect_sweeps place ≡ true → 1 ≤ topics.now.walk.level }
    requires come { protect_sweeps place ≡ true → swept_to false range.start topics.now.walk < 2 ^ 64 }
    ensures { result ≡ protect_part place range topics.now }
{
    match place {
        WriteProtectPlace::Exclude => PartStep::Exclude,
        WriteProtectPlace::Walk { rooted: false } => PartStep::Root,
        WriteProtectPlace::Walk { rooted: true } => {
            PartStep::Sweep(swept_to(false, range.start, &topics.walk))
        }
        WriteProtectPlace::Protect => {
            PartStep::Protect(swept_to(false, range.start, &topics.walk))
        }
        WriteProtectPlace::Release => PartStep::Release,
        WriteProtectPlace::Ask => PartStep::Ask(topics.flush.asked),
        WriteProtectPlace::Await => PartStep::Await(topics.flush.awaited),
    }
}

// After an entry of the sweep.
fn protect_swept(next: SweepNext) -> WriteProtectPlace
    ensures { result ≡ protect_swept next }
{
    match next {
        SweepNext::Over => WriteProtectPlace::Release,
        SweepNext::Leaf => WriteProtectPlace::Protect,
        SweepNext::Entry => WriteProtectPlace::Walk { rooted: true },
    }
}

/// Where they stand after the step of this place, which answered `found`.
pub fn protect_next(
    place: WriteProtectPlace,
    sizes: &Sizes,
    range: FrameRange,
    topics: &Topics,
    found: u64,
) -> WriteProtectNext
    requires asked { topics.now.flush.asked < 2 ^ 32 }
    requires walk { IsWalkSmall topics.now.walk }
    requires sweeps { (place ≡ protect.Walk true) → MaySweep (swept_to false range.start topics.now.walk) topics.now }
    requires protects { (place ≡ protect.Protect) → MayProtect (swept_to false range.start topics.now.walk) topics.now }
    ensures { result ≡ protect_next place sizes.now range topics.now found }
{
    let flush = &topics.flush;
    let walk = &topics.walk;
    WriteProtectNext::Goes(match place {
        WriteProtectPlace::Exclude if found == 0 => WriteProtectPlace::Walk { rooted: false },
        WriteProtectPlace::Exclude => WriteProtectPlace::Exclude,
        WriteProtectPlace::Walk { rooted: false } => WriteProtectPlace::Walk { rooted: true },
        WriteProtectPlace::Walk { rooted: true } => {
            protect_swept(after_entry(false, range, walk, found))
        }
        WriteProtectPlace::Protect => {
            let left = Spte::from_word(walk.entry).without_write().word();
            protect_swept(after_leaf(false, range, walk, left))
        }
        WriteProtectPlace::Release => WriteProtectPlace::Ask,
        WriteProtectPlace::Ask if flush.asked + 1 < sizes.vcpus => WriteProtectPlace::Ask,
        WriteProtectPlace::Ask => WriteProtectPlace::Await,
        WriteProtectPlace::Await
            if has_to_flush(found) || flush.awaited < sizes.vcpus.saturating_sub(1) => {
            WriteProtectPlace::Await
        }
        WriteProtectPlace::Await => return WriteProtectNext::Over,
    })
}
