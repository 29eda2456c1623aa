//! The steps that begin an invalidation and those that end it, which several kinds of line
//! make in the same order.
ghost use Rattle.std.specs.Prelude.{◌≡◌, ◌≤◌, ◌<◌, ◌^◌, true};
ghost use Rattle.mmu_core.specs.orders.InvalidateSteps.{IsWalkSmall, begin_next, begin_part, begin_swept, end_next, end_part, search_next, sweeps};
ghost use Rattle.mmu_core.specs.lines.PartWaits.{own_open};
ghost use Rattle.mmu_core.specs.orders.SweepSteps.{range_of};
ghost use Rattle.core_views.specs.declared.place.BeginPlace.TheVariants.{Find, Walk, Zap};
ghost use Rattle.part_steps.specs.SweepHoldings.{MaySweep, MayZap};
ghost use Rattle.part_steps.specs.InvalidationRange.{HasSmallSlot, IsSmall};
ghost use Rattle.part_steps.specs.SweepTopics.{swept_to};

use crate::sweep::{after_entry, after_leaf};
use core_views::{
    BeginPlace, EndPlace, FrameRange, Invalidated, Invalidations, Sizes, SlotSearch, Topics,
};
use mmu_core::{BeginNext, EndNext, SweepNext};
use part_steps::{PartStep, Target};
use part_twins::{has_to_flush, search, swept_to};

/// How many invalidations are open of the actor's own: one or none.
pub fn own_open(invalidations: &Invalidations) -> u64
    ensures { result ≡ own_open invalidations.now }
{
    if invalidations.opened { 1 } else { 0 }
}

// After a word of the slots.
fn search_next(target: &Target, found: &SlotSearch) -> BeginPlace
    ensures { result ≡ search_next target.now found.now }
{
    if target.has_searched(found) {
        BeginPlace::Count
    } else {
        BeginPlace::Find { begun: true }
    }
}

// The guest frames of the actor's own invalidation.
fn range_of(own: &Invalidated) -> FrameRange
    ensures { result ≡ range_of own.now }
{
    FrameRange {
        start: own.start,
        end: own.end,
    }
}

// After an entry of the sweep.
fn begin_swept(next: SweepNext) -> BeginPlace
    ensures { result ≡ begin_swept next }
{
    match next {
        SweepNext::Over => BeginPlace::Ask,
        SweepNext::Leaf => BeginPlace::Zap,
        SweepNext::Entry => BeginPlace::Walk { rooted: true },
    }
}

/// The step that begins the invalidation of the target, at this place.
pub fn begin_part(place: BeginPlace, target: &Target, topics: &Topics) -> PartStep
    requires few { topics.now.invalidations.count < 2 ^ 32 }
    requires small { IsSmall target.now }
    requires slot { HasSmallSlot topics.now.search }
    requires walk { IsWalkSmall topics.now.walk }
    requires there { sweeps place ≡ true → 1 ≤ topics.now.walk.level }
    requires come { sweeps place ≡ true → swept_to true topics.now.invalidations.own.start topics.now.walk < 2 ^ 64 }
    ensures { result ≡ begin_part place target.now topics.now }
{
    let (search, row) = (&topics.search, &topics.row);
    let own = &topics.invalidations.own;
    match place {
        BeginPlace::Exclude => PartStep::Exclude,
        BeginPlace::Find { begun: false } => PartStep::Slots,
        BeginPlace::Find { begun: true } => PartStep::Slot,
        BeginPlace::Count => PartStep::Count,
        BeginPlace::RangeStart => PartStep::RangeStart,
        BeginPlace::RangeEnd => PartStep::RangeEnd,
        BeginPlace::SetStart => PartStep::SetStart {
            own: target.start(search, row),
            gfn: target.range_start(topics),
        },
        BeginPlace::SetEnd => PartStep::SetEnd {
            own: target.end(search, row),
            gfn: target.range_end(topics),
        },
        BeginPlace::SetCount => PartStep::SetCount(topics.invalidations.count + 1),
        BeginPlace::Walk { rooted: false } => PartStep::Root,
        BeginPlace::Walk { rooted: true } => PartStep::Sweep(swept_to(
            true,
            own.start,
            &topics.walk,
        )),
        BeginPlace::Zap => PartStep::Zap(swept_to(true, own.start, &topics.walk)),
        BeginPlace::Ask => PartStep::Ask(topics.flush.asked),
        BeginPlace::Await => PartStep::Await(topics.flush.awaited),
        BeginPlace::Release => PartStep::Release,
    }
}

/// Where the begin stands after the step of this place, which answered `found`.
pub fn begin_next(
    place: BeginPlace,
    sizes: &Sizes,
    target: &Target,
    topics: &Topics,
    found: u64,
) -> BeginNext
    requires id { (place ≡ Find true) → topics.now.search.id ≤ 31 }
    requires asked { topics.now.flush.asked < 2 ^ 32 }
    requires walk { IsWalkSmall topics.now.walk }
    requires sweeps { (place ≡ Walk true) → MaySweep (swept_to true topics.now.invalidations.own.start topics.now.walk) topics.now }
    requires zaps { (place ≡ Zap) → MayZap (swept_to true topics.now.invalidations.own.start topics.now.walk) topics.now }
    ensures { result ≡ begin_next place sizes.now target.now topics.now found }
{
    let own = &topics.invalidations.own;
    let flush = &topics.flush;
    BeginNext::Goes(match place {
        BeginPlace::Exclude if found == 0 => BeginPlace::Find { begun: false },
        BeginPlace::Exclude => BeginPlace::Exclude,
        BeginPlace::Find { begun: false } => BeginPlace::Find { begun: true },
        BeginPlace::Find { begun: true } => {
            let mut after = topics.search;
            search(&mut after, found);
            search_next(target, &after)
        }
        BeginPlace::Count if found == 0 => BeginPlace::SetStart,
        BeginPlace::Count => BeginPlace::RangeStart,
        BeginPlace::RangeStart => BeginPlace::RangeEnd,
        BeginPlace::RangeEnd => BeginPlace::SetStart,
        BeginPlace::SetStart => BeginPlace::SetEnd,
        BeginPlace::SetEnd => BeginPlace::SetCount,
        BeginPlace::SetCount => BeginPlace::Walk { rooted: false },
        BeginPlace::Walk { rooted: true } => {
            begin_swept(after_entry(true, range_of(own), &topics.walk, found))
        }
        BeginPlace::Walk { rooted: false } if own.start < own.end => {
            BeginPlace::Walk { rooted: true }
        }
        BeginPlace::Walk { rooted: false } => BeginPlace::Ask,
        BeginPlace::Zap => begin_swept(after_leaf(true, range_of(own), &topics.walk, 0)),
        BeginPlace::Ask if flush.asked + 1 < sizes.vcpus => BeginPlace::Ask,
        BeginPlace::Ask => BeginPlace::Await,
        BeginPlace::Await if has_to_flush(found) || flush.awaited < sizes.vcpus.saturating_sub(1) =>
            { BeginPlace::Await }
        BeginPlace::Await => BeginPlace::Release,
        BeginPlace::Release => return BeginNext::Begun,
    })
}

/// The step that ends the invalidation, at this place.
pub fn end_part(place: EndPlace, topics: &Topics) -> PartStep
    requires { topics.now.invalidations.seq < 2 ^ 40 }
    ensures { result ≡ end_part place topics.now }
{
    let seen = &topics.invalidations;
    match place {
        EndPlace::Exclude => PartStep::Exclude,
        EndPlace::Seq => PartStep::Seq,
        EndPlace::SetSeq => PartStep::SetSeq(seen.seq + 1),
        EndPlace::Count => PartStep::Count,
        EndPlace::SetCount => PartStep::SetCount(seen.count.saturating_sub(1)),
        EndPlace::Release => PartStep::Release,
    }
}

/// Where the end stands after the step of this place, which answered `found`.
pub fn end_next(place: EndPlace, found: u64) -> EndNext
    ensures { result ≡ end_next place found }
{
    EndNext::Goes(match place {
        EndPlace::Exclude if found == 0 => EndPlace::Seq,
        EndPlace::Exclude => EndPlace::Exclude,
        EndPlace::Seq => EndPlace::SetSeq,
        EndPlace::SetSeq => EndPlace::Count,
        EndPlace::Count => EndPlace::SetCount,
        EndPlace::SetCount => EndPlace::Release,
        EndPlace::Release => return EndNext::Ended,
    })
}
