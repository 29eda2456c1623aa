//! A sweep over the tables for the guest frames of an actor's own invalidation, or of a slot whose
//! dirty log begins (KVM's tdp_mmu.c, `kvm_tdp_mmu_unmap_gfn_range` and `kvm_tdp_mmu_wrprot_slot`):
//! how far its walk has come, and where it goes on.
ghost use Rattle.std.specs.Prelude.{◌≡◌, ◌≤◌, ◌<◌, ◌^◌, true};
ghost use Rattle.part_steps.specs.PartTasks.{entry_index};
ghost use Rattle.part_steps.specs.SweepTopics.{at_top, entry_end, entry_start, gone_up, gone_up_once, has_entry, is_done, is_sweeping, swept_to, walks_anew};
ghost use Rattle.part_steps.specs.WalkTopics.{walked};

use crate::spans::entry_index;
use crate::topics::walk;
use core_views::{Hold, Stay, TableWalk, Topics};
use spte_words::{ENTRIES, Spte, SpteKind};

// The walk that has come to the last entry of its table goes on in the table above, at the
// entry that links to its own.
fn go_up_once(walk: &mut TableWalk)
    ensures up { walk.new ≡ gone_up_once walk.old }
    ensures less { walk.new.prefix ≤ walk.old.prefix }
{
    if walk.index == 511 && walk.level < 4 {
        walk.level += 1;
        walk.index = walk.prefix % ENTRIES;
        walk.prefix /= ENTRIES;
    }
}

// It does so until it has come to a table with an entry left.
pub fn go_up(walk: &mut TableWalk)
    ensures up { walk.new ≡ gone_up walk.old }
    ensures less { walk.new.prefix ≤ walk.old.prefix }
{
    go_up_once(walk);
    go_up_once(walk);
    go_up_once(walk);
}

// Whether the actor has the lock alone, outside of every section, with its own invalidation
// open or a retired page.
pub fn is_sweeping(topics: &Topics) -> bool
    ensures { result ≡ is_sweeping topics.now }
{
    topics.stay == Stay::Outside
        && topics.hold == Hold::Exclusive
        && (topics.invalidations.opened || topics.retired.is_some())
}

// The walk stands at its root.
pub fn begin_anew(walk: &mut TableWalk)
    ensures top { walk.new ≡ at_top walk.old }
    ensures less { walk.new.prefix ≤ walk.old.prefix }
{
    walk.level = 4;
    walk.prefix = 0;
    walk.index = ENTRIES;
}

// Whether the actor has the lock alone, outside of every section, sweeps nothing, and has loaded
// an entry that leads no further.
pub fn walks_anew(topics: &Topics) -> bool
    ensures { result ≡ walks_anew topics.now }
{
    topics.stay == Stay::Outside
        && topics.hold == Hold::Exclusive
        && !(topics.invalidations.opened || topics.retired.is_some())
        && has_entry(&topics.walk)
}

/// Whether an entry was loaded in the table that the walk has come to.
pub fn has_entry(walk: &TableWalk) -> bool
    ensures { result ≡ has_entry walk.now }
{
    walk.index < ENTRIES
}

/// Whether a sweep, which zaps leaves or forbids writes in them, has nothing to do at it: it is no
/// link, and no such leaf.
pub fn is_done(zaps: bool, walk: &TableWalk) -> bool
    ensures { result ≡ is_done zaps walk.now }
{
    let entry = Spte::from_word(walk.entry);
    match entry.kind(walk.level) {
        SpteKind::Table(_) => false,
        SpteKind::Leaf => !(zaps || entry.is_writable()),
        SpteKind::Absent | SpteKind::Frozen => true,
    }
}

// The first guest frame of the entry that was loaded last, or of the table where none was.
fn entry_start(walk: &TableWalk) -> u64
    requires from { 1 ≤ walk.now.level }
    requires to { walk.now.level ≤ 4 }
    requires prefix { walk.now.prefix < 2 ^ 36 }
    requires small { entry_start walk.now < 2 ^ 64 }
    ensures { result ≡ entry_start walk.now }
{
    let index = if has_entry(walk) { walk.index } else { 0 };
    (walk.prefix * ENTRIES + index) * Spte::level_span(walk.level)
}

// The guest frame after the entry that was loaded last.
fn entry_end(walk: &TableWalk) -> u64
    requires from { 1 ≤ walk.now.level }
    requires to { walk.now.level ≤ 4 }
    requires prefix { walk.now.prefix < 2 ^ 36 }
    requires index { has_entry walk.now ≡ true }
    requires small { entry_end walk.now < 2 ^ 64 }
    ensures { result ≡ entry_end walk.now }
{
    (walk.prefix * ENTRIES + walk.index + 1) * Spte::level_span(walk.level)
}

/// The guest frame to which a sweep from `from` on has come.
pub fn swept_to(zaps: bool, from: u64, walk: &TableWalk) -> u64
    requires from { 1 ≤ walk.now.level }
    requires to { walk.now.level ≤ 4 }
    requires prefix { walk.now.prefix < 2 ^ 36 }
    requires small { swept_to zaps from walk.now < 2 ^ 64 }
    ensures { result ≡ swept_to zaps from walk.now }
{
    if has_entry(walk) && is_done(zaps, walk) {
        entry_end(walk)
    } else {
        from.max(entry_start(walk))
    }
}

/// The walk of a sweep after the entry over this guest frame, which it found.
pub fn sweep_on(gfn: u64, at: &TableWalk, found: u64) -> TableWalk
    requires prefix { at.now.prefix < 2 ^ 36 }
    requires from { 1 ≤ (gone_up at.now).level }
    requires to { (gone_up at.now).level ≤ 4 }
    ensures { result ≡ walked (gone_up at.now) (entry_index gfn (gone_up at.now).level) found }
{
    let mut after = *at;
    go_up(&mut after);
    let index = entry_index(gfn, after.level);
    walk(&mut after, index, found);
    after
}
