//! The lock, sections, stays in the guest and grace periods in every run.
ghost use Rattle.core_theorem.specs.Holdings.{AnsweredLinesRest, HeldSetsAreKnown, NoneHoldsFreePages, WatchedHoldNoOldSet};
ghost use Rattle.core_theorem.specs.Locks.{LockIsKept};
ghost use Rattle.core_theorem.specs.Stays.{PauseIsSeenInStay};

/// Who holds the lock, a section or a stay in the guest, in every run, and what stays for whoever is in
/// one up to its end (locking.rst; vcpu-requests.rst).
///
/// `lock`: the lock's word counts its readers and has the bit of its one writer, beside whom none has
/// it as a reader. `grace`: what an actor holds of tables and slot sets isn't free. `sets`, `watched`:
/// a slot set that an actor holds is the published one, or an old one, held in a section and retired by
/// another actor, whose watch hasn't passed this one since; so whom a watch has passed holds no slot
/// set that the watcher has taken out of use. `rest`: whose line is answered holds nothing after it.
/// `pause`: an access that is about to touch has looked at the pause since its actor entered the guest,
/// and none was set.
pub fn every_run_sections()
    ensures lock { LockIsKept }
    ensures grace { NoneHoldsFreePages }
    ensures sets { HeldSetsAreKnown }
    ensures watched { WatchedHoldNoOldSet }
    ensures rest { AnsweredLinesRest }
    ensures pause { PauseIsSeenInStay }
{}
