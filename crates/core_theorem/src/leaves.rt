//! Leaves, translations and look-ups in every run.
ghost use Rattle.core_theorem.specs.Leaves.{HeldLeavesAgree, LeavesCoverSpans, LinkedLeavesAgree, TranslationsAgree, UsedLeavesAgree};
ghost use Rattle.core_theorem.specs.LookUps.{FoundSlotsAreHeld, FreshLookUpsAreTrue, HeldSlotsStand, LookedUpPagesStand};
ghost use Rattle.core_theorem.specs.OpenFrames.{OpenFramesAreFlushed, OpenFramesAreOfThePages, OpenFramesAreRecorded, OpenFramesAreZapped};

/// What leaves and cached translations say is what slots and host say, in every run, and what was
/// looked up stands while nothing invalidates it (mmu.rst; mmu_notifier.rst).
///
/// `leaves`, `held`, `translations`, `used`: each leaf that is linked below the root, or below a table
/// that a walk holds, each one that a virtual processor has cached and may use (in the guest, or with
/// no flush asked of it), and the one by which an access is about to touch, is of the page that the
/// slots give the guest frame, at the frame that the host gives this page; who is no virtual processor
/// has nothing cached. `spans`: each leaf linked below the root is of a level that has leaves, as what
/// is cached is, and what is touched by, and links lead each guest frame of its span to it.
/// `recorded`: each guest frame that an open invalidation is of lies in the range of the open ones.
/// `scopes`: it is of exactly the guest frames that the published slots give to its host pages.
/// `zapped`: once its actor has asked for a first flush, no links lead such a guest frame from the root
/// to a leaf. `flushed`: a virtual processor whose flush was awaited, and which is in the guest or has no
/// flush asked of it, has nothing cached of such a guest frame. Both hold up to the publication of a slot
/// set, where the invalidation is of a slot. `found`: the slot that an actor
/// has found is one of the slot set that it holds, of which no two slots meet. `held_slots`: the slot
/// that has a guest frame in this set is live in the published one, and the same, while the sequence
/// number is the one that the actor took before and no invalidation of the frame is open that has yet
/// to raise it. `looked`: so is what an actor has looked up of a host page, while no invalidation of
/// the page is; but an absent page may have been brought in. `fresh`: where an access stands in its
/// fault after the check under the lock, and up to the exchange that puts the leaf, this is so without
/// these premises: its actor shares the lock, nobody's open invalidation is of the guest frame, the slot
/// that it has found has the guest frame, and is live in the published set, and the same, and what it
/// has seen of the page behind the guest frame is the page's host word, with the page in memory; and
/// both allow the write, if the access is one (locking.rst, `mmu_invalidate_retry_gfn`).
pub fn every_run_leaves()
    ensures leaves { LinkedLeavesAgree }
    ensures held { HeldLeavesAgree }
    ensures spans { LeavesCoverSpans }
    ensures translations { TranslationsAgree }
    ensures used { UsedLeavesAgree }
    ensures recorded { OpenFramesAreRecorded }
    ensures scopes { OpenFramesAreOfThePages }
    ensures zapped { OpenFramesAreZapped }
    ensures flushed { OpenFramesAreFlushed }
    ensures found { FoundSlotsAreHeld }
    ensures held_slots { HeldSlotsStand }
    ensures looked { LookedUpPagesStand }
    ensures fresh { FreshLookUpsAreTrue }
{}
