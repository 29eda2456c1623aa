ghost use Rattle.std.specs.Prelude.{◌≡◌, ◌<◌};
ghost use Rattle.mmu_core.specs.machine.MayMake.{MayMake};
ghost use Rattle.part_steps.specs.declared.part_step.PartStep.TheVariants.{Protect, Sweep, Zap};
ghost use Rattle.step_seats.specs.Moves.{KeepsSeat};
ghost use Rattle.step_seats.specs.PartTurns.{MadePart};
ghost use Rattle.tdp_walk.specs.Sweeps.{ProtectsWhereMade, SweepsWhereMade, ZapsWhereMade, protected, swept, zapped};

use part_steps::PartStep;
use step_seats::{Stepper, make_part};

/// Loads the next entry of a sweep, over the guest frame (below 2^36) to which it has come, and
/// answers it (tdp_iter.c, `tdp_iter_next`): where the sweep has come to the end of a table it
/// goes on in the one above, and where the entry is a link it goes down. The actor has the lock
/// alone: it zaps the leaves of its own invalidation, which is open, or forbids writes in those
/// of a slot, with none of its own open (locking.rst). It never waits and takes no memory.
pub fn sweep_entry<S: Stepper>(s: &mut S, gfn: u64, note: u64) -> u64
    requires may { MayMake (Sweep gfn) note (S.seat s.old).hand }
    requires reserved { 0 < (S.seat s.old).room }
    ensures step { MadePart (Sweep gfn) note result (S.seat s.old) (S.seat s.new) }
    ensures walk { (S.seat s.new).hand.topics ≡ swept gfn result (S.seat s.old).hand.topics }
    ensures told { SweepsWhereMade gfn result note (S.seat s.old) (S.seat s.new) }
    ensures keeps { KeepsSeat (S.seat s.old) (S.seat s.new) (S.frame s.old) (S.frame s.new) }
{
    make_part(s, PartStep::Sweep(gfn), note)
}

/// Zaps the leaf of this guest frame (below 2^36) that the walk has come to: swaps the entry
/// for an absent one, and answers the entry that was there (tdp_mmu.c, `tdp_mmu_zap_leafs`).
/// The actor has the lock alone (locking.rst). Virtual processors may still have the
/// translation cached: they are to be asked for a flush afterwards. It never waits and takes
/// no memory.
pub fn zap<S: Stepper>(s: &mut S, gfn: u64, note: u64) -> u64
    requires may { MayMake (Zap gfn) note (S.seat s.old).hand }
    requires reserved { 0 < (S.seat s.old).room }
    ensures step { MadePart (Zap gfn) note result (S.seat s.old) (S.seat s.new) }
    ensures walk { (S.seat s.new).hand.topics ≡ zapped gfn (S.seat s.old).hand.topics }
    ensures told { ZapsWhereMade gfn result note (S.seat s.old) (S.seat s.new) }
    ensures keeps { KeepsSeat (S.seat s.old) (S.seat s.new) (S.frame s.old) (S.frame s.new) }
{
    make_part(s, PartStep::Zap(gfn), note)
}

/// Forbids writes in the leaf of this guest frame (below 2^36) that the walk has come to: takes
/// its Writable bit away, and answers the entry that was there (tdp_mmu.c, `wrprot_gfn_range`).
/// The MMU-writable bit stays, so that a fast fault can allow writes again. The actor has the
/// lock alone (locking.rst). Virtual processors may still have the writable translation cached:
/// they are to be asked for a flush afterwards. It never waits and takes no memory.
pub fn forbid_writes<S: Stepper>(s: &mut S, gfn: u64, note: u64) -> u64
    requires may { MayMake (Protect gfn) note (S.seat s.old).hand }
    requires reserved { 0 < (S.seat s.old).room }
    ensures step { MadePart (Protect gfn) note result (S.seat s.old) (S.seat s.new) }
    ensures walk { (S.seat s.new).hand.topics ≡ protected gfn (S.seat s.old).hand.topics }
    ensures told { ProtectsWhereMade gfn result note (S.seat s.old) (S.seat s.new) }
    ensures keeps { KeepsSeat (S.seat s.old) (S.seat s.new) (S.frame s.old) (S.frame s.new) }
{
    make_part(s, PartStep::Protect(gfn), note)
}
