//! The steps on a word of a dirty log, in which each page of a slot has a bit.
ghost use Rattle.std.specs.Prelude.{◌≡◌, ◌+◌, ◌<◌};
ghost use Rattle.mmu_core.specs.machine.MayMake.{MayMake};
ghost use Rattle.part_steps.specs.declared.part_step.PartStep.TheVariants.{Peek, Take};
ghost use Rattle.dirty_log.specs.LogWords.{LoadsWhereMade, TakesWhereMade, read_up_to};
ghost use Rattle.step_seats.specs.Moves.{KeepsSeat};
ghost use Rattle.step_seats.specs.PartTurns.{MadePart};

use part_steps::PartStep;
use step_seats::{Stepper, make_part};

/// Takes bits out of this word of the dirty log: clears those of the mask, and answers the word
/// that was there (kvm_main.c, `atomic_long_fetch_andnot`). The actor is the manager, and has the
/// lock alone. Writes to pages whose bits it took may still be allowed: they are to be forbidden
/// afterwards. It never waits and takes no memory.
pub fn take_bits<S: Stepper>(s: &mut S, word: u64, mask: u64, note: u64) -> u64
    requires may { MayMake (Take word mask) note (S.seat s.old).hand }
    requires reserved { 0 < (S.seat s.old).room }
    ensures step { MadePart (Take word mask) note result (S.seat s.old) (S.seat s.new) }
    ensures read { (S.seat s.new).hand.topics ≡ read_up_to (word + 1) (S.seat s.old).hand.topics }
    ensures told { TakesWhereMade word mask result note (S.seat s.old) (S.seat s.new) }
    ensures keeps { KeepsSeat (S.seat s.old) (S.seat s.new) (S.frame s.old) (S.frame s.new) }
{
    make_part(s, PartStep::Take { word, mask }, note)
}

/// Loads this word of the dirty log, and answers it. The actor is the manager. It never waits and
/// takes no memory.
pub fn load_bits<S: Stepper>(s: &mut S, word: u64, note: u64) -> u64
    requires may { MayMake (Peek word) note (S.seat s.old).hand }
    requires reserved { 0 < (S.seat s.old).room }
    ensures step { MadePart (Peek word) note result (S.seat s.old) (S.seat s.new) }
    ensures read { (S.seat s.new).hand.topics ≡ read_up_to (word + 1) (S.seat s.old).hand.topics }
    ensures told { LoadsWhereMade word result note (S.seat s.old) (S.seat s.new) }
    ensures keeps { KeepsSeat (S.seat s.old) (S.seat s.new) (S.frame s.old) (S.frame s.new) }
{
    make_part(s, PartStep::Peek(word), note)
}
