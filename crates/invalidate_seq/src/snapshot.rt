ghost use Rattle.std.specs.Prelude.{◌≡◌, ◌<◌};
ghost use Rattle.core_views.specs.declared.topics.Hold.TheVariants.{Loose};
ghost use Rattle.mmu_core.specs.machine.MayMake.{MayMake};
ghost use Rattle.part_steps.specs.declared.part_step.PartStep.TheVariants as PartStep;
ghost use Rattle.step_seats.specs.Moves.{KeepsSeat};
ghost use Rattle.step_seats.specs.PartTurns.{MakesPart};
ghost use Rattle.invalidate_seq.specs.Checks.{TakesSnapshot, WasSequence};

use part_steps::PartStep;
use step_seats::{Stepper, Turn, make_part};

/// Takes the sequence number before a look-up, without the lock.
#[derive(Clone, Copy, Drop)]
pub struct Snapshot;

impl Snapshot {
    /// A snapshot that is yet to be taken.
    pub fn new() -> Snapshot {
        Snapshot
    }

    /// Takes it, in one step: the answer is the sequence number, which the hand
    /// keeps. The look-up begins with it: what was held of a slot set and of the
    /// host before is let go. It never waits.
    pub fn turn<S: Stepper>(&mut self, s: &mut S, note: u64) -> Turn<u64>
        requires may { MayMake PartStep.Seq note (S.seat s.old).hand }
        requires reserved { 0 < (S.seat s.old).room }
        requires loose { (S.seat s.old).hand.topics.hold ≡ Loose }
        ensures step { MakesPart PartStep.Seq note (S.seat s.old) (S.seat s.new) }
        ensures taken { TakesSnapshot result (S.seat s.old).hand.topics (S.seat s.new).hand.topics }
        ensures word { WasSequence note (S.seat s.old) (S.seat s.new) }
        ensures keeps { KeepsSeat (S.seat s.old) (S.seat s.new) (S.frame s.old) (S.frame s.new) }
    {
        Turn::Done(make_part(s, PartStep::Seq, note))
    }
}
