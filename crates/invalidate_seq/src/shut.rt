ghost use Rattle.std.specs.Prelude.{◌≡◌, ◌<◌, ◌^◌, true};
ghost use Rattle.core_views.specs.declared.topics.Hold.TheVariants.{Exclusive};
ghost use Rattle.mmu_core.specs.machine.MayMake.{MayMake};
ghost use Rattle.step_seats.specs.Moves.{KeepsSeat};
ghost use Rattle.step_seats.specs.PartTurns.{MakesPart};
ghost use Rattle.step_seats.specs.declared.turn.Turn.TheVariants.{More};
ghost use Rattle.invalidate_seq.specs.Invalidating.{KeepsWord, Shuts, shut_after, shut_at, shut_step, shut_turn, shut_word, shuts_left};

use core_views::Invalidations;
use part_steps::PartStep;
use step_seats::{Stepper, Turn, make_part, part_rests};

/// Which word the end of an invalidation loads or stores next, under the lock alone.
#[derive(Clone, Copy, Drop)]
pub enum ShutStage {
    /// Loads the sequence number.
    Seq,
    /// Stores it, raised by one.
    SetSeq,
    /// Loads how many invalidations are open.
    Count,
    /// Stores the count, one less.
    SetCount,
}

/// The end of an invalidation, a step a turn (kvm_main.c, `kvm_mmu_invalidate_end`): the
/// sequence number is raised before the count falls, so that a look-up from before the end
/// is found too old, or still under an open invalidation.
#[derive(Clone, Copy, Drop)]
pub struct Shut {
    /// How far the end has come.
    pub stage: ShutStage,
}

impl Shut {
    /// An end that has made no step yet.
    pub fn new() -> Shut
        ensures { result ≡ record { stage = ShutStage.Seq } }
    {
        Shut {
            stage: ShutStage::Seq,
        }
    }

    // The step of the stage.
    pub(crate) fn step(&self, kept: &Invalidations) -> PartStep
        requires { kept.now.seq < 2 ^ 40 }
        ensures { result ≡ shut_at self.now.stage kept.now }
    {
        match self.stage {
            ShutStage::Seq => PartStep::Seq,
            ShutStage::SetSeq => PartStep::SetSeq(kept.seq + 1),
            ShutStage::Count => PartStep::Count,
            ShutStage::SetCount => PartStep::SetCount(kept.count.saturating_sub(1)),
        }
    }

    // Goes on after the step of its stage.
    pub(crate) fn go_on(&mut self) -> Turn<()>
        ensures answers { result ≡ shut_turn self.old.stage }
        ensures goes_on { self.new ≡ record { stage = shut_after self.old.stage } }
        ensures nearer { result ≡ More → shuts_left self.new.stage < shuts_left self.old.stage }
    {
        self.stage = match self.stage {
            ShutStage::Seq => ShutStage::SetSeq,
            ShutStage::SetSeq => ShutStage::Count,
            ShutStage::Count => ShutStage::SetCount,
            ShutStage::SetCount => return Turn::Done(()),
        };
        Turn::More
    }

    /// Loads or stores the next word: the sequence number and then the count, of which the
    /// first is raised by one and the second lowered by one. `Done` once the count is
    /// stored: the actor's own invalidation is open no more. It never waits and takes no
    /// memory.
    pub fn turn<S: Stepper>(&mut self, s: &mut S, note: u64) -> Turn<()>
        requires may { MayMake (shut_step self.old (S.seat s.old).hand.topics) note (S.seat s.old).hand }
        requires reserved { 0 < (S.seat s.old).room }
        requires alone { (S.seat s.old).hand.topics.hold ≡ Exclusive }
        requires opened { (S.seat s.old).hand.topics.invalidations.opened ≡ true }
        ensures step { MakesPart (shut_step self.old (S.seat s.old).hand.topics) note (S.seat s.old) (S.seat s.new) }
        ensures shuts { Shuts self.old.stage (S.seat s.old).hand.topics (S.seat s.new).hand.topics }
        ensures word { KeepsWord (shut_word self.old.stage) (shut_step self.old (S.seat s.old).hand.topics) note (S.seat s.old) (S.seat s.new) }
        ensures answers { result ≡ shut_turn self.old.stage }
        ensures goes_on { self.new ≡ record { stage = shut_after self.old.stage } }
        ensures nearer { result ≡ More → shuts_left self.new.stage < shuts_left self.old.stage }
        ensures keeps { KeepsSeat (S.seat s.old) (S.seat s.new) (S.frame s.old) (S.frame s.new) }
    {
        let hand = s.hand();
        part_rests(hand);
        let step = self.step(&hand.topics().invalidations);
        let _ = make_part(s, step, note);
        self.go_on()
    }
}
