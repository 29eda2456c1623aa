ghost use Rattle.std.specs.Prelude.{◌≡◌, ◌+◌, ◌<◌, ◌^◌};
ghost use Rattle.core_views.specs.declared.topics.Hold.TheVariants.{Exclusive};
ghost use Rattle.mmu_core.specs.machine.MayMake.{MayMake};
ghost use Rattle.part_steps.specs.InvalidationRange.{end_with, start_with};
ghost use Rattle.step_seats.specs.Moves.{KeepsSeat};
ghost use Rattle.step_seats.specs.PartTurns.{MakesPart};
ghost use Rattle.step_seats.specs.declared.turn.Turn.TheVariants.{More};
ghost use Rattle.invalidate_seq.specs.Invalidating.{
  IsWidened,
  KeepsWord,
  Opens,
  open_after,
  open_at,
  open_step,
  open_turn,
  open_word,
  opens_left,
};

use core_views::Invalidations;
use part_steps::{PartStep, end_with, start_with};
use step_seats::{Stepper, Turn, make_part, part_rests};

/// Which word the begin of an invalidation loads or stores next, under the lock alone.
#[derive(Clone, Copy, Drop)]
pub enum OpenStage {
    /// Loads how many are open.
    Count,
    /// Loads the first guest frame of their range, where some are open.
    RangeStart,
    /// Loads the guest frame after it.
    RangeEnd,
    /// Stores the first guest frame of the widened range.
    SetStart,
    /// Stores the guest frame after it.
    SetEnd,
    /// Stores the count, one more.
    SetCount,
}

/// The begin of an invalidation, a step a turn (kvm_main.c, `kvm_mmu_invalidate_begin`):
/// from its end on no fault puts an entry for a guest frame of the range.
#[derive(Clone, Copy, Drop)]
pub struct Open {
    /// The first guest frame over which it is.
    pub first: u64,
    /// The guest frame after the last one; where it isn't above the first, it is over none.
    pub end: u64,
    /// How far the begin has come.
    pub stage: OpenStage,
}

// The range of the open invalidations, widened to these guest frames.
fn widened(first: u64, end: u64, kept: &Invalidations) -> (u64, u64)
    ensures start { result.0 ≡ start_with first end kept.now }
    ensures end { result.1 ≡ end_with first end kept.now }
    ensures widened { IsWidened first end kept.now result.0 result.1 }
{
    (start_with(first, end, kept), end_with(first, end, kept))
}

impl Open {
    /// A begin that has made no step yet, over the guest frames from `first` up to `end`.
    pub fn new(first: u64, end: u64) -> Open
        ensures { result ≡ record { first = first; end = end; stage = OpenStage.Count } }
    {
        Open {
            first,
            end,
            stage: OpenStage::Count,
        }
    }

    // The step of the stage.
    pub(crate) fn step(&self, kept: &Invalidations) -> PartStep
        requires few { kept.now.count < 2 ^ 32 }
        ensures { result ≡ open_at self.now.stage self.now.first self.now.end kept.now }
    {
        let (start, end) = widened(self.first, self.end, kept);
        match self.stage {
            OpenStage::Count => PartStep::Count,
            OpenStage::RangeStart => PartStep::RangeStart,
            OpenStage::RangeEnd => PartStep::RangeEnd,
            OpenStage::SetStart => PartStep::SetStart {
                own: self.first,
                gfn: start,
            },
            OpenStage::SetEnd => PartStep::SetEnd {
                own: self.end,
                gfn: end,
            },
            OpenStage::SetCount => PartStep::SetCount(kept.count + 1),
        }
    }

    // Goes on after the step of its stage, where so many are open.
    pub(crate) fn go_on(&mut self, count: u64) -> Turn<()>
        ensures answers { result ≡ open_turn self.old.stage }
        ensures goes_on { self.new ≡ record self.old { stage = open_after self.old.stage count } }
        ensures nearer { result ≡ More → opens_left self.new.stage < opens_left self.old.stage }
    {
        self.stage = match self.stage {
            OpenStage::Count if count == 0 => OpenStage::SetStart,
            OpenStage::Count => OpenStage::RangeStart,
            OpenStage::RangeStart => OpenStage::RangeEnd,
            OpenStage::RangeEnd => OpenStage::SetStart,
            OpenStage::SetStart => OpenStage::SetEnd,
            OpenStage::SetEnd => OpenStage::SetCount,
            OpenStage::SetCount => return Turn::Done(()),
        };
        Turn::More
    }

    /// Loads or stores the next word: the count, the range where some are open, and then
    /// the range with the guest frames in it and the count raised by one. `Done` once the
    /// count is stored: the actor's own invalidation is open then. It never waits and takes
    /// no memory.
    pub fn turn<S: Stepper>(&mut self, s: &mut S, note: u64) -> Turn<()>
        requires may { MayMake (open_step self.old (S.seat s.old).hand.topics) note (S.seat s.old).hand }
        requires reserved { 0 < (S.seat s.old).room }
        requires alone { (S.seat s.old).hand.topics.hold ≡ Exclusive }
        ensures step { MakesPart (open_step self.old (S.seat s.old).hand.topics) note (S.seat s.old) (S.seat s.new) }
        ensures opens { Opens self.old.stage self.old.first self.old.end (S.seat s.old).hand.topics (S.seat s.new).hand.topics }
        ensures word { KeepsWord (open_word self.old.stage) (open_step self.old (S.seat s.old).hand.topics) note (S.seat s.old) (S.seat s.new) }
        ensures answers { result ≡ open_turn self.old.stage }
        ensures goes_on { self.new ≡ record self.old { stage = open_after self.old.stage (S.seat s.new).hand.topics.invalidations.count } }
        ensures nearer { result ≡ More → opens_left self.new.stage < opens_left self.old.stage }
        ensures keeps { KeepsSeat (S.seat s.old) (S.seat s.new) (S.frame s.old) (S.frame s.new) }
    {
        let hand = s.hand();
        part_rests(hand);
        let step = self.step(&hand.topics().invalidations);
        let _ = make_part(s, step, note);
        let count = s.hand().topics().invalidations.count;
        self.go_on(count)
    }
}
