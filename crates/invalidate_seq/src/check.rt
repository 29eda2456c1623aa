ghost use Rattle.std.specs.Prelude.{◌≡◌, ◌<◌, true, is_some};
ghost use Rattle.mmu_core.specs.machine.MayMake.{MayMake};
ghost use Rattle.part_steps.specs.StayTopics.{has_lock};
ghost use Rattle.mmu_core.specs.machine.View.{word_in};
ghost use Rattle.step_seats.specs.Moves.{KeepsSeat};
ghost use Rattle.step_seats.specs.PartTurns.{MakesPart, WherePartMade};
ghost use Rattle.step_seats.specs.declared.turn.Turn.TheVariants.{More};
ghost use Rattle.invalidate_seq.specs.Checks.{ChecksBy, LoadsOnly, Stands, StandsBehind, WasStageWord, load_of, check_turns};

use core_views::{CheckStage, Invalidations};
use part_steps::PartStep;
use step_seats::{Stepper, Turn, make_part};

/// What a check found of the invalidations.
#[derive(Clone, Copy, Debug, PartialEq, Eq, Drop)]
pub enum Checked {
    /// None is open over the guest frame, and none was since the snapshot.
    Fresh,
    /// So many are open, over guest frames from `start` up to `end`, the frame
    /// among them.
    Open { count: u64, start: u64, end: u64 },
    /// None is open over the guest frame, but the sequence number is another one
    /// than that of the snapshot.
    Moved { snapshot: u64, seq: u64 },
}

// The step that loads a stage's word.
fn step(stage: CheckStage) -> PartStep
    ensures { result ≡ load_of stage }
{
    match stage {
        CheckStage::Count => PartStep::Count,
        CheckStage::Start => PartStep::RangeStart,
        CheckStage::End => PartStep::RangeEnd,
        CheckStage::Seq => PartStep::Seq,
    }
}

/// A check under the lock whether a look-up of one guest frame still holds, a
/// step a turn (`mmu_invalidate_retry_gfn`).
#[derive(Clone, Copy, Drop)]
pub struct Check {
    /// The guest frame.
    pub gfn: u64,
    /// How far the check has come.
    pub stage: CheckStage,
}

impl Check {
    /// A check that is yet to begin, for this guest frame.
    pub fn new(gfn: u64) -> Check
        ensures { result ≡ record { gfn = gfn; stage = CheckStage.Count } }
    {
        Check {
            gfn,
            stage: CheckStage::Count,
        }
    }

    /// Goes on after the word of its stage, which is kept now: what a turn makes of it
    /// after its step.
    pub fn go_on(&mut self, kept: &Invalidations) -> Turn<Checked>
        requires taken { is_some kept.now.snapshot ≡ true }
        requires stands { StandsBehind self.old.stage self.old.gfn kept.now }
        ensures answers { ChecksBy self.old.stage result self.new.stage self.old.gfn kept.now }
        ensures stands { result ≡ More → Stands self.new.stage self.new.gfn kept.now }
        ensures gfn { self.new.gfn ≡ self.old.gfn }
        ensures nearer { result ≡ More → check_turns self.new.stage < check_turns self.old.stage }
    {
        let Invalidations {
            snapshot: Some(snapshot),
            count,
            start,
            end,
            seq,
            ..
        } = *kept
        else {
            unreachable!()
        };
        self.stage = match self.stage {
            CheckStage::Count if count > 0 => CheckStage::Start,
            CheckStage::Start => CheckStage::End,
            CheckStage::End if start <= self.gfn && self.gfn < end => {
                return Turn::Done(Checked::Open { count, start, end });
            }
            CheckStage::Count | CheckStage::End => CheckStage::Seq,
            CheckStage::Seq if seq == snapshot => return Turn::Done(Checked::Fresh),
            CheckStage::Seq => return Turn::Done(Checked::Moved { snapshot, seq }),
        };
        Turn::More
    }

    /// Loads the next word of the check of a look-up that began with a snapshot:
    /// how many invalidations are open, their range where some are, and the
    /// sequence number where none is open over the guest frame. It never waits.
    pub fn turn<S: Stepper>(&mut self, s: &mut S, note: u64) -> Turn<Checked>
        requires may { MayMake (load_of self.old.stage) note (S.seat s.old).hand }
        requires reserved { 0 < (S.seat s.old).room }
        requires locked { has_lock (S.seat s.old).hand.topics.hold ≡ true }
        requires taken { is_some (S.seat s.old).hand.topics.invalidations.snapshot ≡ true }
        requires stands { Stands self.old.stage self.old.gfn (S.seat s.old).hand.topics.invalidations }
        ensures step { MakesPart (load_of self.old.stage) note (S.seat s.old) (S.seat s.new) }
        ensures loads { LoadsOnly self.old.stage (S.seat s.old).hand.topics (S.seat s.new).hand.topics }
        ensures word { WasStageWord self.old.stage note (S.seat s.old) (S.seat s.new) }
        ensures answers { ChecksBy self.old.stage result self.new.stage self.old.gfn (S.seat s.new).hand.topics.invalidations }
        ensures stands { result ≡ More → Stands self.new.stage self.new.gfn (S.seat s.new).hand.topics.invalidations }
        ensures gfn { self.new.gfn ≡ self.old.gfn }
        ensures nearer { result ≡ More → check_turns self.new.stage < check_turns self.old.stage }
        ensures keeps { KeepsSeat (S.seat s.old) (S.seat s.new) (S.frame s.old) (S.frame s.new) }
    {
        let _ = make_part(s, step(self.stage), note);
        let kept = s.hand().topics().invalidations;
        self.go_on(&kept)
    }
}
