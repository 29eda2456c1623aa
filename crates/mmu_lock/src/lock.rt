ghost use Rattle.std.specs.Prelude.{◌≡◌, ◌<◌};
ghost use Rattle.mmu_core.specs.machine.MayMake.{MayMake};
ghost use Rattle.part_steps.specs.declared.part_step.PartStep.TheVariants.{Exclude};
ghost use Rattle.mmu_lock.specs.Locking.{
  ExcludesAllOthers,
  ExcludesWhereOthersRest,
  GaveBack,
  SharesBesideNoWriter,
  SharesWhereOthersRest,
  TriedExclusive,
  TriedShared,
  lock_found,
  lock_way,
  unlock_step,
};
ghost use Rattle.mmu_core.specs.orders.ShareSteps.{share_left, share_part};
ghost use Rattle.step_seats.specs.Moves.{KeepsSeat};
ghost use Rattle.step_seats.specs.PartTurns.{MadePart, MakesPart};
ghost use Rattle.step_seats.specs.declared.turn.Turn.TheVariants.{More};

use core_views::{Hold, Seen};
use part_steps::PartStep;
use step_seats::{Stepper, Turn, has_writer, make_part, part_rests};

/// What came of trying for the lock.
#[derive(Clone, Copy, Debug, PartialEq, Eq, Drop)]
pub enum Lock {
    /// The actor holds it.
    Got,
    /// Others hold it, or have yet to take themselves out of its readers: its
    /// word as it was found.
    Held(u64),
}

impl Lock {
    /// What is in the way of who tries to hold the lock alone: its word, which stands
    /// at this place among all words of the machine, as it was found.
    pub fn in_way(&self, word: u32) -> Option<Seen>
        ensures { result ≡ lock_way word self.now }
    {
        match self {
            Lock::Got => None,
            Lock::Held(value) => Some(Seen {
                word,
                value: *value,
            }),
        }
    }
}

/// Tries to hold the lock as a reader, a step a turn: adds the actor to the
/// readers, and where a writer is found takes it out again, in a second turn.
/// `Held` has the word that was found with the writer in it. It never waits.
pub fn try_shared<S: Stepper>(s: &mut S, note: u64) -> Turn<Lock>
    requires may { MayMake (share_part (S.seat s.old).hand.topics.hold) note (S.seat s.old).hand }
    requires reserved { 0 < (S.seat s.old).room }
    ensures step { MakesPart (share_part (S.seat s.old).hand.topics.hold) note (S.seat s.old) (S.seat s.new) }
    ensures tried { TriedShared result (S.seat s.old).hand.topics (S.seat s.new).hand.topics }
    ensures nearer { result ≡ More → share_left (S.seat s.new).hand.topics.hold < share_left (S.seat s.old).hand.topics.hold }
    ensures shared { SharesBesideNoWriter result note (S.seat s.old) (S.seat s.new) }
    ensures alone { SharesWhereOthersRest result note (S.seat s.old) (S.seat s.new) }
    ensures keeps { KeepsSeat (S.seat s.old) (S.seat s.new) (S.frame s.old) (S.frame s.new) }
{
    let hand = s.hand();
    part_rests(hand);
    if let Hold::Owing(word) = hand.topics().hold {
        let _ = make_part(s, PartStep::Unshare, note);
        return Turn::Done(Lock::Held(word));
    }
    if has_writer(make_part(s, PartStep::Share, note)) {
        Turn::More
    } else {
        Turn::Done(Lock::Got)
    }
}

/// Tries to hold the lock alone, by one exchange. `Held` has the word that was
/// found, which isn't 0: somebody holds the lock, or has yet to take itself out of
/// its readers.
pub fn try_exclusive<S: Stepper>(s: &mut S, note: u64) -> Lock
    requires may { MayMake Exclude note (S.seat s.old).hand }
    requires reserved { 0 < (S.seat s.old).room }
    ensures step { MadePart Exclude note (lock_found result) (S.seat s.old) (S.seat s.new) }
    ensures tried { TriedExclusive result (S.seat s.old).hand.topics (S.seat s.new).hand.topics }
    ensures sole { ExcludesAllOthers result note (S.seat s.old) (S.seat s.new) }
    ensures alone { ExcludesWhereOthersRest result note (S.seat s.old) (S.seat s.new) }
    ensures keeps { KeepsSeat (S.seat s.old) (S.seat s.new) (S.frame s.old) (S.frame s.new) }
{
    let word = make_part(s, PartStep::Exclude, note);
    if word == 0 {
        Lock::Got
    } else {
        Lock::Held(word)
    }
}

/// Gives the lock back, whichever way the actor holds it.
pub fn unlock<S: Stepper>(s: &mut S, note: u64)
    requires may { MayMake (unlock_step (S.seat s.old).hand.topics.hold) note (S.seat s.old).hand }
    requires reserved { 0 < (S.seat s.old).room }
    ensures step { MakesPart (unlock_step (S.seat s.old).hand.topics.hold) note (S.seat s.old) (S.seat s.new) }
    ensures gave_back { GaveBack (S.seat s.old).hand.topics (S.seat s.new).hand.topics }
    ensures keeps { KeepsSeat (S.seat s.old) (S.seat s.new) (S.frame s.old) (S.frame s.new) }
{
    let step = match s.hand().topics().hold {
        Hold::Exclusive => PartStep::Release,
        _ => PartStep::Unshare,
    };
    let _ = make_part(s, step, note);
}
