ghost use Rattle.std.specs.Prelude.{◌≡◌, ◌<◌, length, true};
ghost use Rattle.core_views.specs.declared.place.Place.TheVariants as at;
ghost use Rattle.core_views.specs.declared.place.SplitPlace.TheVariants.{End};
ghost use Rattle.huge_split.specs.Splits.{EndsAt, IsEndOf, line_turned, splits};
ghost use Rattle.mmu_core.specs.machine.Turns.{IsSameHand, line_of};
ghost use Rattle.step_seats.specs.LineTurns.{Says, TurnsLine, turn_told};
ghost use Rattle.step_seats.specs.Moves.{KeepsSeat};

use core_views::{Place, SplitEnd, SplitPlace};
use step_seats::{Stepper, Turn, turn_line};

// What a line ends with that stands at its last step.
fn end_of(place: Place) -> SplitEnd
    requires { IsEndOf place }
    ensures { place ≡ at.Split (End result) }
{
    match place {
        Place::Split(SplitPlace::End(end)) => end,
        _ => unreachable!(),
    }
}

/// The split of a large leaf, a step a turn. Where it stands is kept in the worker's hand, which
/// drives the job.
#[derive(Clone, Copy, Drop)]
pub struct SplitJob;

impl SplitJob {
    /// Makes the next step of the line, and says whether it is answered: `Done` after its last
    /// step, with what it came to (`splits_tell_what_they_found` of `job_laws` says what this makes
    /// sure of), where the hand has the answer. `Wait` where a writer had the lock, or a page was
    /// claimed by another actor meanwhile; never `Retry`. It takes no memory but the room that was
    /// reserved.
    pub fn turn<S: Stepper>(self, s: &mut S) -> Turn<SplitEnd>
        requires left { length (S.seat s.old).hand.answers < length (S.seat s.old).hand.lines }
        requires splits { splits (line_of (S.seat s.old).hand).command ≡ true }
        requires reserved { 0 < (S.seat s.old).room }
        ensures turns { TurnsLine (turn_told (line_turned result) (S.seat s.old).hand (S.seat s.new).hand) (S.seat s.old) (S.seat s.new) }
        ensures ends { EndsAt result (S.seat s.old).hand.state.place }
        ensures says { Says (turn_told (line_turned result) (S.seat s.old).hand (S.seat s.new).hand) (line_of (S.seat s.old).hand)
            (S.seat s.old).hand (S.seat s.new).hand }
        ensures hand { IsSameHand (S.seat s.old).hand (S.seat s.new).hand }
        ensures keeps { KeepsSeat (S.seat s.old) (S.seat s.new) (S.frame s.old) (S.frame s.new) }
    {
        let place = s.hand().progress().place;
        match turn_line(s) {
            Turn::More => Turn::More,
            Turn::Wait(seen) => Turn::Wait(seen),
            Turn::Retry(cause) => Turn::Retry(cause),
            Turn::Done(()) => Turn::Done(end_of(place)),
        }
    }
}
