ghost use Rattle.std.specs.Prelude.{◌≡◌, ◌<◌, length, true};
ghost use Rattle.core_views.specs.HostRuns.{is_of_host};
ghost use Rattle.mmu_core.specs.machine.Turns.{IsSameHand, line_of};
ghost use Rattle.step_seats.specs.LineTurns.{Says, TurnsLine, turn_told};
ghost use Rattle.step_seats.specs.Moves.{KeepsSeat};

use step_seats::{Stepper, Turn, turn_line};

/// The change of a host page, its move to another frame, or the change of a run of pages into one
/// large page, or back into small ones, a step a turn. Where it stands is kept in the host thread's
/// hand, which drives the job.
#[derive(Clone, Copy, Drop)]
pub struct HostJob;

impl HostJob {
    /// Makes the next step of the line, and says whether it is answered: `Done` after its
    /// last step, where the hand has the answer; then the line has changed its page once, or is
    /// refused (`host_lines_change_once` of `job_laws`). A page that isn't the actor's own is
    /// refused with the first step, one that is part of a large page with the look at it, and a move
    /// with the load that found no free frame in the last word of their map.
    ///
    /// A line of a run looks at each of its pages, one a turn, and, within one invalidation of the
    /// guest frames that slots give to them, changes each in rising order, one a turn; then it has
    /// set its whole run, or is refused and has changed none (`run_lines_set_their_run` of
    /// `job_laws`). Pages that aren't the actor's own are refused with the first step (out-of-range).
    /// A run that is to be large is refused with the look at a page that is part of a large one
    /// (is-huge), and with its last look where it can't be mapped as one page (not-aligned).
    ///
    /// `Wait` where the lock's word isn't 0, a virtual processor is in the guest and has yet to
    /// flush, the frame that a move tries is gone, or another actor is in a section while a move
    /// watches; never `Retry`. It takes no memory but the room that was reserved.
    pub fn turn<S: Stepper>(self, s: &mut S) -> Turn<()>
        requires left { length (S.seat s.old).hand.answers < length (S.seat s.old).hand.lines }
        requires of_host { is_of_host (line_of (S.seat s.old).hand).command ≡ true }
        requires reserved { 0 < (S.seat s.old).room }
        ensures turns { TurnsLine (turn_told result (S.seat s.old).hand (S.seat s.new).hand) (S.seat s.old) (S.seat s.new) }
        ensures says { Says (turn_told result (S.seat s.old).hand (S.seat s.new).hand) (line_of (S.seat s.old).hand) (S.seat s.old).hand (S.seat s.new).hand }
        ensures hand { IsSameHand (S.seat s.old).hand (S.seat s.new).hand }
        ensures keeps { KeepsSeat (S.seat s.old) (S.seat s.new) (S.frame s.old) (S.frame s.new) }
    {
        turn_line(s)
    }
}
