ghost use Rattle.std.specs.Prelude.{◌≡◌, ◌<◌, is_some, length, true};
ghost use Rattle.core_views.specs.LogCommands.{log_read};
ghost use Rattle.mmu_core.specs.machine.Turns.{IsSameHand, line_of};
ghost use Rattle.step_seats.specs.LineTurns.{Says, TurnsLine, turn_told};
ghost use Rattle.step_seats.specs.Moves.{KeepsSeat};

use step_seats::{Stepper, Turn, turn_line};

/// The reading of a slot's dirty log, a step a turn. Where it stands, and what it has read, is kept
/// in the manager's hand, which drives the job.
#[derive(Clone, Copy, Drop)]
pub struct LogJob;

impl LogJob {
    /// Makes the next step of the line, and says whether it is answered: `Done` after
    /// its last step, where the hand has the answer, of the words that it has read
    /// (`readings_leave_no_silent_write` of `job_laws` says what it makes sure of). `Wait` where the
    /// lock's word isn't 0, or a virtual processor is in the guest and has yet to flush; never `Retry`. It takes no
    /// memory but the room that was reserved.
    pub fn turn<S: Stepper>(self, s: &mut S) -> Turn<()>
        requires left { length (S.seat s.old).hand.answers < length (S.seat s.old).hand.lines }
        requires reads { is_some (log_read (line_of (S.seat s.old).hand).command) ≡ true }
        requires reserved { 0 < (S.seat s.old).room }
        ensures turns { TurnsLine (turn_told result (S.seat s.old).hand (S.seat s.new).hand) (S.seat s.old) (S.seat s.new) }
        ensures says { Says (turn_told result (S.seat s.old).hand (S.seat s.new).hand) (line_of (S.seat s.old).hand) (S.seat s.old).hand (S.seat s.new).hand }
        ensures hand { IsSameHand (S.seat s.old).hand (S.seat s.new).hand }
        ensures keeps { KeepsSeat (S.seat s.old) (S.seat s.new) (S.frame s.old) (S.frame s.new) }
    {
        turn_line(s)
    }
}
