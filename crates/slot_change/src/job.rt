ghost use Rattle.std.specs.Prelude.{◌≡◌, ◌<◌, length, true};
ghost use Rattle.core_views.specs.SlotCommands.{changes_slot};
ghost use Rattle.mmu_core.specs.machine.Turns.{IsSameHand, line_of};
ghost use Rattle.step_seats.specs.LineTurns.{Says, TurnsLine, turn_told};
ghost use Rattle.step_seats.specs.Moves.{KeepsSeat};

use step_seats::{Stepper, Turn, turn_line};

/// The change of a slot, or of its dirty log, a step a turn. Where it stands is kept in the manager's
/// hand, which drives the job.
#[derive(Clone, Copy, Drop)]
pub struct SlotJob;

impl SlotJob {
    /// Makes the next step of the line, and says whether it is answered: `Done` after
    /// its last step, where the hand has the answer; then the line has changed its slot once, or
    /// not at all (`slot_lines_change_once` of `job_laws`). `Wait` where a page was claimed by
    /// another actor meanwhile, the lock's word isn't 0, an invalidation of others is open, a
    /// virtual processor is in the guest and has yet to flush, or another actor that the watch
    /// looks at is in a section or in the guest; never `Retry`.
    pub fn turn<S: Stepper>(self, s: &mut S) -> Turn<()>
        requires left { length (S.seat s.old).hand.answers < length (S.seat s.old).hand.lines }
        requires changes { changes_slot (line_of (S.seat s.old).hand).command ≡ true }
        requires reserved { 0 < (S.seat s.old).room }
        ensures turns { TurnsLine (turn_told result (S.seat s.old).hand (S.seat s.new).hand) (S.seat s.old) (S.seat s.new) }
        ensures says { Says (turn_told result (S.seat s.old).hand (S.seat s.new).hand) (line_of (S.seat s.old).hand) (S.seat s.old).hand (S.seat s.new).hand }
        ensures hand { IsSameHand (S.seat s.old).hand (S.seat s.new).hand }
        ensures keeps { KeepsSeat (S.seat s.old) (S.seat s.new) (S.frame s.old) (S.frame s.new) }
    {
        turn_line(s)
    }
}
