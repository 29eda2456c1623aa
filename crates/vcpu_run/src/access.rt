ghost use Rattle.std.specs.Prelude.{◌≡◌, ◌<◌, length};
ghost use Rattle.core_views.specs.declared.trace.Command.TheVariants.{Access};
ghost use Rattle.mmu_core.specs.machine.Turns.{IsSameHand, line_of};
ghost use Rattle.step_seats.specs.Moves.{KeepsSeat};
ghost use Rattle.step_seats.specs.LineTurns.{Says, TurnsLine, turn_told};
ghost use Rattle.vcpu_run.specs.Accesses.{HasItsCause};

use core_views::Op;
use step_seats::{Stepper, Turn, knows, rests, turn_line};

/// The access of one line, a step a turn. Where it stands is kept in the hand of
/// its virtual processor, which drives the job.
#[derive(Clone, Copy, Drop)]
pub struct AccessJob {
    /// The guest frame, below 2^36.
    pub gfn: u64,
    /// The word of the frame.
    pub word: u8,
    pub op: Op,
}

impl AccessJob {
    /// Makes the next step of the line, and says whether it is answered: the hand has
    /// the answer then. `Wait` where a writer has the lock, or a page was claimed by another actor
    /// meanwhile; `Retry` where the fault's look-up holds no more, or another
    /// actor's entry or host word stood in its way: the access begins anew then, from
    /// outside the guest.
    pub fn turn<S: Stepper>(self, s: &mut S) -> Turn<()>
        requires left { length (S.seat s.old).hand.answers < length (S.seat s.old).hand.lines }
        requires access { (line_of (S.seat s.old).hand).command ≡ Access self.gfn self.word self.op }
        requires reserved { 0 < (S.seat s.old).room }
        ensures turns { TurnsLine (turn_told result (S.seat s.old).hand (S.seat s.new).hand) (S.seat s.old) (S.seat s.new) }
        ensures cause { HasItsCause (turn_told result (S.seat s.old).hand (S.seat s.new).hand) self (S.seat s.old).hand }
        ensures says { Says (turn_told result (S.seat s.old).hand (S.seat s.new).hand) (line_of (S.seat s.old).hand) (S.seat s.old).hand (S.seat s.new).hand }
        ensures hand { IsSameHand (S.seat s.old).hand (S.seat s.new).hand }
        ensures keeps { KeepsSeat (S.seat s.old) (S.seat s.new) (S.frame s.old) (S.frame s.new) }
    {
        let hand = s.hand();
        rests(hand);
        knows(hand);
        turn_line(s)
    }
}
