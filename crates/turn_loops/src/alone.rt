//! One line alone, turn by turn to its answer.
ghost use Rattle.std.specs.Prelude.{◌≡◌, ◌<◌, IfOk, OnErr, Some, length, slice_get};
ghost use Rattle.core_views.specs.declared.place.Place.TheVariants.{Between};
ghost use Rattle.mmu_core.specs.machine.Turns.{IsAnswered, IsSameHand};
ghost use Rattle.step_seats.specs.LineTurns.{answer_given};
ghost use Rattle.turn_loops.specs.Turns.{LineIsAlone, RanAlone};

use core_views::{Line, NoMemory};
use step_seats::{Stepper, Turn, turn_line};

/// Runs the actor's next line to its answer, which the hand has then, while all other
/// actors rest. Where the memory that it needs is refused, nothing has changed.
pub fn run_line<S: Stepper>(s: &mut S, line: &Line) -> Result<(), NoMemory>
    requires idle { (S.seat s.old).hand.state.place ≡ Between }
    requires next { slice_get (S.seat s.old).hand.lines (length (S.seat s.old).hand.answers) ≡ Some line.now }
    requires own { line.now.actor ≡ (S.seat s.old).hand.state.actor }
    requires alone { LineIsAlone (S.seat s.old) }
    ensures answered { IfOk result
        (λ done. IsAnswered line.now (answer_given (S.seat s.old).hand (S.seat s.new).hand) (S.seat s.old).hand (S.seat s.new).hand) }
    ensures alone { IfOk result (λ done. RanAlone line.now (answer_given (S.seat s.old).hand (S.seat s.new).hand) (S.seat s.old) (S.seat s.new)) }
    ensures hand { IsSameHand (S.seat s.old).hand (S.seat s.new).hand }
    ensures refused { OnErr result (((S.seat s.new).hand ≡ (S.seat s.old).hand) × ((S.seat s.new).tells ≡ (S.seat s.old).tells)) }
    ensures same { ((S.seat s.new).actor ≡ (S.seat s.old).actor) × (S.frame s.new ≡ S.frame s.old) }
{
    s.reserve()?;
    loop {
        match turn_line(s) {
            Turn::More => {}
            Turn::Wait(_) | Turn::Retry(_) => unreachable!(),
            Turn::Done(()) => return Ok(()),
        }
    }
}
