//! Who prints a run as it goes.
ghost use Rattle.std.specs.Prelude.{◌≡◌, ◌<◌, ◌++◌, List, [], ◌∷◌, Some, length, slice_get};
ghost use Rattle.std.specs.Option.{option_copied};
ghost use Rattle.core_views.specs.declared.place.Place.TheVariants.{Between};
ghost use Rattle.core_views.specs.Sizes.{index_of};
ghost use Rattle.mmu_core.specs.alone.LineAlone.{LineAlone};
ghost use Rattle.step_seats.specs.Machines.{KeepsSizes, world_in};
ghost use Rattle.step_seats.specs.Moves.{handful_in};
ghost use Rattle.tdp_io.specs.declared.sink.Stop.{Stop as StopMade};
ghost use Rattle.tdp_io.specs.declared.sink.Stop.TheVariants.{NoMemory};
ghost use Rattle.turn_loops.specs.Marks.{Begins, Mark, Over, PrintsMarks, Rounds};
ghost use Rattle.turn_loops.specs.Turned.{PrintsLine, PrintsTurn};

use crate::turning::Turned;
use core_views::{Item, Line};
use step_seats::MachineOwner;
use tdp_io::Stop;

/// Prints turns one by one. It makes them itself, so that it can look at the machine
/// before a turn and after it.
pub trait TurnPrinter<M: MachineOwner> {
    /// It may print more: no write of it has failed.
    ghost ready: { Self → Type 0 };

    /// From the first printer to the second, these marks were printed.
    ghost prints: { Self → List Mark → Self → Type 0 };

    /// The first printer came to the second as it printed these marks, and stopped for
    /// this.
    ghost stops: { Self → List Mark → StopMade → Self → Type 0 };

    /// Makes the next turn of the actor at this place, where it has a line left, and
    /// prints it.
    fn turn(&mut self, machine: &mut M, index: usize) -> Result<Turned, Stop>
        requires there { index < length (M.machine machine.old).hands }
        requires ready { ready self.old }
        ensures turned { PrintsTurn prints stops index (world_in (M.machine machine.old)) (world_in (M.machine machine.new)) self.old self.new result }
        ensures same { KeepsSizes (M.machine machine.old) (M.machine machine.new) };

    /// Where nothing is printed, it stays as it is.
    ghost nothing: { (p : Self) → ready p → prints p [] p };

    /// A printer that printed marks may print more.
    ghost goes_on: { (p q : Self) (marks : List Mark) → prints p marks q → ready q };

    /// What is printed after other marks comes after them.
    ghost then: { (p q r : Self) (marks more : List Mark) → prints p marks q → prints q more r → prints p (marks ++ more) r };

    /// Where memory is refused before anything is printed, nothing is.
    ghost refused: { (p : Self) → ready p → stops p [] NoMemory p };

    /// So it is where it stopped.
    ghost stopped: { (p q r : Self) (marks more : List Mark) (stop : StopMade) → prints p marks q → stops q more stop r → stops p (marks ++ more) stop r };
}

/// Prints a whole run: its lines alone, its turns, where the turns of an item and those in
/// rounds begin, and its end.
pub trait Printer<M: MachineOwner>: TurnPrinter<M> {
    /// Runs the next line of an actor to its answer, while all other actors rest, and
    /// prints its turns.
    fn line(&mut self, machine: &mut M, line: &Line) -> Result<(), Stop>
        requires there { index_of (M.machine machine.old).sizes line.now.actor < length (M.machine machine.old).hands }
        requires idle { (handful_in (M.machine machine.old).hands (index_of (M.machine machine.old).sizes line.now.actor)).core.state.place ≡ Between }
        requires next { slice_get (handful_in (M.machine machine.old).hands (index_of (M.machine machine.old).sizes line.now.actor)).core.lines
            (length (handful_in (M.machine machine.old).hands (index_of (M.machine machine.old).sizes line.now.actor)).core.answers) ≡ Some line.now }
        requires own { line.now.actor ≡ (handful_in (M.machine machine.old).hands (index_of (M.machine machine.old).sizes line.now.actor)).core.state.actor }
        requires alone { LineAlone (M.machine machine.old).sizes (world_in (M.machine machine.old)) (index_of (M.machine machine.old).sizes line.now.actor) }
        requires ready { Self.ready self.old }
        ensures ran { PrintsLine Self.prints Self.stops (M.machine machine.old).sizes line.now (world_in (M.machine machine.old))
            (world_in (M.machine machine.new)) self.old self.new result }
        ensures same { KeepsSizes (M.machine machine.old) (M.machine machine.new) };

    /// Says that the turns of this item begin.
    fn item(&mut self, item: &Item) -> Result<(), Stop>
        requires ready { Self.ready self.old }
        ensures { PrintsMarks Self.prints Self.stops (Begins item.now ∷ []) self.old self.new result };

    /// Says that the turns in rounds begin.
    fn rounds(&mut self) -> Result<(), Stop>
        requires ready { Self.ready self.old }
        ensures { PrintsMarks Self.prints Self.stops (Rounds ∷ []) self.old self.new result };

    /// Writes what waits, once no turn is left, and where a line has no answer, which is
    /// the first one.
    fn over(&mut self, first: Option<&Line>) -> Result<(), Stop>
        requires ready { Self.ready self.old }
        ensures { PrintsMarks Self.prints Self.stops (Over (option_copied first.entry) ∷ []) self.old self.new result };
}
