//! A line alone, turn by turn.
ghost use Rattle.std.specs.Prelude.{◌≡◌, ◌<◌, ◌++◌, ◌↔◌, IsTrue, List, Some, length, slice_get};
ghost use Rattle.core_views.specs.declared.place.Place.TheVariants.{Between};
ghost use Rattle.core_views.specs.Sizes.{index_of};
ghost use Rattle.mmu_core.specs.alone.LineAlone.{LineAlone};
ghost use Rattle.mmu_core.specs.lines.Rests.{IsUnderWay};
ghost use Rattle.mmu_core.specs.machine.Enabled.{mmu};
ghost use Rattle.mmu_core.specs.machine.Machine.{hand_in};
ghost use Rattle.step_seats.specs.Machines.{KeepsSizes, world_in};
ghost use Rattle.step_seats.specs.Moves.{handful_in};
ghost use Rattle.tdp_io.specs.declared.sink.Stop.{Stop as StopMade};
ghost use Rattle.turn_loops.specs.Marks.{Mark};
ghost use Rattle.turn_loops.specs.Turned.{PrintsLine};

use crate::printer::TurnPrinter;
use crate::turning::{Turned, turn_on};
use core_views::{Line, Place};
use step_seats::MachineOwner;
use tdp_io::Stop;

// Whether the actor at this place has a line under way.
fn is_under_way<M: MachineOwner>(machine: &M, index: usize) -> bool
    requires there { index < length (M.machine machine.now).hands }
    ensures { IsTrue result ↔ IsUnderWay (hand_in mmu (world_in (M.machine machine.now)) index).state.place }
{
    !matches!(machine.hand(index).progress().place, Place::Between)
}

/// Runs the next line of an actor to its answer, turn by turn, while all other actors
/// rest, and prints its turns. Where the printing stops before the first turn is made, the
/// line does not begin; where it stops later, the other turns are made all the same, and
/// are not printed. This asks of the printer that where it stopped at some marks, it
/// stopped at more marks, too: it printed a part of them.
pub fn run_by_turns<M: MachineOwner, P: TurnPrinter<M>>(
    printer: &mut P,
    machine: &mut M,
    line: &Line,
) -> Result<(), Stop>
    requires part { (p q : _) (marks more : List Mark) (stop : StopMade) → P.stops p marks stop q → P.stops p (marks ++ more) stop q }
    requires there { index_of (M.machine machine.old).sizes line.now.actor < length (M.machine machine.old).hands }
    requires idle { (handful_in (M.machine machine.old).hands (index_of (M.machine machine.old).sizes line.now.actor)).core.state.place ≡ Between }
    requires next { slice_get (handful_in (M.machine machine.old).hands (index_of (M.machine machine.old).sizes line.now.actor)).core.lines
        (length (handful_in (M.machine machine.old).hands (index_of (M.machine machine.old).sizes line.now.actor)).core.answers) ≡ Some line.now }
    requires own { line.now.actor ≡ (handful_in (M.machine machine.old).hands (index_of (M.machine machine.old).sizes line.now.actor)).core.state.actor }
    requires alone { LineAlone (M.machine machine.old).sizes (world_in (M.machine machine.old)) (index_of (M.machine machine.old).sizes line.now.actor) }
    requires ready { P.ready printer.old }
    ensures ran { PrintsLine P.prints P.stops (M.machine machine.old).sizes line.now (world_in (M.machine machine.old))
        (world_in (M.machine machine.new)) printer.old printer.new result }
    ensures same { KeepsSizes (M.machine machine.old) (M.machine machine.new) }
{
    let index = machine.sizes().index_of(line.actor) as usize;
    let stop = loop {
        match printer.turn(machine, index) {
            Ok(Turned::Went) => {}
            Ok(Turned::Stopped) => return Ok(()),
            Ok(Turned::NoLine) => unreachable!(),
            Err(stop) => break stop,
        }
    };
    while is_under_way(machine, index) {
        let _ = turn_on(machine, index);
    }
    Err(stop)
}
