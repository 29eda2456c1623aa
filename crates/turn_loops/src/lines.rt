//! Lines of the trace, one after another, each alone.
ghost use Rattle.std.specs.Prelude.{◌≤◌, OnOk, length, take};
ghost use Rattle.mmu_core.specs.machine.Worlds.{IsStart};
ghost use Rattle.step_seats.specs.Machines.{KeepsSizes, world_in};
ghost use Rattle.turn_loops.specs.Printed.{PrintsLines};
ghost use Rattle.turn_loops.specs.Replays.{RunsLines};

use crate::one_line::run_on;
use crate::printer::Printer;
use core_views::{Line, NoMemory};
use step_seats::MachineOwner;
use tdp_io::Stop;

/// Runs the first lines one after another, each alone, and prints their turns.
pub fn run_lines<M: MachineOwner, P: Printer<M>>(
    machine: &mut M,
    lines: &[Line],
    count: usize,
    printer: &mut P,
) -> Result<(), Stop>
    requires start { IsStart (M.machine machine.old).sizes lines.now (world_in (M.machine machine.old)) }
    requires count { count ≤ length lines.now }
    requires ready { P.ready printer.old }
    ensures prints { PrintsLines P.prints P.stops (M.machine machine.old).sizes (world_in (M.machine machine.old)) lines.now count
        (world_in (M.machine machine.new)) printer.old printer.new result }
    ensures same { KeepsSizes (M.machine machine.old) (M.machine machine.new) }
{
    for index in 0..count {
        printer.line(machine, &lines[index])?;
    }
    Ok(())
}

/// Runs the first lines one after another, each alone, and prints nothing. Where memory for a
/// line is refused, the lines before it have run.
pub fn run_alone<M: MachineOwner>(
    machine: &mut M,
    lines: &[Line],
    count: usize,
) -> Result<(), NoMemory>
    requires start { IsStart (M.machine machine.old).sizes lines.now (world_in (M.machine machine.old)) }
    requires count { count ≤ length lines.now }
    ensures ran { OnOk result (RunsLines (M.machine machine.old).sizes (world_in (M.machine machine.old)) (take count lines.now)
        (world_in (M.machine machine.new))) }
    ensures same { KeepsSizes (M.machine machine.old) (M.machine machine.new) }
{
    for index in 0..count {
        run_on(machine, &lines[index])?;
    }
    Ok(())
}
