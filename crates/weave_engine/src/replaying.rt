//! The command `replay`: each line of the trace alone, in file order.
ghost use Rattle.std.specs.Prelude.{◌≡◌, [], false, string_bytes};
ghost use Rattle.core_views.specs.Sizes.{sizes_of};
ghost use Rattle.core_views.specs.Traces.{IsTrace};
ghost use Rattle.mmu_core.specs.machine.Worlds.{IsStart};
ghost use Rattle.step_seats.specs.Machines.{world_in};
ghost use Rattle.weave_engine.specs.Printed.{PrintsReplay, PrintsReplayOn, PrintsReplayed};
ghost use Rattle.weave_engine.specs.Writes.{WritesReplayOn};
ghost use Rattle.weave_engine.specs.Woven.{EndFaults, end_failed};

use crate::answer_printer::AnswerPrinter;
use crate::ran::{How, OpenLine, Ran, how_of};
use core_views::{NoMemory, Trace};
use std::alloc::Global;
use step_seats::{MachineOwner, PlainMachine};
use tdp_io::{Sink, Stop};
use turn_loops::{Printer, run_lines};

// Runs all lines of the trace on its machine, and prints their turns. It leaves no line
// open.
fn replay_on<M: MachineOwner, P: Printer<M>>(
    machine: &mut M,
    trace: &Trace,
    printer: &mut P,
) -> Result<Option<OpenLine>, Stop>
    requires sizes { (M.machine machine.old).sizes ≡ sizes_of trace.now.header }
    requires start { IsStart (sizes_of trace.now.header) trace.now.lines (world_in (M.machine machine.old)) }
    requires ready { P.ready printer.old }
    ensures { PrintsReplayed P.prints P.stops trace.now (world_in (M.machine machine.new)) printer.old printer.new result }
{
    let lines = trace.lines.as_slice();
    run_lines(machine, lines, lines.len(), printer)?;
    printer.over(None)?;
    Ok(None)
}

/// Runs the lines of the trace on a machine that is at its start, one after another, each
/// alone, and has their turns printed. It gives how it ended, which is never unfinished;
/// the machine is then as it was after the last line, or after the line at which the
/// printing failed.
pub fn replay_machine<M: MachineOwner, P: Printer<M>>(
    machine: &mut M,
    trace: &Trace,
    printer: &mut P,
) -> Result<How, NoMemory>
    requires sizes { (M.machine machine.old).sizes ≡ sizes_of trace.now.header }
    requires start { IsStart (sizes_of trace.now.header) trace.now.lines (world_in (M.machine machine.old)) }
    requires ready { P.ready printer.old }
    ensures { PrintsReplayOn P.prints P.stops trace.now (world_in (M.machine machine.new)) printer.old printer.new result }
{
    how_of(replay_on(machine, trace, printer))
}

/// Runs the lines of the trace one after another, each alone, a step at a time over the
/// words of the machine, and has their turns printed. It gives how it ended, which is
/// never unfinished, and the words and hands at that moment: after the last line, or
/// after the line at which the printing failed.
pub fn replay_with<P: Printer<PlainMachine>>(
    alloc: Global,
    trace: &Trace,
    printer: &mut P,
) -> Result<Ran, NoMemory>
    requires trace { IsTrace trace.now }
    requires ready { P.ready printer.old }
    ensures { PrintsReplay P.prints P.stops trace.now printer.old printer.new result }
{
    let mut machine = PlainMachine::new(alloc, trace)?;
    let how = replay_machine(&mut machine, trace, printer)?;
    Ok(Ran {
        how,
        closing: machine.into_closing(),
    })
}

// The same with a printer of answers, which has written all that it was told at the end.
fn replay_answers<M: MachineOwner, K: Sink>(
    machine: &mut M,
    trace: &Trace,
    printer: &mut AnswerPrinter<'_, K>,
) -> Result<How, NoMemory>
    requires sizes { (M.machine machine.old).sizes ≡ sizes_of trace.now.header }
    requires start { IsStart (sizes_of trace.now.header) trace.now.lines (world_in (M.machine machine.old)) }
    requires unfailed { K.failed printer.old.out.now ≡ false }
    requires fresh { string_bytes printer.old.waiting.now ≡ [] }
    ensures writes { WritesReplayOn trace.now (world_in (M.machine machine.new)) (K.written printer.old.out.now) (K.written printer.new.out.now) result }
    ensures faults { EndFaults (K.faults printer.old.out.now) (K.faults printer.new.out.now) result }
    ensures failed { K.failed printer.new.out.now ≡ end_failed result }
    ensures same { printer.new.out.ghost_name ≡ printer.old.out.ghost_name }
{
    replay_machine(machine, trace, printer)
}

/// Runs the lines of the trace on a machine that is at its start, one after another, each
/// alone, a step at a time, and writes what they are answered. It gives how it ended,
/// which is never unfinished; the machine is then as it was after the last line, or after
/// the line with whose answer a write failed. Then nothing more is written, and at most
/// 8,192 bytes and the last line are missing.
pub fn replay_answers_on<M: MachineOwner, K: Sink>(
    alloc: Global,
    machine: &mut M,
    trace: &Trace,
    out: &mut K,
) -> Result<How, NoMemory>
    requires sizes { (M.machine machine.old).sizes ≡ sizes_of trace.now.header }
    requires start { IsStart (sizes_of trace.now.header) trace.now.lines (world_in (M.machine machine.old)) }
    requires unfailed { K.failed out.old ≡ false }
    ensures writes { WritesReplayOn trace.now (world_in (M.machine machine.new)) (K.written out.old) (K.written out.new) result }
    ensures faults { EndFaults (K.faults out.old) (K.faults out.new) result }
    ensures failed { K.failed out.new ≡ end_failed result }
{
    let mut waiting = String::new(alloc);
    let mut printer = AnswerPrinter {
        out,
        waiting: &mut waiting,
    };
    replay_answers(machine, trace, &mut printer)
}
