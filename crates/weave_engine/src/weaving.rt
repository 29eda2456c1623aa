//! The command `weave`: the lines above `go` alone, then the turns of the
//! schedule, then rounds.
ghost use Rattle.std.specs.Prelude.{◌≡◌, [], false, string_bytes};
ghost use Rattle.core_views.specs.Sizes.{sizes_of};
ghost use Rattle.core_views.specs.Traces.{IsTrace};
ghost use Rattle.mmu_core.specs.machine.Worlds.{IsStart};
ghost use Rattle.step_seats.specs.Machines.{world_in};
ghost use Rattle.weave_engine.specs.Printed.{PrintsWeave, PrintsWeaveOn, PrintsWoven};
ghost use Rattle.weave_engine.specs.Woven.{RanFaults, WritesWeave, ran_failed};

use crate::answer_printer::AnswerPrinter;
use crate::ran::{How, OpenLine, Ran, how_of, open_line};
use core_views::{NoMemory, Trace};
use std::alloc::Global;
use step_seats::{MachineOwner, PlainMachine};
use tdp_io::{Sink, Stop};
use turn_loops::{Printer, first_open, run_items, run_lines, run_rounds};

// Runs the trace on its machine, and has its turns printed. It gives the first line that
// has no answer, if there is one.
fn weave_on<M: MachineOwner, P: Printer<M>>(
    machine: &mut M,
    trace: &Trace,
    limit: u64,
    printer: &mut P,
) -> Result<Option<OpenLine>, Stop>
    requires trace { IsTrace trace.now }
    requires sizes { (M.machine machine.old).sizes ≡ sizes_of trace.now.header }
    requires start { IsStart (sizes_of trace.now.header) trace.now.lines (world_in (M.machine machine.old)) }
    requires ready { P.ready printer.old }
    ensures { PrintsWoven P.prints P.stops trace.now limit (world_in (M.machine machine.new)) printer.old printer.new result }
{
    let lines = trace.lines.as_slice();
    let above = trace.go.unwrap_or(0) as usize;
    run_lines(machine, lines, above, printer)?;
    run_items(machine, trace.items.as_slice(), printer)?;
    run_rounds(machine, limit, printer)?;
    let first = first_open(machine);
    printer.over(first)?;
    Ok(open_line(first))
}

/// Runs the trace on a machine that is at its start, as `weave_with` does, and has each
/// turn printed. It gives how it ended; the machine is then as it was after the last turn,
/// or after the turn at which the printing failed.
pub fn weave_machine<M: MachineOwner, P: Printer<M>>(
    machine: &mut M,
    trace: &Trace,
    limit: u64,
    printer: &mut P,
) -> Result<How, NoMemory>
    requires trace { IsTrace trace.now }
    requires sizes { (M.machine machine.old).sizes ≡ sizes_of trace.now.header }
    requires start { IsStart (sizes_of trace.now.header) trace.now.lines (world_in (M.machine machine.old)) }
    requires ready { P.ready printer.old }
    ensures { PrintsWeaveOn P.prints P.stops trace.now limit (world_in (M.machine machine.new)) printer.old printer.new result }
{
    how_of(weave_on(machine, trace, limit, printer))
}

/// Runs the trace a step a turn: the lines above `go` one after another, each
/// alone; then the turns that the schedule's items name; then turns in rounds, at most
/// `limit`, until each line is answered. It has each turn printed, and where the turns of
/// an item begin, those in rounds, and the end. It gives how it ended, and the words and
/// hands at that moment: where the printing failed, those after the turn at which it did.
pub fn weave_with<P: Printer<PlainMachine>>(
    alloc: Global,
    trace: &Trace,
    limit: u64,
    printer: &mut P,
) -> Result<Ran, NoMemory>
    requires trace { IsTrace trace.now }
    requires ready { P.ready printer.old }
    ensures { PrintsWeave P.prints P.stops trace.now limit printer.old printer.new result }
{
    let mut machine = PlainMachine::new(alloc, trace)?;
    let how = weave_machine(&mut machine, trace, limit, printer)?;
    Ok(Ran {
        how,
        closing: machine.into_closing(),
    })
}

// The same with a printer of answers, which has written all that it was told at the end.
fn weave_answers<K: Sink>(
    alloc: Global,
    trace: &Trace,
    limit: u64,
    printer: &mut AnswerPrinter<'_, K>,
) -> Result<Ran, NoMemory>
    requires trace { IsTrace trace.now }
    requires unfailed { K.failed printer.old.out.now ≡ false }
    requires fresh { string_bytes printer.old.waiting.now ≡ [] }
    ensures writes { WritesWeave trace.now limit (K.written printer.old.out.now) (K.written printer.new.out.now) result }
    ensures faults { RanFaults (K.faults printer.old.out.now) (K.faults printer.new.out.now) result }
    ensures failed { K.failed printer.new.out.now ≡ ran_failed result }
    ensures same { printer.new.out.ghost_name ≡ printer.old.out.ghost_name }
{
    weave_with(alloc, trace, limit, printer)
}

/// Runs the trace as `weave_with` does, and puts out each answer when its line is
/// answered, and where the rounds end before that, which line is the first without an
/// answer; what is put out is written in pieces, and at the end, and nothing after a write
/// that failed: then at most 8,192 bytes and the last line are missing. It gives how it
/// ended, and the words and hands at that moment: where a write failed, those after the
/// turn with whose answer it was tried.
pub fn weave<K: Sink>(
    alloc: Global,
    trace: &Trace,
    limit: u64,
    out: &mut K,
) -> Result<Ran, NoMemory>
    requires trace { IsTrace trace.now }
    requires unfailed { K.failed out.old ≡ false }
    ensures writes { WritesWeave trace.now limit (K.written out.old) (K.written out.new) result }
    ensures faults { RanFaults (K.faults out.old) (K.faults out.new) result }
    ensures failed { K.failed out.new ≡ ran_failed result }
{
    let mut waiting = String::new(alloc);
    let mut printer = AnswerPrinter {
        out,
        waiting: &mut waiting,
    };
    weave_answers(alloc, trace, limit, &mut printer)
}
