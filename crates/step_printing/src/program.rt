//! The whole program, but for its source, its sink and its words.
ghost use Rattle.std.specs.Prelude.{◌≡◌, [], IfOk, IfSome, false, map, string_bytes, take};
ghost use Rattle.run_status.specs.Refusals.{rounds_limit};
ghost use Rattle.run_status.specs.Statuses.{ReadCause, WriteCause, WritesUsage, status_is_write_fault};
ghost use Rattle.core_views.specs.Sizes.{AreSizes, sizes_of};
ghost use Rattle.core_views.specs.Traces.{IsTrace};
ghost use Rattle.show_options.specs.Faults.{fault_text};
ghost use Rattle.step_printing.specs.Coming.{first_lines};
ghost use Rattle.step_printing.specs.Naming.{MakesView, has_options};
ghost use Rattle.step_printing.specs.Puts.{MayPrint, printed_by};
ghost use Rattle.step_printing.specs.Prints.{Prints, PrintsRun, WritesHelp, WritesTrace, command_of};
ghost use Rattle.step_printing.specs.Run.{WritesSteps};

use crate::lines::Lines;
use crate::naming::word_named;
use crate::step_printer::StepPrinter;
use crate::view::View;
use core_views::{NoMemory, Sizes, Trace};
use run_status::{ROUNDS, Status, refuse, usage};
use show_options::{Asked, Command, Fault, Wrong, push_fault, read_words, usage_text, word_at};
use std::alloc::Global;
use tdp_io::{Sink, Source};
use trace_reader::{Read, read_trace};
use weave_engine::{replay_with, status_of, weave_with};

// The run that is asked for.
fn command_of(asked: &Asked) -> Command
    ensures { result ≡ command_of asked.now }
{
    match asked.command {
        Some(command) => command,
        None => Command::Weave,
    }
}

fn has_options(asked: &Asked) -> bool
    ensures { result ≡ has_options asked.now }
{
    asked.from.is_some()
        || asked.to.is_some()
        || asked.actor.is_some()
        || asked.kind.is_some()
        || asked.word.is_some()
        || asked.changes
}

// What is to be shown of a run on a machine of these sizes, or that no word of the machine
// has the name that is asked for.
fn view_of(
    alloc: Global,
    sizes: &Sizes,
    words: &[String],
    asked: &Asked,
) -> Result<Result<View, Fault>, NoMemory>
    requires { AreSizes sizes.now }
    ensures { IfOk result (λ view. MakesView sizes.now (map string_bytes words.now) asked.now view) }
{
    let mut view = View {
        from: asked.from,
        to: asked.to,
        actor: asked.actor,
        kind: asked.kind,
        word: None,
        changes: asked.changes,
        folds: has_options(asked),
    };
    let Some(at) = asked.word else {
        return Ok(Ok(view));
    };
    let place = word_named(alloc, sizes, word_at(words, at))?;
    if place.is_none() {
        return Ok(Err(Fault {
            at,
            wrong: Wrong::NoWord,
        }));
    }
    view.word = place;
    Ok(Ok(view))
}

// Writes what is wrong with the words.
fn refuse_words<K: Sink>(alloc: Global, words: &[String], fault: Fault, out: &mut K) -> Status
    requires unfailed { K.failed out.old ≡ false }
    ensures written { WritesUsage (fault_text (map string_bytes words.now) fault) (K.written out.old) (K.written out.new) result }
    ensures write { WriteCause (K.faults out.old) (K.faults out.new) result }
    ensures failed { K.failed out.new ≡ status_is_write_fault result }
{
    let mut text = String::new(alloc);
    match push_fault(&mut text, words, fault) {
        Ok(()) => usage(text.as_str(), out),
        Err(NoMemory) => Status::NoMemory,
    }
}

// Writes the usage, which was asked for.
fn help<K: Sink>(out: &mut K) -> Status
    requires unfailed { K.failed out.old ≡ false }
    ensures written { WritesHelp (K.written out.old) (K.written out.new) result }
    ensures write { WriteCause (K.faults out.old) (K.faults out.new) result }
    ensures failed { K.failed out.new ≡ status_is_write_fault result }
{
    match usage(usage_text(), out) {
        Status::Usage => Status::Done,
        status => status,
    }
}

// Runs the trace, and has its steps printed by a printer that has printed none.
fn print_steps<K: Sink>(
    alloc: Global,
    command: Command,
    trace: &Trace,
    limit: u64,
    printer: &mut StepPrinter<'_, K>,
) -> Status
    requires trace { IsTrace trace.now }
    requires ready { MayPrint (printed_by (K.written printer.old.out.now) (K.faults printer.old.out.now) (K.failed printer.old.out.now)
        (string_bytes printer.old.waiting.now) printer.old.lines) }
    requires fresh { string_bytes printer.old.waiting.now ≡ [] }
    requires first { printer.old.lines ≡ first_lines printer.old.lines.view (sizes_of trace.now.header) }
    ensures written { WritesSteps command printer.old.lines.view trace.now limit (K.written printer.old.out.now) (K.written printer.new.out.now) result }
    ensures write { WriteCause (K.faults printer.old.out.now) (K.faults printer.new.out.now) result }
    ensures failed { K.failed printer.new.out.now ≡ status_is_write_fault result }
    ensures same { printer.new.out.ghost_name ≡ printer.old.out.ghost_name }
{
    match command {
        Command::Weave => status_of(weave_with(alloc, trace, limit, printer)),
        Command::Replay => status_of(replay_with(alloc, trace, printer)),
    }
}

// The steps of the trace are shown so.
fn show_trace<K: Sink>(
    alloc: Global,
    command: Command,
    view: View,
    trace: &Trace,
    limit: u64,
    out: &mut K,
) -> Status
    requires trace { IsTrace trace.now }
    requires unfailed { K.failed out.old ≡ false }
    ensures written { WritesSteps command view trace.now limit (K.written out.old) (K.written out.new) result }
    ensures write { WriteCause (K.faults out.old) (K.faults out.new) result }
    ensures failed { K.failed out.new ≡ status_is_write_fault result }
{
    let mut waiting = String::new(alloc);
    let mut printer = StepPrinter {
        out,
        waiting: &mut waiting,
        lines: Lines::first(view, Sizes::of(&trace.header)),
    };
    print_steps(alloc, command, trace, limit, &mut printer)
}

// The input is this trace.
fn run_trace<K: Sink>(
    alloc: Global,
    words: &[String],
    asked: &Asked,
    trace: &Trace,
    limit: u64,
    out: &mut K,
) -> Status
    requires trace { IsTrace trace.now }
    requires unfailed { K.failed out.old ≡ false }
    ensures written { WritesTrace (map string_bytes words.now) asked.now trace.now limit (K.written out.old) (K.written out.new) result }
    ensures write { WriteCause (K.faults out.old) (K.faults out.new) result }
    ensures failed { K.failed out.new ≡ status_is_write_fault result }
{
    match view_of(alloc, &Sizes::of(&trace.header), words, asked) {
        Err(NoMemory) => Status::NoMemory,
        Ok(Err(fault)) => refuse_words(alloc, words, fault, out),
        Ok(Ok(view)) => show_trace(alloc, command_of(asked), view, trace, limit, out),
    }
}

// Runs the trace that `src` has left, so.
fn run_asked<S: Source, K: Sink>(
    alloc: Global,
    words: &[String],
    asked: &Asked,
    limit: u64,
    src: &mut S,
    out: &mut K,
) -> Status
    requires unfailed { K.failed out.old ≡ false }
    ensures prints { IfSome (S.left src.old)
        (λ input. PrintsRun (map string_bytes words.now) asked.now limit (take 16777217 input) (K.written out.old) (K.written out.new) result) }
    ensures read { ReadCause (S.faults src.old) (S.faults src.new) result }
    ensures write { WriteCause (K.faults out.old) (K.faults out.new) result }
    ensures failed { K.failed out.new ≡ status_is_write_fault result }
{
    match read_trace(alloc, src) {
        Err(NoMemory) => Status::NoMemory,
        Ok(Read::ReadFault) => Status::ReadFault,
        Ok(Read::Refused { line, reason }) => refuse(alloc, line, reason, out),
        Ok(Read::Trace(trace)) => run_trace(alloc, words, asked, &trace, limit, out),
    }
}

/// The same as `run`, with at most so many turns in rounds.
pub fn run_within<S: Source, K: Sink>(
    alloc: Global,
    words: &[String],
    limit: u64,
    src: &mut S,
    out: &mut K,
) -> Status
    requires unfailed { K.failed out.old ≡ false }
    ensures prints { IfSome (S.left src.old)
        (λ input. Prints (map string_bytes words.now) limit (take 16777217 input) (K.written out.old) (K.written out.new) result) }
    ensures read { ReadCause (S.faults src.old) (S.faults src.new) result }
    ensures write { WriteCause (K.faults out.old) (K.faults out.new) result }
    ensures failed { K.failed out.new ≡ status_is_write_fault result }
{
    match read_words(words) {
        Err(fault) => refuse_words(alloc, words, fault, out),
        Ok(asked) => {
            if asked.help {
                help(out)
            } else {
                run_asked(alloc, words, &asked, limit, src, out)
            }
        }
    }
}

/// The whole program: runs the trace that `src` has left, and writes to `out` the steps
/// that the words ask for. The first word is the program's name. Words that ask for
/// nothing that there is are answered by what is wrong with them and the usage, and
/// `--help` by the usage; then no trace is run. No write to `out` may have failed before.
///
/// The status says how it went, and each has its cause: `ReadFault` comes only where
/// the count of faults of `src` rose, or stood at 2^64 - 1, and `WriteFault` exactly
/// where a write to `out` failed. After that nothing was written.
pub fn run<S: Source, K: Sink>(alloc: Global, words: &[String], src: &mut S, out: &mut K) -> Status
    requires unfailed { K.failed out.old ≡ false }
    ensures prints { IfSome (S.left src.old)
        (λ input. Prints (map string_bytes words.now) rounds_limit (take 16777217 input) (K.written out.old) (K.written out.new) result) }
    ensures read { ReadCause (S.faults src.old) (S.faults src.new) result }
    ensures write { WriteCause (K.faults out.old) (K.faults out.new) result }
    ensures failed { K.failed out.new ≡ status_is_write_fault result }
{
    run_within(alloc, words, ROUNDS, src, out)
}
