ghost use Rattle.std.specs.Prelude.{◌≡◌, ◌≤◌, IfOk, IfSome, false, length, map, string_bytes, take};
ghost use Rattle.run_status.specs.Statuses.{ReadCause, WriteCause, status_is_write_fault};
ghost use Rattle.core_views.specs.Need.{need as need_of};
ghost use Rattle.core_views.specs.Traces.{IsTrace};
ghost use Rattle.tdpmmu.specs.Output.{check_text};
ghost use Rattle.tdp_io.specs.Ends.{Wrote, WroteFaults, is_failed};
ghost use Rattle.tdpmmu.specs.Run.{command_named as named, command_of, Prints, RunsTo};
ghost use Rattle.tdpmmu.specs.Steps.{WritesLive, WritesOutput};

use crate::command::Command;
use core_views::{NoMemory, Trace};
use live_engine::{live, replay};
use run_status::{ROUNDS, Status, ended, refuse, usage};
use std::alloc::{AllocError, Global};
use std::sync::Wait;
use std::thread::Threads;
use tdp_io::{Gate, Sink, Source, Stop, write_all};
use trace_reader::{Read, need, read_trace};
use weave_engine::{status_of, weave};

const USAGE: &str = "usage: tdpmmu check | replay | weave | live | gen N\n";

#[tactic(auto, unfolding(crate::specs::Output::check_text))]
fn check_line(alloc: Global, lines: usize, need: u64) -> Result<String, AllocError>
    ensures { IfOk result (λ t. string_bytes t ≡ check_text lines need) }
{
    format!(in alloc; "ok {lines} need {need}\n")
}

// Writes how long the trace is and what it needs.
fn check<K: Sink>(alloc: Global, trace: &Trace, out: &mut K) -> Result<(), Stop>
    requires unfailed { K.failed out.old ≡ false }
    ensures bytes { Wrote (K.written out.old) (K.written out.new) result (check_text (length trace.now.lines) (need_of trace.now.header trace.now.lines)) }
    ensures faults { WroteFaults (K.faults out.old) (K.faults out.new) result }
    ensures failed { K.failed out.new ≡ is_failed result }
{
    let Ok(need) = need(alloc, trace) else {
        return Err(Stop::NoMemory);
    };
    let Ok(text) = check_line(alloc, trace.lines.as_slice().len(), need) else {
        return Err(Stop::NoMemory);
    };
    write_all(out, text.as_bytes())
}

// The command that the words name, if they name one.
fn asked(words: &[String]) -> Option<Command>
    ensures { result ≡ command_of (map string_bytes words.now) }
{
    match words {
        [_, word] => command_named(word.as_str()),
        _ => None,
    }
}

fn command_named(word: &str) -> Option<Command>
    ensures { result ≡ named word.now }
{
    if word == "check" {
        Some(Command::Check)
    } else if word == "replay" {
        Some(Command::Replay)
    } else if word == "weave" {
        Some(Command::Weave)
    } else if word == "live" {
        Some(Command::Live)
    } else {
        None
    }
}

// Runs the trace with a thread for each actor, and writes what that leaves.
fn run_live<R: Threads + Wait + Sync, K: Sink, G: Gate + Sync>(
    rt: &R,
    alloc: Global,
    trace: &Trace,
    out: &mut K,
    gate: &G,
) -> Result<(), Stop>
    requires trace { IsTrace trace.now }
    requires unfailed { K.failed out.old ≡ false }
    ensures bytes { WritesLive trace.now (K.written out.old) (K.written out.new) result }
    ensures faults { WroteFaults (K.faults out.old) (K.faults out.new) result }
    ensures failed { K.failed out.new ≡ is_failed result }
{
    let Ok(gathered) = live(rt, alloc, trace, gate) else {
        return Err(Stop::NoMemory);
    };
    write_all(out, gathered.text.as_bytes())
}

// The input is this trace.
fn run_trace<R: Threads + Wait + Sync, K: Sink, G: Gate + Sync>(
    rt: &R,
    alloc: Global,
    command: Command,
    trace: &Trace,
    out: &mut K,
    gate: &G,
) -> Status
    requires trace { IsTrace trace.now }
    requires unfailed { K.failed out.old ≡ false }
    ensures written { WritesOutput command trace.now (K.written out.old) (K.written out.new) result }
    ensures write { WriteCause (K.faults out.old) (K.faults out.new) result }
    ensures failed { K.failed out.new ≡ status_is_write_fault result }
{
    match command {
        Command::Check => ended(check(alloc, trace, out)),
        Command::Replay => status_of(replay(alloc, trace, out)),
        Command::Weave => status_of(weave(alloc, trace, ROUNDS, out)),
        Command::Live => ended(run_live(rt, alloc, trace, out, gate)),
    }
}

/// The whole program: runs the command that `words` name, the program's name
/// first, on the trace that `src` has left, and writes to `out` all that there
/// is to say. Today the commands are `check`, `replay`, `weave` and `live`; any other words
/// are answered by the usage line. `live` runs each actor in a thread of its own where threads
/// can be made, and passes `gate` before each turn. It isn't proved to return; what runs the
/// other commands is.
/// No write to `out` may have failed before.
///
/// The status says how it went, and each has its cause: `ReadFault` comes only where
/// the count of faults of `src` rose, or stood at 2^64 - 1, and `WriteFault` exactly
/// where a write to `out` failed. After that nothing was written. At `WriteFault`, and at
/// `NoMemory` but where nothing is written, what the first lines or turns print is written
/// but for at most 8,192 bytes and its last line; of `live`, which writes at its end, some
/// first part.
pub fn run<R: Threads + Wait + Sync, S: Source, K: Sink, G: Gate + Sync>(
    rt: &R,
    alloc: Global,
    words: &[String],
    src: &mut S,
    out: &mut K,
    gate: &G,
) -> Status
    requires unfailed { K.failed out.old ≡ false }
    ensures runs { RunsTo (command_of (map string_bytes words.now)) (record {
      left = S.left src.old;
      left_after = S.left src.new;
      ended = S.ended src.new;
      written = K.written out.old;
      written_after = K.written out.new;
    }) result }
    ensures prints { IfSome (S.left src.old)
        (λ input. Prints (command_of (map string_bytes words.now)) (take 16777217 input) (K.written out.old) (K.written out.new) result) }
    ensures read { ReadCause (S.faults src.old) (S.faults src.new) result }
    ensures write { WriteCause (K.faults out.old) (K.faults out.new) result }
    ensures failed { K.failed out.new ≡ status_is_write_fault result }
{
    let Some(command) = asked(words) else {
        return usage(USAGE, out);
    };
    match read_trace(alloc, src) {
        Err(NoMemory) => Status::NoMemory,
        Ok(Read::ReadFault) => Status::ReadFault,
        Ok(Read::Refused { line, reason }) => refuse(alloc, line, reason, out),
        Ok(Read::Trace(trace)) => run_trace(rt, alloc, command, &trace, out, gate),
    }
}
