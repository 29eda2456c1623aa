ghost use Rattle.std.specs.Prelude.{◌≡◌, false};
ghost use Rattle.core_views.specs.Traces.{IsTrace};
ghost use Rattle.weave_engine.specs.Writes.{WritesReplay};
ghost use Rattle.weave_engine.specs.Woven.{RanFaults, ran_failed};

use core_views::{NoMemory, Trace};
use std::alloc::Global;
use table_seats::TableMachine;
use tdp_io::Sink;
use weave_engine::{Ran, replay_answers_on};

/// Runs the lines of the trace one after another, each alone, a step at a time
/// over the words of the machine, and writes what they are answered. It gives how it
/// ended, which is never unfinished, and the words and hands at that moment: after
/// the last line, or after the line with whose answer a write failed. Then nothing more
/// is written, and at most 8,192 bytes and the last line are missing.
pub fn replay<K: Sink>(alloc: Global, trace: &Trace, out: &mut K) -> Result<Ran, NoMemory>
    requires trace { IsTrace trace.now }
    requires unfailed { K.failed out.old ≡ false }
    ensures writes { WritesReplay trace.now (K.written out.old) (K.written out.new) result }
    ensures faults { RanFaults (K.faults out.old) (K.faults out.new) result }
    ensures failed { K.failed out.new ≡ ran_failed result }
{
    let mut machine = TableMachine::new(alloc, trace)?;
    let how = replay_answers_on(alloc, &mut machine, trace, out)?;
    Ok(Ran {
        how,
        closing: machine.into_closing(),
    })
}
