//! Machines of traces that are written as text.
ghost use Rattle.std.specs.Prelude.{◌≡◌, ◌<◌, IfSome, length, true};
ghost use Rattle.core_views.specs.Sizes.{index_of};
ghost use Rattle.core_views.specs.Traces.{IsTrace};

use core_views::{Actor, Trace};
use std::alloc::{AllocError, Global};
use step_seats::{MachineOwner, PlainMachine};
use tdp_io::MemSource;
use trace_reader::{Read, read_trace};

/// The header of a trace with two virtual processors, 70 host pages at 130 frames of two
/// words, four pool pages and one host thread.
pub const HEAD: &str =
    "tdp 1 vcpus 2 workers 0 pages 70 frames 130 words 2 pool 4 cache 64 manual 0 hosts 0\n";

/// The same with eight pool pages.
pub const HEAD_OF_POOL_8: &str =
    "tdp 1 vcpus 2 workers 0 pages 70 frames 130 words 2 pool 8 cache 64 manual 0 hosts 0\n";

fn source_of(alloc: Global, head: &str, lines: &str) -> Result<MemSource, AllocError> {
    let mut bytes = head.as_bytes().to_vec(alloc)?;
    bytes.extend_from_slice(lines.as_bytes())?;
    Ok(MemSource::new(bytes, Vec::new(alloc)))
}

/// The trace that has this header and these lines.
pub fn trace_of(alloc: Global, head: &str, lines: &str) -> Option<Trace>
    ensures { IfSome result (λ trace. IsTrace trace) }
{
    let Ok(mut source) = source_of(alloc, head, lines) else {
        return None;
    };
    match read_trace(alloc, &mut source) {
        Ok(Read::Trace(trace)) => Some(trace),
        _ => None,
    }
}

/// The machine of the trace, at its start.
pub fn machine_of(alloc: Global, head: &str, lines: &str) -> Option<PlainMachine> {
    match trace_of(alloc, head, lines) {
        Some(trace) => PlainMachine::new(alloc, &trace).ok(),
        None => None,
    }
}

/// Whether the machine has this actor.
pub fn has_actor(machine: &PlainMachine, actor: Actor) -> bool
    ensures { result ≡ true → index_of machine.now.sizes actor < length machine.now.hands }
{
    let sizes = machine.sizes();
    sizes.index_of(actor) < sizes.actors()
}
