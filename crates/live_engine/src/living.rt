//! A whole live run.
ghost use Rattle.std.specs.Prelude.{IfOk, string_bytes};
ghost use Rattle.core_views.specs.Traces.{IsTrace};
ghost use Rattle.step_seats.specs.Moves.{world_of};
ghost use Rattle.live_engine.specs.Lives.{LivesAll};

use crate::{Gathered, gather};
use core_views::{NoMemory, Trace};
use live_workers::muster;
use std::alloc::Global;
use std::sync::Wait;
use std::thread::Threads;
use tdp_io::Gate;

/// Runs the lines above `go` alone, and then all actors at once, each in a thread of its own where
/// threads can be made, to their last answers. It says what each line was answered, in file order,
/// and what guest memory holds then. Which order of steps it was isn't told, and it isn't proved to
/// return.
pub fn live<R: Threads + Wait + Sync, G: Gate + Sync>(
    rt: &R,
    alloc: Global,
    trace: &Trace,
    gate: &G,
) -> Result<Gathered, NoMemory>
    requires trace { IsTrace trace.now }
    ensures lives { IfOk result (λ g. LivesAll trace.now (string_bytes g.text) (world_of g.closing.words g.closing.hands)) }
{
    let mut crew = muster(alloc, trace)?;
    crew.work(rt, gate);
    gather(alloc, trace, crew)
}
