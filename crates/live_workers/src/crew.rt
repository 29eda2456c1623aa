//! The board of a trace, and a worker for each actor.
ghost use Rattle.std.specs.Prelude.{◌≡◌, ◌<◌, ℕ, IfOk, List, Some, length};
ghost use Rattle.core_views.specs.declared.kind.Kind.{Kind};
ghost use Rattle.core_views.specs.Held.{Handful};
ghost use Rattle.core_views.specs.Traces.{IsTrace};
ghost use Rattle.mmu_core.specs.machine.Enabled.{mmu};
ghost use Rattle.mmu_core.specs.machine.Machine.{Step, hand_in, run};
ghost use Rattle.table_seats.specs.Boards.{AllHands, Fits, begun};
ghost use Rattle.table_seats.specs.Passes.{steps_before_split};
ghost use Rattle.table_seats.specs.Rule.{Holds};
ghost use Rattle.live_workers.specs.Crews.{HasNoHand, HasWorked, IsCollected, IsMustered};
ghost use Rattle.live_workers.specs.Posts.{AllAsSplit, AllHaveRun, AllPosted, BringHands, HasRun};

use crate::{Worker, run_all};
use core_views::{NoMemory, Trace};
use std::alloc::Global;
use std::sync::Wait;
use std::thread::Threads;
use step_seats::MachineOwner;
use table_seats::{Board, Pass, TableMachine, TableSeat};
use tdp_io::Gate;
use turn_loops::run_alone;

/// A board, its first pass, whose hands are all with workers, and these: one for each actor, in
/// the order v0.., h0.., vm, w0...
#[derive(Drop)]
pub struct Crew {
    pub board: Board,
    pub pass: Pass,
    pub workers: Vec<Worker>,
}

// Splits the hand of each actor off the first pass of a board, which has all hands, and posts
// it with a worker.
fn post_all(
    alloc: Global,
    board: &Board,
    pass: &mut Pass,
    actors: usize,
) -> Result<Vec<Worker>, NoMemory>
    requires fits { Fits board.now pass.old }
    requires full { AllHands pass.old.hands }
    requires wide { length board.now.start.hands ≡ actors }
    requires some { 0 < actors }
    requires world { (i : ℕ) (h : Handful) → Holds pass.old.hands i h
        → h.core ≡ hand_in mmu (run mmu (begun board.now.start) pass.old.knows.past) i }
    ensures first { IfOk result (λ _. HasNoHand board.now pass.old.knows.past pass.new) }
    ensures workers { IfOk result (λ v. (length v.items ≡ actors) × AllPosted board.now pass.old.knows.past v.items) }
    ensures as_split { IfOk result (λ v. AllAsSplit board.now pass.old.knows.past v.items) }
{
    let mut workers = Vec::with_capacity(alloc, actors)?;
    for actor in 0..actors {
        let own = TableSeat::split(alloc, board, pass, actor)?;
        workers.push(Worker::new(own, actor))?;
    }
    Ok(workers)
}

/// Runs the lines above `go`, each alone, in file order, and gives the hand of each actor to a
/// worker.
pub fn muster(alloc: Global, trace: &Trace) -> Result<Crew, NoMemory>
    requires trace { IsTrace trace.now }
    ensures mustered { IfOk result (IsMustered trace.now) }
{
    let mut machine = TableMachine::new(alloc, trace)?;
    let above = trace.go.unwrap_or(0) as usize;
    run_alone(&mut machine, trace.lines.as_slice(), above)?;
    let actors = machine.sizes().actors() as usize;
    let (board, mut pass) = machine.into_parts();
    let workers = post_all(alloc, &board, &mut pass, actors)?;
    Ok(Crew {
        board,
        pass,
        workers,
    })
}

impl Crew {
    /// All workers at once: each runs the lines of its actor, in a thread of its own.
    pub fn work<R: Threads + Wait + Sync, G: Gate + Sync>(&mut self, rt: &R, gate: &G)
        requires mustered { (trace : _) × IsMustered trace self.old }
        ensures worked { (trace : _) → IsMustered trace self.old → HasWorked trace self.new }
        ensures board { self.new.board ≡ self.old.board }
    {
        run_all(rt, &self.board, gate, self.workers.as_mut_slice());
    }
}

// Joins the passes of all workers to the first one. It answers whether memory for a line was
// refused to one of them.
fn join_all(board: &Board, pass: &mut Pass, workers: Vec<Worker>) -> bool
    requires fits { Fits board.now pass.old }
    requires ran { (past : List (Step Kind)) × AllHaveRun board.now past workers.items }
    requires count { length workers.items ≡ length board.now.start.hands }
    ensures fits { Fits board.now pass.new }
    ensures split { (past : List (Step Kind)) → steps_before_split pass.old.knows ≡ Some past → steps_before_split pass.new.knows ≡ Some past }
    ensures hands { (i : ℕ) → i < length board.now.start.hands → (h : Handful) × Holds pass.new.hands i h × HasRun result h }
    ensures brought { BringHands workers.items pass.new.hands }
{
    let mut failed = false;
    for worker in workers {
        failed |= worker.has_failed();
        TableSeat::join(board, pass, worker.into_pass());
    }
    failed
}

/// The board, and one pass with every hand, once all workers have ended. Where memory for a line
/// was refused to one of them, board and workers are given up.
pub fn collect(crew: Crew) -> Result<(Board, Pass), NoMemory>
    requires worked { (trace : _) × HasWorked trace crew }
    ensures collected { (trace : _) → HasWorked trace crew → IfOk result (λ r. IsCollected trace r.0 r.1) }
    ensures board { IfOk result (λ r. r.0 ≡ crew.board) }
    ensures hands { IfOk result (λ r. BringHands crew.workers.items r.1.hands) }
{
    let Crew {
        board,
        mut pass,
        workers,
    } = crew;
    if join_all(&board, &mut pass, workers) {
        return Err(NoMemory);
    }
    Ok((board, pass))
}
