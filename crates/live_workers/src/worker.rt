//! A worker: the pass with one actor's hand, and how it went.
ghost use Rattle.std.specs.Prelude.{◌≡◌, List, false, length};
ghost use Rattle.core_views.specs.declared.kind.Kind.{Kind};
ghost use Rattle.mmu_core.specs.machine.Machine.{Step};
ghost use Rattle.live_workers.specs.Posts.{AllHaveRun, AllPosted, AnyHand, HasRun, IsPosted};

use crate::run_lines;
use std::marker::Model;
use std::sync::Wait;
use std::thread;
use std::thread::Threads;
use table_seats::{Board, Pass, TableSeat};
use tdp_io::Gate;

/// The pass with one actor's hand, and whether memory for one of its lines was refused.
#[derive(Drop)]
pub struct Worker {
    pass: Option<Pass>,
    actor: usize,
    failed: bool,
}

impl Model for Worker {
    ghost use Rattle.std.specs.Prelude.{◌≡◌, Some};
    ghost use Rattle.live_workers.specs.Posts.{Post, pass_of};

    ghost Value = { Post };

    ghost view = { λ w. record { pass = pass_of w.pass; actor = w.actor; failed = w.failed } };

    ghost invariant = { λ w. (t : _) × (w.pass ≡ Some t) };
}

impl Worker {
    /// The worker of the actor whose hand this pass has.
    pub fn new(pass: Pass, actor: usize) -> Worker
        ensures { (result.pass ≡ pass) × (result.actor ≡ actor) × (result.failed ≡ false) }
    {
        Worker {
            pass: Some(pass),
            actor,
            failed: false,
        }
    }

    /// Whether memory for one of its lines was refused.
    pub fn has_failed(&self) -> bool
        ensures { result ≡ self.now.failed }
    {
        self.failed
    }

    /// Its pass.
    pub fn into_pass(self) -> Pass
        ensures { result ≡ self.pass }
    {
        let Worker { pass, .. } = self;
        let Some(pass) = pass else { unreachable!() };
        pass
    }

    /// Runs its lines to their answers, beside whoever runs those of other actors. Where memory
    /// for a line is refused, it ends before this line. It shares nothing but the board and the
    /// gate.
    pub fn work<R: Wait, G: Gate>(&mut self, rt: &R, board: &Board, gate: &G)
        requires post { (past : List (Step Kind)) × IsPosted board.now past self.old.pass self.old.actor AnyHand }
        ensures actor { self.new.actor ≡ self.old.actor }
        ensures ran { (past : List (Step Kind)) → IsPosted board.now past self.old.pass self.old.actor AnyHand
            → IsPosted board.now past self.new.pass self.old.actor (HasRun self.new.failed) }
    {
        let Some(pass) = self.pass.take() else {
            unreachable!()
        };
        let mut seat = TableSeat::seat(board, pass, self.actor);
        self.failed = run_lines(rt, gate, &mut seat).is_err();
        self.pass = Some(seat.into_pass());
    }
}

/// All workers at once, a thread for each: std's fork runs one after another where no thread
/// can be made.
pub fn run_all<R: Threads + Wait + Sync, G: Gate + Sync>(
    rt: &R,
    board: &Board,
    gate: &G,
    workers: &mut [Worker],
)
    requires posted { (past : List (Step Kind)) × AllPosted board.now past workers.old }
    ensures count { length workers.new ≡ length workers.old }
    ensures ran { (past : List (Step Kind)) → AllPosted board.now past workers.old → AllHaveRun board.now past workers.new }
{
    let count = workers.len();
    if count > 0 {
        thread::for_each_mut(
            rt,
            workers,
            count,
            &|_, worker| worker.work(rt, board, gate),
        );
    }
}
