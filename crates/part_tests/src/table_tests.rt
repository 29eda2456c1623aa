//! Passes of one board on one thread: steps of one processor, a split, steps of both, a join
//! and a close.
ghost use Rattle.std.specs.Prelude.{◌≡◌, IfOk};
ghost use Rattle.core_views.specs.Traces.{IsTrace};
ghost use Rattle.table_seats.specs.Boards.{Fits};

use crate::{HEAD, trace_of};
use core_views::{Answer, NoMemory, Trace};
use std::alloc::Global;
use step_seats::{Closing, Hand, Stepper, next_kind, rests};
use table_seats::{Board, Pass, TableSeat};

// The places of the two processors among all actors.
const FIRST: usize = 0;

const SECOND: usize = 1;

// The next step of the seat's line, where it has one left.
fn step<S: Stepper>(seat: &mut S) -> Result<(), NoMemory>
    ensures same { S.frame seat.new ≡ S.frame seat.old }
{
    seat.reserve()?;
    let hand = seat.hand();
    if hand.next_line().is_some() {
        rests(hand);
        let kind = next_kind(hand);
        let _ = seat.act(kind);
    }
    Ok(())
}

// A step of the actor, where the pass keeps its hand.
fn step_with(board: &Board, pass: Pass, actor: usize) -> Result<Pass, NoMemory>
    requires fits { Fits board.now pass }
    ensures fits { IfOk result (λ p. Fits board.now p) }
{
    if !pass.keeps(actor) {
        return Ok(pass);
    }
    let mut seat = TableSeat::seat(board, pass, actor);
    step(&mut seat)?;
    Ok(seat.into_pass())
}

// Five steps of the first processor; then its pass and one with the hand of the second make
// steps by turns, until neither has a line left, and come together.
fn part_and_join(alloc: Global, board: &Board, mut pass: Pass) -> Result<Pass, NoMemory>
    requires fits { Fits board.now pass }
    ensures fits { IfOk result (λ p. Fits board.now p) }
{
    for _step in 0..5 {
        pass = step_with(board, pass, FIRST)?;
    }
    if !pass.keeps(SECOND) {
        return Ok(pass);
    }
    let mut own = TableSeat::split(alloc, board, &mut pass, SECOND)?;
    for _turn in 0..50 {
        own = step_with(board, own, SECOND)?;
        pass = step_with(board, pass, FIRST)?;
    }
    TableSeat::join(board, &mut pass, own);
    Ok(pass)
}

// The same at the start of a trace, and the close.
fn run(alloc: Global, trace: &Trace) -> Result<Option<Closing>, NoMemory>
    requires trace { IsTrace trace.now }
{
    let (board, pass) = TableSeat::make(alloc, trace)?;
    let pass = part_and_join(alloc, &board, pass)?;
    if !pass.has_all() {
        return Ok(None);
    }
    Ok(TableSeat::close(alloc, board, pass).ok())
}

// How many answers the hand has, where the first is an MMIO exit.
fn exits(hand: Option<&Hand>) -> usize {
    let Some(hand) = hand else {
        return 0;
    };
    match hand.answers().first() {
        Some(line) if matches!(line.answer, Answer::Mmio) => hand.answers().len(),
        _ => 0,
    }
}

// What is found at the close: how many MMIO exits each processor has, the words of the
// published slot set and of the pool's map, and how many words there are.
#[derive(Clone, Copy, PartialEq, Eq, Drop)]
struct Closed {
    exits: [usize; 2],
    slots: u64,
    pool: u64,
    words: usize,
}

fn found_in(closing: &Closing) -> Closed {
    let hands = closing.hands.as_slice();
    let words = closing.words.as_slice();
    Closed {
        exits: [exits(hands.get(FIRST)), exits(hands.get(SECOND))],
        slots: words.get(1).copied().unwrap_or(0),
        pool: words.get(12).copied().unwrap_or(0),
        words: words.len(),
    }
}

// The same of the trace of two accesses of a guest frame that no slot has, if it comes to a close.
fn run_accesses(alloc: Global) -> Option<Closed> {
    let Some(trace) = trace_of(alloc, HEAD, "v0 read 0x5008\nv1 read 0x5008\n") else {
        return None;
    };
    match run(alloc, &trace) {
        Ok(Some(closing)) => Some(found_in(&closing)),
        _ => None,
    }
}

/// Whether passes part and come together.
pub fn passes_come_together(alloc: Global) -> bool {
    let wanted = Closed {
        exits: [1, 1],
        slots: 1,
        pool: 12,
        words: 2400,
    };
    run_accesses(alloc) == Some(wanted)
}
