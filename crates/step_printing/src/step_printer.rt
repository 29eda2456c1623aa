//! Prints each step of a run.
ghost use Rattle.std.specs.Prelude.{◌≡◌, string_bytes};
ghost use Rattle.core_views.specs.Sizes.{AreSizes};
ghost use Rattle.std.proofs.Common.{◌∙◌, refl};
ghost use Rattle.step_printing.specs.PutLaws.{both_put, nothing_put, nothing_stopped, then_stopped};
ghost use Rattle.step_printing.specs.Puts.{MayPrint, PutsSteps, StopsSteps, printed_by};
ghost use Rattle.step_printing.specs.Tells.{is_going};

use crate::lines::Lines;
use crate::row::next_row;
use crate::view::MadeTurn;
use core_views::{Item, Line};
use step_seats::{MachineOwner, PlainMachine, Turn};
use tdp_io::{Sink, Stop, write_all};
use weave_engine::{Printer, TurnPrinter, Turned, run_by_turns, turn_on, write_piece};

/// Prints each step in pieces of 8,192 bytes or a little more, and at the end.
#[derive(Drop)]
pub struct StepPrinter<'a, K> {
    pub out: &'a mut K,
    /// What waits to be written.
    pub waiting: &'a mut String,
    /// How far the lines of the run have come.
    pub lines: Lines,
}

// Whether the line goes on with the turn.
fn is_going(turn: &Turn<()>) -> bool
    ensures { result ≡ is_going turn.now }
{
    match turn {
        Turn::More => true,
        _ => false,
    }
}

impl<K: Sink> TurnPrinter<PlainMachine> for StepPrinter<'_, K> {
    ghost ready = { λ p.
        MayPrint (printed_by (K.written p.out.now) (K.faults p.out.now) (K.failed p.out.now) (string_bytes p.waiting.now) p.lines) };

    ghost prints = { λ p marks q.
        PutsSteps (printed_by (K.written p.out.now) (K.faults p.out.now) (K.failed p.out.now) (string_bytes p.waiting.now) p.lines) marks
        (printed_by (K.written q.out.now) (K.faults q.out.now) (K.failed q.out.now) (string_bytes q.waiting.now) q.lines)
        × (q.out.ghost_name ≡ p.out.ghost_name) };

    ghost stops = { λ p marks stop q.
        StopsSteps (printed_by (K.written p.out.now) (K.faults p.out.now) (K.failed p.out.now) (string_bytes p.waiting.now) p.lines) marks stop
        (printed_by (K.written q.out.now) (K.faults q.out.now) (K.failed q.out.now) (string_bytes q.waiting.now) q.lines)
        × (q.out.ghost_name ≡ p.out.ghost_name) };

    fn turn(&mut self, machine: &mut PlainMachine, index: usize) -> Result<Turned, Stop> {
        if !machine.hand(index).has_line() {
            return Ok(Turned::NoLine);
        }
        let lines = self.lines;
        let row = next_row(machine, &lines.sizes, index, lines.reach.number);
        let Ok(Some(made)) = turn_on(machine, index) else {
            return Err(Stop::NoMemory);
        };
        let shown = MadeTurn::of(row, made.number, &made.turn);
        let Ok(after) = lines.put_turn(self.waiting, machine, index, &shown, made.turn) else {
            return Err(Stop::NoMemory);
        };
        self.lines = after;
        write_piece(self.out, self.waiting)?;
        if is_going(&made.turn) {
            return Ok(Turned::Went);
        }
        Ok(Turned::Stopped)
    }

    ghost nothing = { λ p ready. (
      nothing_put (printed_by (K.written p.out.now) (K.faults p.out.now) (K.failed p.out.now) (string_bytes p.waiting.now) p.lines)
          ready,
      refl,
    ) };

    ghost goes_on = { λ p q marks put. put.0.may };

    ghost then = { λ p q r marks more first second. (
      both_put (printed_by (K.written p.out.now) (K.faults p.out.now) (K.failed p.out.now) (string_bytes p.waiting.now) p.lines)
          (printed_by (K.written q.out.now) (K.faults q.out.now) (K.failed q.out.now) (string_bytes q.waiting.now) q.lines)
          (printed_by (K.written r.out.now) (K.faults r.out.now) (K.failed r.out.now) (string_bytes r.waiting.now) r.lines)
          marks more first.0 second.0,
      second.1 ∙ first.1,
    ) };

    ghost refused = { λ p ready. (
      nothing_stopped (printed_by (K.written p.out.now) (K.faults p.out.now) (K.failed p.out.now) (string_bytes p.waiting.now) p.lines)
          ready,
      refl,
    ) };

    ghost stopped = { λ p q r marks more stop first second. (
      then_stopped (printed_by (K.written p.out.now) (K.faults p.out.now) (K.failed p.out.now) (string_bytes p.waiting.now) p.lines)
          (printed_by (K.written q.out.now) (K.faults q.out.now) (K.failed q.out.now) (string_bytes q.waiting.now) q.lines)
          (printed_by (K.written r.out.now) (K.faults r.out.now) (K.failed r.out.now) (string_bytes r.waiting.now) r.lines)
          marks more stop first.0 second.0,
      second.1 ∙ first.1,
    ) };
}

impl<K: Sink> Printer<PlainMachine> for StepPrinter<'_, K> {
    fn line(&mut self, machine: &mut PlainMachine, line: &Line) -> Result<(), Stop> {
        run_by_turns(self, machine, line)
    }

    fn item(&mut self, item: &Item) -> Result<(), Stop> {
        let lines = self.lines;
        let Ok(after) = lines.put_item(self.waiting, item) else {
            return Err(Stop::NoMemory);
        };
        self.lines = after;
        write_piece(self.out, self.waiting)?;
        Ok(())
    }

    fn rounds(&mut self) -> Result<(), Stop> {
        let lines = self.lines;
        let Ok(after) = lines.put_rounds(self.waiting) else {
            return Err(Stop::NoMemory);
        };
        self.lines = after;
        write_piece(self.out, self.waiting)?;
        Ok(())
    }

    fn over(&mut self, first: Option<&Line>) -> Result<(), Stop> {
        let lines = self.lines;
        let Ok(after) = lines.put_open(self.waiting, first) else {
            return Err(Stop::NoMemory);
        };
        self.lines = after;
        write_all(self.out, self.waiting.as_bytes())?;
        self.waiting.clear();
        Ok(())
    }
}
