//! Prints what lines are answered, as `replay` and `weave` do.
ghost use Rattle.std.specs.Prelude.{◌≡◌, ◌++◌, ◌≤◌, ℕ, OnOk, false, length, string_bytes};
ghost use Rattle.std.specs.Option.{option_copied};
ghost use Rattle.core_views.specs.Text.{line_text};
ghost use Rattle.tdp_io.specs.Ends.{Wrote, WroteFaults, is_failed};
ghost use Rattle.weave_engine.specs.AnswerTexts.{FailedBy, NoneFailed, PutsAnswers, StopsAnswers};
ghost use Rattle.weave_engine.specs.Pieces.{most_waiting};
ghost use Rattle.turn_loops.specs.Weaves.{open_text, unfinished_text};
ghost use Rattle.std.proofs.Common.{◌∙◌, refl, subst};
ghost use Rattle.weave_engine.specs.PrinterLaws.{both_put, none_put, none_stopped, stops_put};

use crate::writing::put_answer;
use core_views::{Item, Line, NoMemory};
use step_seats::{MachineOwner, Turn};
use tdp_io::{Sink, Stop, write_all};
use turn_loops::{Printer, TurnPrinter, Turned, answer_to, last_answer, run_on, turn_on};

/// Puts out each answer when its line is answered, in pieces of 8,192 bytes or a little
/// more, and at the end.
#[derive(Drop)]
pub struct AnswerPrinter<'a, K> {
    pub out: &'a mut K,
    pub waiting: &'a mut String,
}

// Puts which line is the first without an answer.
#[tactic(auto, unfolding(turn_loops::specs::Weaves::unfinished_text))]
fn push_unfinished(text: &mut String, line: &Line) -> Result<(), NoMemory>
    ensures { OnOk result (string_bytes text.new ≡ string_bytes text.old ++ unfinished_text line.now) }
{
    let number = line.number;
    let actor = line.actor;
    write!(text, "unfinished {number} {actor}\n")?;
    Ok(())
}

/// Puts which line is the first without an answer after a text, if there is one.
pub fn push_open(text: &mut String, first: Option<&Line>) -> Result<(), NoMemory>
    ensures { OnOk result (string_bytes text.new ≡ string_bytes text.old ++ open_text (option_copied first.entry)) }
{
    match first {
        Some(line) => push_unfinished(text, line),
        None => Ok(()),
    }
}

impl<M: MachineOwner, K: Sink> TurnPrinter<M> for AnswerPrinter<'_, K> {
    ghost ready = { λ p. (K.failed p.out.now ≡ false) × (length (string_bytes p.waiting.now) ≤ most_waiting) };

    ghost prints = { λ p marks q. PutsAnswers (K.written p.out.now) (K.written q.out.now) (string_bytes p.waiting.now) (string_bytes q.waiting.now) marks
        × NoneFailed (K.faults p.out.now) (K.faults q.out.now) (K.failed q.out.now) × (q.out.ghost_name ≡ p.out.ghost_name) };

    ghost stops = { λ p marks stop q. StopsAnswers (K.written p.out.now) (K.written q.out.now) (string_bytes p.waiting.now) marks stop
        × FailedBy (K.faults p.out.now) (K.faults q.out.now) (K.failed q.out.now) stop × (q.out.ghost_name ≡ p.out.ghost_name) };

    fn turn(&mut self, machine: &mut M, index: usize) -> Result<Turned, Stop> {
        let Ok(made) = turn_on(machine, index) else {
            return Err(Stop::NoMemory);
        };
        let Some(made) = made else {
            return Ok(Turned::NoLine);
        };
        match made.turn {
            Turn::More => Ok(Turned::Went),
            Turn::Wait(_) | Turn::Retry(_) => Ok(Turned::Stopped),
            Turn::Done(()) => {
                let answer = last_answer(machine, index);
                put_answer(made.number, made.actor, answer, self.out, self.waiting)?;
                Ok(Turned::Stopped)
            }
        }
    }

    ghost nothing = { λ p ready. (none_put (K.written p.out.now) (string_bytes p.waiting.now) ready.1, (refl, ready.0), refl) };

    ghost goes_on = { λ p q marks put. (put.1.1, put.0.3) };

    ghost then = { λ p q r marks more first second. (
      both_put (K.written p.out.now) (K.written q.out.now) (K.written r.out.now) (string_bytes p.waiting.now)
          (string_bytes q.waiting.now) (string_bytes r.waiting.now) marks more first.0 second.0,
      (second.1.0 ∙ first.1.0, second.1.1),
      second.2 ∙ first.2,
    ) };

    ghost refused = { λ p ready. (none_stopped (K.written p.out.now) (string_bytes p.waiting.now) ready.1, (refl, ready.0), refl) };

    ghost stopped = { λ p q r marks more stop first second. (
      stops_put (K.written p.out.now) (K.written q.out.now) (K.written r.out.now)
          (string_bytes p.waiting.now) (string_bytes q.waiting.now) (string_bytes r.waiting.now) marks more stop first.0 second.0,
      subst (λ (n : ℕ). FailedBy n (K.faults r.out.now) (K.failed r.out.now) stop) first.1.0 second.1,
      second.2 ∙ first.2,
    ) };
}

impl<M: MachineOwner, K: Sink> Printer<M> for AnswerPrinter<'_, K> {
    fn line(&mut self, machine: &mut M, line: &Line) -> Result<(), Stop> {
        let Ok(()) = run_on(machine, line) else {
            return Err(Stop::NoMemory);
        };
        let answer = answer_to(machine, line.actor);
        put_answer(line.number, line.actor, answer, self.out, self.waiting)?;
        Ok(())
    }

    fn item(&mut self, _item: &Item) -> Result<(), Stop> {
        Ok(())
    }

    fn rounds(&mut self) -> Result<(), Stop> {
        Ok(())
    }

    fn over(&mut self, first: Option<&Line>) -> Result<(), Stop> {
        let Ok(()) = push_open(self.waiting, first) else {
            return Err(Stop::NoMemory);
        };
        write_all(self.out, self.waiting.as_bytes())?;
        self.waiting.clear();
        Ok(())
    }
}
