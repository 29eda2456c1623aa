//! The lines of one actor, turn by turn, beside those of all others.
ghost use Rattle.std.specs.Prelude.{◌≡◌, OnErr, OnOk, false};
ghost use Rattle.core_views.specs.declared.place.Place.TheVariants.{Between};
ghost use Rattle.mmu_core.specs.machine.Steps.{has_line};
ghost use Rattle.mmu_core.specs.machine.Turns.{IsSameHand};

use core_views::NoMemory;
use std::sync::Wait;
use step_seats::{Stepper, take_turn};
use tdp_io::Gate;

/// Makes turns until all lines of the seat's actor are answered, or memory for one is refused:
/// then this line hasn't begun. The gate is passed before each turn. After a step that waits, or
/// with which a fault begins anew, the line's next step is made at once.
pub fn run_lines<R: Wait, G: Gate, S: Stepper>(rt: &R, gate: &G, s: &mut S) -> Result<(), NoMemory>
    ensures done { OnOk result (has_line (S.seat s.new).hand ≡ false) }
    ensures rests { OnErr result ((S.seat s.new).hand.state.place ≡ Between) }
    ensures hand { IsSameHand (S.seat s.old).hand (S.seat s.new).hand }
    ensures same { ((S.seat s.new).actor ≡ (S.seat s.old).actor) × (S.frame s.new ≡ S.frame s.old) }
{
    for _ in rt.forever() {
        let hand = s.hand();
        if !hand.has_line() {
            return Ok(());
        }
        let number = hand.line().number;
        let actor = hand.progress().actor;
        gate.pass(rt, actor, number);
        take_turn(s)?;
    }
    unreachable!()
}
