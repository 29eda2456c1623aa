//! One turn of an actor of the machine: the next step of its line.
ghost use Rattle.std.specs.Prelude.{◌≡◌, ◌<◌, IfOk, OnErr, length, true};
ghost use Rattle.core_views.specs.declared.place.Place.TheVariants.{Between};
ghost use Rattle.mmu_core.specs.machine.Enabled.{mmu};
ghost use Rattle.mmu_core.specs.machine.Machine.{hand_in};
ghost use Rattle.mmu_core.specs.machine.Steps.{has_line};
ghost use Rattle.step_seats.specs.Machines.{KeepsSizes, world_in};
ghost use Rattle.step_seats.specs.Moves.{handful_in};
ghost use Rattle.turn_loops.specs.Turned.{TurnedOn, TurnedTold, next_code_in};

use core_views::{Actor, NoMemory};
use step_seats::{ActorSeat, MachineOwner, Stepper, Turn, next_kind, rests, take_turn};

/// A turn that an actor has made: of which line, and how it ended. Where the line is
/// answered, the actor's hand has the answer.
#[derive(Clone, Copy, Drop)]
pub struct TurnMade {
    pub number: u32,
    pub actor: Actor,
    pub turn: Turn<()>,
}

/// What became of an actor's turn.
#[derive(Clone, Copy, Drop)]
pub enum Turned {
    /// The actor has no line left, so it made no step.
    NoLine,
    /// It made a step, and its line goes on.
    Went,
    /// It made a step, with which its line is answered, waits or begins anew.
    Stopped,
}

// Makes the actor's next turn, where it has a line left. Memory is refused only
// where this line begins; then no step is made.
fn next_turn<S: Stepper>(s: &mut S) -> Result<Option<TurnMade>, NoMemory>
    ensures turned { IfOk result (λ made. TurnedTold made (S.seat s.old).actor (S.seat s.old).tells.world (S.seat s.new).tells.world) }
    ensures begins { OnErr result ((S.seat s.old).hand.state.place ≡ Between) }
    ensures refused { OnErr result ((S.seat s.new).tells ≡ (S.seat s.old).tells) }
    ensures same { ((S.seat s.new).actor ≡ (S.seat s.old).actor) × (S.frame s.new ≡ S.frame s.old) }
{
    let hand = s.hand();
    if !hand.has_line() {
        return Ok(None);
    }
    let number = hand.line().number;
    let actor = hand.progress().actor;
    let turn = take_turn(s)?;
    Ok(Some(TurnMade {
        number,
        actor,
        turn,
    }))
}

/// Makes the next turn of the actor at this place, where it has a line left.
/// Memory is refused only where this line begins; then nothing has changed.
pub fn turn_on<M: MachineOwner>(machine: &mut M, index: usize) -> Result<Option<TurnMade>, NoMemory>
    requires there { index < length (M.machine machine.old).hands }
    ensures turned { IfOk result (λ made. TurnedOn made index (world_in (M.machine machine.old)) (world_in (M.machine machine.new))) }
    ensures begins { OnErr result ((handful_in (M.machine machine.old).hands index).core.state.place ≡ Between) }
    ensures refused { OnErr result (world_in (M.machine machine.new) ≡ world_in (M.machine machine.old)) }
    ensures same { KeepsSizes (M.machine machine.old) (M.machine machine.new) }
{
    let mut seat = ActorSeat { machine, index };
    next_turn(&mut seat)
}

/// The number of the kind of step that the actor at this place makes next, where
/// it has a line left.
pub fn next_code<M: MachineOwner>(machine: &M, index: usize) -> u8
    requires there { index < length (M.machine machine.now).hands }
    ensures { has_line (hand_in mmu (world_in (M.machine machine.now)) index) ≡ true
        → result ≡ next_code_in (hand_in mmu (world_in (M.machine machine.now)) index) }
{
    let hand = machine.hand(index);
    if !hand.has_line() {
        return 0;
    }
    rests(hand);
    next_kind(hand).code
}
