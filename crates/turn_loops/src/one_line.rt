//! One line on the machine, and what it was answered.
ghost use Rattle.std.specs.Prelude.{◌≡◌, ◌<◌, IfOk, OnErr, Some, length, slice_get};
ghost use Rattle.core_views.specs.declared.place.Place.TheVariants.{Between};
ghost use Rattle.core_views.specs.Sizes.{index_of};
ghost use Rattle.mmu_core.specs.machine.Enabled.{mmu};
ghost use Rattle.mmu_core.specs.alone.LineAlone.{LineAlone};
ghost use Rattle.mmu_core.specs.machine.Machine.{hand_in};
ghost use Rattle.step_seats.specs.Machines.{KeepsSizes, world_in};
ghost use Rattle.step_seats.specs.Moves.{handful_in};
ghost use Rattle.turn_loops.specs.Given.{IsLastAnswer, given_in};
ghost use Rattle.turn_loops.specs.Replays.{RanOn};

use crate::alone::run_line;
use core_views::{Actor, Answer, Line, NoMemory};
use step_seats::{ActorSeat, Hand, MachineOwner};

/// Runs the next line of an actor of the machine to its answer, which the actor's hand
/// has then, while all other actors rest. Where the memory that it needs is refused,
/// nothing has changed.
pub fn run_on<M: MachineOwner>(machine: &mut M, line: &Line) -> Result<(), NoMemory>
    requires there { index_of (M.machine machine.old).sizes line.now.actor < length (M.machine machine.old).hands }
    requires idle { (handful_in (M.machine machine.old).hands (index_of (M.machine machine.old).sizes line.now.actor)).core.state.place ≡ Between }
    requires next { slice_get (handful_in (M.machine machine.old).hands (index_of (M.machine machine.old).sizes line.now.actor)).core.lines
        (length (handful_in (M.machine machine.old).hands (index_of (M.machine machine.old).sizes line.now.actor)).core.answers) ≡ Some line.now }
    requires own { line.now.actor ≡ (handful_in (M.machine machine.old).hands (index_of (M.machine machine.old).sizes line.now.actor)).core.state.actor }
    requires alone { LineAlone (M.machine machine.old).sizes (world_in (M.machine machine.old)) (index_of (M.machine machine.old).sizes line.now.actor) }
    ensures ran { IfOk result
        (λ done. RanOn (M.machine machine.old).sizes line.now
        (given_in (index_of (M.machine machine.old).sizes line.now.actor) (world_in (M.machine machine.old)) (world_in (M.machine machine.new)))
        (index_of (M.machine machine.old).sizes line.now.actor) (world_in (M.machine machine.old)) (world_in (M.machine machine.new))) }
    ensures refused { OnErr result (world_in (M.machine machine.new) ≡ world_in (M.machine machine.old)) }
    ensures same { KeepsSizes (M.machine machine.old) (M.machine machine.new) }
{
    let index = machine.sizes().index_of(line.actor) as usize;
    let mut seat = ActorSeat { machine, index };
    run_line(&mut seat, line)
}

// What the last line of the hand that is answered was answered.
fn last_of(hand: &Hand) -> &Answer
    requires { 0 < length hand.now.core.answers }
    ensures { IsLastAnswer result.now hand.now.core }
{
    let answers = hand.answers();
    &answers[answers.len() - 1].answer
}

/// The same of the actor at this place.
pub fn last_answer<M: MachineOwner>(machine: &M, index: usize) -> &Answer
    requires there { index < length (M.machine machine.now).hands }
    requires answered { 0 < length (hand_in mmu (world_in (M.machine machine.now)) index).answers }
    ensures { IsLastAnswer result.now (hand_in mmu (world_in (M.machine machine.now)) index) }
{
    last_of(machine.hand(index))
}

/// The same of an actor that the machine has.
pub fn answer_to<M: MachineOwner>(machine: &M, actor: Actor) -> &Answer
    requires there { index_of (M.machine machine.now).sizes actor < length (M.machine machine.now).hands }
    requires answered { 0 < length (hand_in mmu (world_in (M.machine machine.now)) (index_of (M.machine machine.now).sizes actor)).answers }
    ensures { IsLastAnswer result.now (hand_in mmu (world_in (M.machine machine.now)) (index_of (M.machine machine.now).sizes actor)) }
{
    last_answer(machine, machine.sizes().index_of(actor) as usize)
}
