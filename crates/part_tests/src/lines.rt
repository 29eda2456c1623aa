//! Steps of an actor's lines.
ghost use Rattle.std.specs.Prelude.{◌≡◌, ◌<◌, length, true};
ghost use Rattle.mmu_core.specs.lines.Rests.{Rests};
ghost use Rattle.part_steps.specs.PartSteps.{PartNeeds};
ghost use Rattle.mmu_core.specs.machine.MayMake.{MayMake};
ghost use Rattle.mmu_core.specs.machine.Worlds.{HandReached};

use core_views::NoMemory;
use part_steps::PartStep;
use step_seats::{Hand, Stepper, next_kind, next_step, part_kind, part_rests, rests, take_turn};

/// Makes so many steps of the seat's lines, or those that are left: how many it made.
pub fn make_steps<S: Stepper>(seat: &mut S, most: u64) -> Result<u64, NoMemory> {
    for made in 0..most {
        if !seat.hand().has_line() {
            return Ok(made);
        }
        let _ = take_turn(seat)?;
    }
    Ok(most)
}

// Whether both are the same step, of those of lines alone that tests make by calls of parts.
fn is_same(one: PartStep, other: PartStep) -> bool
    ensures { result ≡ true → one ≡ other }
{
    match (one, other) {
        (PartStep::Bring, PartStep::Bring) | (PartStep::Frame, PartStep::Frame) => true,
        (PartStep::GiveFrame, PartStep::GiveFrame) => true,
        (PartStep::Change(new), PartStep::Change(word)) => new == word,
        (PartStep::FrameMap(at), PartStep::FrameMap(word)) => at == word,
        (PartStep::Copy(at), PartStep::Copy(index)) => at == index,
        (PartStep::Store(at), PartStep::Store(index)) => at == index,
        _ => false,
    }
}

// Whether the next step of the hand's line is this one, of whatever note.
fn makes_next(hand: &Hand, step: PartStep) -> bool
    requires left { length hand.now.core.answers < length hand.now.core.lines }
    requires rests { Rests hand.now.core }
    ensures { result ≡ true → PartNeeds step hand.now.core }
{
    match next_step(hand) {
        Some(next) => is_same(next, step),
        None => false,
    }
}

/// Whether the next step of the hand's line is this step of a part, with this note.
pub fn is_next(hand: &Hand, step: PartStep, note: u64) -> bool
    requires reached { ∥ HandReached hand.now.core ∥₁ }
    ensures { result ≡ true → MayMake step note hand.now.core }
{
    if hand.next_line().is_none() {
        return false;
    }
    rests(hand);
    part_rests(hand);
    if !makes_next(hand, step) {
        return false;
    }
    next_kind(hand) == part_kind(hand, step, note)
}

/// Makes the steps of the seat's lines until the next one is this step of a part, with this
/// note.
pub fn go_to<S: Stepper>(seat: &mut S, step: PartStep, note: u64) -> Result<(), NoMemory> {
    for _ in 0..80 {
        seat.reserve()?;
        let hand = seat.hand();
        if hand.next_line().is_none() || is_next(hand, step, note) {
            break;
        }
        rests(hand);
        let kind = next_kind(hand);
        let _ = seat.act(kind);
    }
    Ok(())
}
