ghost use Rattle.std.specs.Prelude.{◌≡◌, ◌<◌, IfSome};
ghost use Rattle.mmu_core.specs.machine.MayMake.{MayMake};
ghost use Rattle.step_seats.specs.Moves.{KeepsSeat};
ghost use Rattle.step_seats.specs.PartTurns.{MadePart};
ghost use Rattle.step_seats.specs.Where.{HasHand};

use crate::Stepper;
use mmu_steps::{part_kind, part_rests};
use part_steps::PartStep;

/// Makes this step of a part of the machine, and answers what it found in its
/// word (a store: what it wrote).
#[inline(always)]
pub fn make_part<S: Stepper>(s: &mut S, step: PartStep, note: u64) -> u64
    requires may { MayMake step note (S.seat s.old).hand }
    requires reserved { 0 < (S.seat s.old).room }
    ensures made { MadePart step note result (S.seat s.old) (S.seat s.new) }
    ensures has { IfSome (S.seat s.new).tells.world (HasHand (S.seat s.new).actor (S.seat s.new).hand) }
    ensures keeps { KeepsSeat (S.seat s.old) (S.seat s.new) (S.frame s.old) (S.frame s.new) }
{
    let hand = s.hand();
    part_rests(hand);
    let kind = part_kind(hand, step, note);
    s.act(kind)
}
