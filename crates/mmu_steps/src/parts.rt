//! Which steps of parts a hand may make.
ghost use Rattle.std.specs.Prelude.{◌≡◌, ◌-◌, true, false, is_some};
ghost use Rattle.mmu_core.specs.machine.MayMake.{MayMake};
ghost use Rattle.part_steps.specs.PartBounds.{PartRests};
ghost use Rattle.part_steps.specs.PartSteps.{PartNeeds, has_line, needs_line};
ghost use Rattle.mmu_core.specs.machine.Worlds.{HandReached};

use part_steps::PartStep;
use part_twins::{Hand, has_needs, needs_line};

/// A hand with no line left may make each step of a part that it holds the needs
/// of, but for those of lines alone.
pub(crate) fn may_make(hand: &Hand, step: PartStep, note: u64)
    requires rests { PartRests hand.now.core }
    requires idle { has_line hand.now.core ≡ false }
    requires free { needs_line step ≡ false }
    requires needs { PartNeeds step hand.now.core }
    ensures { MayMake step note hand.now.core }
{}

/// What the steps of the parts rest on: it holds of every hand that some world
/// has.
pub fn part_rests(hand: &Hand)
    requires reached { ∥ HandReached hand.now.core ∥₁ }
    ensures { PartRests hand.now.core }
{}

/// Whether the hand has no line left and holds what this step of a part needs,
/// which isn't one of lines alone.
pub fn allows(hand: &Hand, step: PartStep, note: u64) -> bool
    requires reached { ∥ HandReached hand.now.core ∥₁ }
    ensures { result ≡ true → MayMake step note hand.now.core }
{
    part_rests(hand);
    if hand.next_line().is_some() || needs_line(step) || !has_needs(hand, step) {
        return false;
    }
    may_make(hand, step, note);
    true
}
