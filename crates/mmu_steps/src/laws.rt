ghost use Rattle.std.specs.Prelude.{◌<◌, length};
ghost use Rattle.mmu_core.specs.lines.Forms.{KnowsPart};
ghost use Rattle.mmu_core.specs.lines.Rests.{Rests};
ghost use Rattle.mmu_core.specs.machine.Steps.{line_at, place_at};
ghost use Rattle.mmu_core.specs.machine.Worlds.{HandReached};

use part_twins::Hand;

/// A hand that some reachable world has holds what its line rests on: the
/// bounds of what was loaded, at each place. This is how what holds at every
/// moment reaches the jobs.
pub fn rests(hand: &Hand)
    requires reached { ∥ HandReached hand.now.core ∥₁ }
    requires left { length hand.now.core.answers < length hand.now.core.lines }
    ensures { Rests hand.now.core }
{}

/// A line that some reachable world has under way, or that is its actor's next
/// one, knows what the place of its next step asks (`KnowsPart`): what its actor
/// holds there, and at each end of a fault what this end rests on.
pub fn knows(hand: &Hand)
    requires reached { ∥ HandReached hand.now.core ∥₁ }
    requires left { length hand.now.core.answers < length hand.now.core.lines }
    ensures { KnowsPart (place_at hand.now.core.state.place hand.now.core) (line_at hand.now.core.state.place hand.now.core).command hand.now.core }
{}
