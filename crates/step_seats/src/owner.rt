//! Who owns all words and hands of a machine.
ghost use Rattle.std.specs.Prelude.{◌≡◌, ◌<◌, OnErr, OnOk, length, slice_set};
ghost use Rattle.core_views.specs.Sizes.{AreSizes, actors_of};
ghost use Rattle.mmu_core.specs.machine.Enabled.{Enabled};
ghost use Rattle.mmu_core.specs.machine.Worlds.{HandReached};
ghost use Rattle.step_seats.specs.Acts.{Acts};
ghost use Rattle.step_seats.specs.Machines.{IsMachine, KeepsSizes, seat_in, world_in};
ghost use Rattle.step_seats.specs.Moves.{HasItsRoom, KeepsRoom, handful_in};
ghost use Rattle.step_seats.specs.Where.{HasHand};

use core_views::{Kind, NoMemory, Sizes};
use mmu_steps::Hand;

/// Whoever owns all words and hands of a machine, and makes the steps of its
/// actors one after another.
pub trait MachineOwner {
    ghost use Rattle.std.specs.Prelude.{List, Option};
    ghost use Rattle.core_views.specs.declared.kind.Kind.{Kind};
    ghost use Rattle.mmu_core.specs.machine.Machine.{Step};
    ghost use Rattle.step_seats.specs.Machines.{Machine};

    // The machine that is owned: its sizes, words and hands.
    ghost machine: { Self → Machine };

    // The steps made so far, where the owner tells them.
    ghost steps: { Self → Option (List (Step Kind)) };

    /// Makes one step of the actor at this place, and answers what it found in its word
    /// (a store: what it wrote).
    fn make_step(&mut self, index: usize, kind: Kind) -> u64
        requires there { index < length (machine self.old).hands }
        requires enabled { Enabled (handful_in (machine self.old).hands index).core kind }
        requires reserved { 0 < (handful_in (machine self.old).hands index).room }
        ensures acts { Acts kind result (seat_in (machine self.old) (steps self.old) index) (seat_in (machine self.new) (steps self.new) index) }
        ensures room { KeepsRoom (seat_in (machine self.old) (steps self.old) index) (seat_in (machine self.new) (steps self.new) index) }
        ensures others { (machine self.new).hands ≡ slice_set (machine self.old).hands index (handful_in (machine self.new).hands index) }
        ensures same { KeepsSizes (machine self.old) (machine self.new) };

    /// The hand of the actor at this place.
    fn hand(&self, index: usize) -> &Hand
        requires there { index < length (machine self.now).hands }
        ensures hand { result.now ≡ handful_in (machine self.now).hands index }
        ensures room { HasItsRoom (handful_in (machine self.now).hands index).core (handful_in (machine self.now).hands index).room }
        ensures reached { ∥ HandReached (handful_in (machine self.now).hands index).core ∥₁ }
        ensures has { HasHand index (handful_in (machine self.now).hands index).core (world_in (machine self.now)) };

    /// Takes room for one more answer in the hand at this place. It changes no word and no
    /// hand, whatever it answers; where it is refused, no room either.
    fn reserve(&mut self, index: usize) -> Result<(), NoMemory>
        requires there { index < length (machine self.old).hands }
        ensures world { world_in (machine self.new) ≡ world_in (machine self.old) }
        ensures steps { Self.steps self.new ≡ Self.steps self.old }
        ensures hand { (handful_in (machine self.new).hands index).core ≡ (handful_in (machine self.old).hands index).core }
        ensures room { OnOk result (0 < (handful_in (machine self.new).hands index).room) }
        ensures refused { OnErr result (handful_in (machine self.new).hands index ≡ handful_in (machine self.old).hands index) }
        ensures others { (machine self.new).hands ≡ slice_set (machine self.old).hands index (handful_in (machine self.new).hands index) }
        ensures same { KeepsSizes (machine self.old) (machine self.new) };

    /// The sizes of the machine. Some list of steps leads from a start of these
    /// sizes to its words and hands.
    fn sizes(&self) -> Sizes
        ensures is { result ≡ (machine self.now).sizes }
        ensures reached { IsMachine (machine self.now).sizes (machine self.now).words (machine self.now).hands }
        ensures sizes { AreSizes (machine self.now).sizes }
        ensures count { length (machine self.now).hands ≡ actors_of (machine self.now).sizes };
}
