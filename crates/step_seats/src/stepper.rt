ghost use Rattle.std.specs.Prelude.{◌≡◌, ◌<◌, IfSome, OnErr, OnOk};
ghost use Rattle.mmu_core.specs.machine.Enabled.{Enabled};
ghost use Rattle.mmu_core.specs.machine.Worlds.{HandReached};
ghost use Rattle.step_seats.specs.Acts.{Acts};
ghost use Rattle.step_seats.specs.Moves.{HasItsRoom, KeepsSeat};
ghost use Rattle.step_seats.specs.Where.{HasHand};

use core_views::{Kind, NoMemory};
use mmu_steps::Hand;

/// The seat of one actor at the words of the machine: it makes the steps of
/// its actor's hand, one word at a time.
pub trait Stepper {
    /// What steps leave as it is: the machine or board, the other hands of a
    /// pass. No value of it is made.
    type Frame;

    ghost use Rattle.step_seats.specs.Seats.{Seat};

    // Its actor and this actor's hand, and what it tells.
    ghost seat: { Self → Seat };

    ghost frame: { Self → Self.Frame };

    /// Makes one step, and answers what it found in its word (a store: what it
    /// wrote). It takes no memory and never waits.
    fn act(&mut self, kind: Kind) -> u64
        requires enabled { Enabled (seat self.old).hand kind }
        requires reserved { 0 < (seat self.old).room }
        ensures acts { Acts kind result (seat self.old) (seat self.new) }
        ensures keeps { KeepsSeat (seat self.old) (seat self.new) (frame self.old) (frame self.new) };

    /// The hand as it is. What its line needs was taken as this line began.
    fn hand(&self) -> &Hand
        ensures hand { result.now.core ≡ (seat self.now).hand }
        ensures room { result.now.room ≡ (seat self.now).room }
        ensures reserved { HasItsRoom (seat self.now).hand (seat self.now).room }
        ensures reached { ∥ HandReached (seat self.now).hand ∥₁ }
        ensures has { IfSome (seat self.now).tells.world (HasHand (seat self.now).actor (seat self.now).hand) };

    /// Takes the room that the hand's next line needs in it. It changes no word and
    /// no hand, whatever it answers; where it is refused, no room either.
    fn reserve(&mut self) -> Result<(), NoMemory>
        ensures hand { (seat self.new).hand ≡ (seat self.old).hand }
        ensures room { OnOk result (0 < (seat self.new).room) }
        ensures refused { OnErr result ((seat self.new).room ≡ (seat self.old).room) }
        ensures told { (seat self.new).tells ≡ (seat self.old).tells }
        ensures same { ((seat self.new).actor ≡ (seat self.old).actor) × (frame self.new ≡ frame self.old) };
}
