//! A pass to a board: the hands of some actors.
ghost use Rattle.std.specs.Prelude.{◌≡◌, ◌<◌, IfSome, None, OnErr, OnOk, false, is_some, slice_index_or, true};
ghost use Rattle.mmu_core.specs.machine.Worlds.{HandReached};
ghost use Rattle.step_seats.specs.Moves.{HasItsRoom};
ghost use Rattle.step_seats.specs.Where.{HasHand};
ghost use Rattle.table_seats.specs.Boards.{AllHands};
ghost use Rattle.table_seats.specs.Passes.{IsPass, Keeps, PutsHand, hand_at, world_told};

use crate::rule::View;
use atomic_table::Seat;
use core_views::NoMemory;
use std::marker::Model;
use step_seats::Hand;

/// The hands of some actors, each at the place of its actor, and what they tell of the
/// board. Each hand of a board is in one of its passes.
#[derive(Drop)]
pub struct Pass {
    pub(crate) seat: Seat<(), View>,
    pub(crate) hands: Vec<Option<Hand>>,
}

impl Model for Pass {
    ghost use Rattle.std.specs.Prelude.{◌≡◌, []};
    ghost use Rattle.table_seats.specs.Boards.{AllHands};
    ghost use Rattle.table_seats.specs.Passes.{IsPass, PassView};

    ghost Value = { PassView };

    ghost view = { λ p. record { table = p.seat.table_id; knows = p.seat.me.0; hands = p.hands.items } };

    ghost invariant = { λ p. (p.seat.me.1 ≡ []) × IsPass p.seat.me.0 p.hands.items };
}

impl Pass {
    /// Whether the pass keeps the actor's hand.
    pub fn keeps(&self, actor: usize) -> bool
        ensures { result ≡ is_some (slice_index_or self.now.hands actor None) }
    {
        matches!(self.hands.get(actor), Some(Some(_)))
    }

    /// Whether the pass keeps the hand of every actor.
    pub fn has_all(&self) -> bool
        ensures all { result ≡ true → AllHands self.now.hands }
        ensures misses { result ≡ false → AllHands self.now.hands → ⊥ }
    {
        for place in &self.hands {
            if place.is_none() {
                return false;
            }
        }
        true
    }

    // What always holds of a pass.
    #[inline(always)]
    pub(crate) fn holds(&self)
        ensures { IsPass self.now.knows self.now.hands }
    {
        let _width = self.hands.len();
    }

    // The hand of the actor.
    pub(crate) fn hand(&self, actor: usize) -> &Hand
        requires keeps { Keeps self.now actor }
        ensures hand { result.now ≡ hand_at self.now.hands actor }
        ensures room { HasItsRoom (hand_at self.now.hands actor).core (hand_at self.now.hands actor).room }
        ensures reached { ∥ HandReached (hand_at self.now.hands actor).core ∥₁ }
        ensures has { IfSome (world_told self.now.knows) (HasHand actor (hand_at self.now.hands actor).core) }
    {
        let Some(hand) = &self.hands[actor] else {
            unreachable!()
        };
        hand
    }

    // Takes room for one more answer in the hand of the actor.
    pub(crate) fn reserve(&mut self, actor: usize) -> Result<(), NoMemory>
        requires keeps { Keeps self.old actor }
        ensures put { PutsHand self.old self.new actor }
        ensures knows { self.new.knows ≡ self.old.knows }
        ensures core { (hand_at self.new.hands actor).core ≡ (hand_at self.old.hands actor).core }
        ensures room { OnOk result (0 < (hand_at self.new.hands actor).room) }
        ensures refused { OnErr result (hand_at self.new.hands actor ≡ hand_at self.old.hands actor) }
    {
        let Some(hand) = &mut self.hands[actor] else {
            unreachable!()
        };
        hand.reserve()
    }
}
