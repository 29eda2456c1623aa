//! The board: the words of the machine in one table.
ghost use Rattle.std.specs.Prelude.{◌≡◌, ◌<◌};
ghost use Rattle.mmu_core.specs.machine.Enabled.{Enabled, mmu};
ghost use Rattle.step_seats.specs.Acts.{Acts};
ghost use Rattle.step_seats.specs.Moves.{KeepsRoom};
ghost use Rattle.table_seats.specs.Boards.{Fits};
ghost use Rattle.table_seats.specs.Passes.{Keeps, PutsHand, hand_at, seat_of};
ghost use Rattle.table_seats.specs.Rule.{moved};

use crate::Pass;
use crate::calls::perform;
use crate::rule::{Law, View};
use atomic_table::Table;
use core_views::Kind;
use std::alloc::Global;
use std::marker::{Brand, Model};
use step_seats::{Closing, advance};

/// The words of a machine in one table, which threads may share.
#[derive(Drop)]
pub struct Board {
    pub(crate) table: Table<(), View, Closing, Law, Global>,
}

impl Model for Board {
    ghost use Rattle.table_seats.specs.Boards.{BoardView, IsBoard};

    ghost Value = { BoardView };

    ghost view = { λ b. record { table = b.table.shared.table_id; start = b.table.shared.key } };

    ghost invariant = { λ b. IsBoard b.table.shared.table_id b.table.shared.key };
}

impl Board {
    // Makes one step of the actor, whose hand the pass keeps, by one call of the table. It
    // answers what it found in its word (a store: what it wrote).
    #[inline(always)]
    pub(crate) fn act(&self, pass: &mut Pass, actor: usize, kind: Kind) -> u64
        requires fits { Fits self.now pass.old }
        requires keeps { Keeps pass.old actor }
        requires enabled { Enabled (seat_of pass.old actor).hand kind }
        requires reserved { 0 < (seat_of pass.old actor).room }
        ensures acts { Acts kind result (seat_of pass.old actor) (seat_of pass.new actor) }
        ensures room { KeepsRoom (seat_of pass.old actor) (seat_of pass.new actor) }
        ensures put { PutsHand pass.old pass.new actor }
        ensures knows { pass.new.knows ≡ moved mmu actor (hand_at pass.old.hands actor).core kind result pass.old.knows }
    {
        let Some(hand) = &mut pass.hands[actor] else {
            unreachable!()
        };
        let answer = perform::<Brand>(&self.table.shared, &mut pass.seat, actor, hand, kind);
        advance(hand, kind, answer);
        answer
    }
}
