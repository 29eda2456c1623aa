//! The one call of the table that a step is, and the one that a split is.
ghost use Rattle.std.specs.Prelude.{◌≡◌, ◌<◌, [], length, true};
ghost use Rattle.mmu_core.specs.machine.Enabled.{Enabled, mmu};
ghost use Rattle.table_seats.specs.Rule.{Acted, Holds, with_only, without};

use crate::rule::{Chosen, Cuts, Does, Law, View};
use atomic_table::{Seat, Shared};
use core_views::{Kind, Operation};
use step_seats::{Closing, Hand};

// The words of a board, as threads share them.
pub(crate) type Words = Shared<(), View, Closing, Law>;

// Makes the one call of the table that the step is, and answers what it found in its word
// (a store: what it wrote).
#[inline(always)]
pub(crate) fn perform<J: Chosen>(
    shared: &Words,
    seat: &mut Seat<(), View>,
    _actor: usize,
    _hand: &Hand,
    kind: Kind,
) -> u64
    requires chosen { (_actor ≡ J.actor) × (_hand.now.core ≡ J.hand) × (kind ≡ J.kind) }
    requires table { (seat.old.table_id ≡ shared.now.table_id) × (kind.word < shared.now.table_id.words) }
    requires words { shared.now.table_id.words ≡ length shared.now.key.words }
    requires hand { (seat.old.me.0.live ≡ true) × Holds seat.old.me.0.held J.actor J.hand }
    requires enabled { Enabled J.hand kind }
    ensures seat { (seat.new.table_id ≡ seat.old.table_id) × (seat.new.me.1 ≡ seat.old.me.1) }
    ensures acted { Acted mmu J.actor J.hand J.kind seat.old.me.0 result seat.new.me.0 }
{
    let word = kind.word as usize;
    match kind.operation() {
        Operation::Load => shared.load::<Does<J>>(seat, word),
        Operation::Store => {
            shared.store::<Does<J>>(seat, word, kind.new);
            kind.new
        }
        Operation::Swap => shared.swap::<Does<J>>(seat, word, kind.new),
        Operation::FetchAdd => shared.fetch_add::<Does<J>>(seat, word, kind.new),
        Operation::FetchSub => shared.fetch_sub::<Does<J>>(seat, word, kind.new),
        Operation::FetchAnd => shared.fetch_and::<Does<J>>(seat, word, kind.new),
        Operation::FetchOr => shared.fetch_or::<Does<J>>(seat, word, kind.new),
        Operation::CompareExchange => {
            shared.compare_exchange::<Does<J>>(seat, word, kind.old, kind.new)
        }
    }
}

// A new seat with the actor's hand alone, which the old one has no more.
pub(crate) fn cut<J: Chosen>(
    shared: &Words,
    seat: &mut Seat<(), View>,
    _actor: usize,
) -> Seat<(), View>
    requires chosen { _actor ≡ J.actor }
    requires table { (seat.old.table_id ≡ shared.now.table_id) × (0 < shared.now.table_id.words) }
    requires live { seat.old.me.0.live ≡ true }
    ensures old { (seat.new.table_id ≡ seat.old.table_id) × (seat.new.me ≡ (without J.actor seat.old.me.0, seat.old.me.1)) }
    ensures new { (result.table_id ≡ seat.old.table_id) × (result.me ≡ (with_only J.actor seat.old.me.0, [])) }
{
    shared.split_seat::<Cuts<J>>(seat)
}
