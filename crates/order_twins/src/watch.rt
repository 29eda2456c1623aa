//! The steps of a watch of all other actors, which several kinds of line make in the
//! same order.
ghost use Rattle.std.specs.Prelude.{◌≡◌};
ghost use Rattle.mmu_core.specs.orders.WatchSteps.{looked_at, watch_next};
ghost use Rattle.part_steps.specs.PartBounds.{PartRests};

use mmu_core::WatchNext;
use part_twins::{Hand, in_section, next_watched};

/// The actor that the watch looks at next.
pub fn looked_at(hand: &Hand) -> u64
    requires { PartRests hand.now.core }
    ensures { result ≡ looked_at hand.now.core }
{
    let state = hand.progress();
    next_watched(state.sizes.index_of(state.actor), hand.topics().watched)
}

/// What the watch comes to with a look that found this word.
pub fn watch_next(hand: &Hand, found: u64) -> WatchNext
    requires rests { PartRests hand.now.core }
    ensures { result ≡ watch_next hand.now.core found }
{
    let state = hand.progress();
    let own = state.sizes.index_of(state.actor);
    if in_section(found) {
        WatchNext::Again
    } else if next_watched(own, looked_at(hand) + 1) < state.sizes.actors() {
        WatchNext::Next
    } else {
        WatchNext::Last
    }
}
