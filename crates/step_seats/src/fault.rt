//! The place of a hand's line in its fault.
ghost use Rattle.std.specs.Prelude.{◌≡◌};
ghost use Rattle.core_views.specs.declared.place.AccessPlace.TheVariants.{Fault};
ghost use Rattle.core_views.specs.declared.place.Place.TheVariants as Place;
ghost use Rattle.mmu_core.specs.forms.access.AccessSteps.{access_note};
ghost use Rattle.mmu_core.specs.machine.Steps.{place_at};
ghost use Rattle.mmu_core.specs.machine.Worlds.{HandReached};
ghost use Rattle.step_seats.specs.FaultTurns.{IsAtFaultPlace, StandsInFault, is_fast_place};

use core_views::{AccessPlace, FaultEnd, FaultPlace, Place};
use mmu_steps::Hand;

/// Whether the place is one of a fast fault (locking.rst, "Fast page fault").
pub fn is_fast_place(place: FaultPlace) -> bool
    ensures { result ≡ is_fast_place place }
{
    match place {
        FaultPlace::FastBegin | FaultPlace::FastFind { .. } | FaultPlace::FastWalk { .. } => true,
        FaultPlace::Fix => true,
        FaultPlace::End(FaultEnd::Fixed { .. } | FaultEnd::NotFast(_)) => true,
        FaultPlace::Mark { fast } | FaultPlace::End(FaultEnd::Retry { fast, .. }) => fast,
        _ => false,
    }
}

/// The place where the fault of the hand's line stands. Its actor may make the step of this
/// place, and knows what the place asks.
pub fn fault_place(hand: &Hand, gfn: u64, write: bool) -> FaultPlace
    requires reached { ∥ HandReached hand.now.core ∥₁ }
    requires stands { StandsInFault gfn write hand.now.core }
    ensures stands { place_at hand.now.core.state.place hand.now.core ≡ Place.Access (Fault result) }
    ensures is_at { IsAtFaultPlace result gfn write (access_note (Fault result)) hand.now.core }
{
    let Place::Access(access) = hand.progress().place else {
        unreachable!()
    };
    let AccessPlace::Fault(place) = access else {
        unreachable!()
    };
    place
}
