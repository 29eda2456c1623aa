//! What a line counts: its steps since it began or since its last delay, and
//! its delays.
ghost use Rattle.std.specs.Prelude.{◌≡◌, ◌&&◌, ◌||◌};
ghost use Rattle.mmu_core.specs.lines.Delays.{begins_anew, counted, delays_counted, leaves_to_fault, one_more, steps_counted, walks_again};

use core_views::{AccessPlace, FaultEnd, FaultPlace, Leaving, Place};
use mmu_core::Outcome;
use part_twins::Hand;

// The line's fault ends with the step of this place, and begins anew.
fn begins_anew(place: Place) -> bool
    ensures { result ≡ begins_anew place }
{
    matches!(
        place,
        Place::Access(AccessPlace::Fault(FaultPlace::End(FaultEnd::Retry { .. })))
    )
}

// The access walks, in the stay after a fault that has installed an entry.
fn walks_again(place: Place) -> bool
    ensures { result ≡ walks_again place }
{
    match place {
        Place::Access(AccessPlace::Walk { again }) => again,
        _ => false,
    }
}

// The line leaves the guest for a fault.
fn leaves_to_fault(outcome: &Outcome) -> bool
    ensures { result ≡ leaves_to_fault outcome.now }
{
    matches!(
        outcome,
        Outcome::Goes(Place::Access(AccessPlace::Leave(Leaving::Faults { .. })))
    )
}

/// The step of this place is a delay of its line: the line waits, its fault
/// begins anew, or the stay after an installed entry finds no translation.
pub(crate) fn is_delay(waits: bool, place: Place, outcome: &Outcome) -> bool
    ensures { result ≡ (waits || (begins_anew place || (walks_again place && leaves_to_fault outcome.now))) }
{
    waits || begins_anew(place) || walks_again(place) && leaves_to_fault(outcome)
}

// What has been counted where the line's next step comes.
#[inline(always)]
fn counted(place: Place, count: u64) -> u64
    ensures { result ≡ counted place count }
{
    match place {
        Place::Between => 0,
        _ => count,
    }
}

#[inline(always)]
fn one_more(count: u64) -> u64
    ensures { result ≡ one_more count }
{
    if count < u64::MAX { count + 1 } else { count }
}

/// The steps that are counted after a step.
#[inline(always)]
pub(crate) fn steps_behind(delay: bool, hand: &Hand) -> u64
    ensures { result ≡ steps_counted delay (counted hand.now.core.state.place hand.now.core.state.steps) }
{
    let state = hand.progress();
    if delay {
        0
    } else {
        one_more(counted(state.place, state.steps))
    }
}

/// The delays that are counted after it.
#[inline(always)]
pub(crate) fn delays_behind(delay: bool, hand: &Hand) -> u64
    ensures { result ≡ delays_counted delay (counted hand.now.core.state.place hand.now.core.state.delays) }
{
    let state = hand.progress();
    let delays = counted(state.place, state.delays);
    if delay { one_more(delays) } else { delays }
}
