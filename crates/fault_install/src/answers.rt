//! What a turn of a fault answers, by what the part of its place answered.
ghost use Rattle.std.specs.Prelude.{◌≡◌, false};
ghost use Rattle.core_views.specs.declared.place.FaultPlace.TheVariants.{End};
ghost use Rattle.fault_install.specs.Faults.{claim_turn, end_told, lock_turn};
ghost use Rattle.step_seats.specs.FaultTurns.{as_end, end_turn, is_fast_place};

use crate::Faulted;
use core_views::{FaultEnd, Seen};
use mmu_lock::Lock;
use step_seats::Turn;
use table_pool::Claimed;

/// After a try for the lock, whose word this is.
pub(crate) fn lock_turn(word: u32, answer: Turn<Lock>) -> Turn<Faulted>
    ensures { result ≡ lock_turn word answer }
{
    match answer {
        Turn::Done(Lock::Held(value)) => Turn::Wait(Seen { word, value }),
        _ => Turn::More,
    }
}

/// After a step of a claim.
pub(crate) fn claim_turn(answer: Turn<Claimed>) -> Turn<Faulted>
    ensures { result ≡ claim_turn answer }
{
    match answer {
        Turn::Wait(seen) => Turn::Wait(seen),
        _ => Turn::More,
    }
}

/// After the end of the section.
pub(crate) fn end_turn(end: FaultEnd) -> Turn<Faulted>
    requires whole { is_fast_place (End end) ≡ false }
    ensures { as_end end_told result ≡ end_turn end }
{
    match end {
        FaultEnd::Installed => Turn::Done(Faulted::Installed),
        FaultEnd::Mmio => Turn::Done(Faulted::Mmio),
        FaultEnd::HostFault => Turn::Done(Faulted::HostFault),
        FaultEnd::Starved => Turn::Done(Faulted::Starved),
        FaultEnd::Retry { cause, .. } => Turn::Retry(cause),
        FaultEnd::Fixed { .. } | FaultEnd::NotFast(_) => unreachable!(),
    }
}
