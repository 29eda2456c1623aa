//! How many pool pages slots need that no trace has: of no page, of more pages than there are, and past 2^36, up to 2^64 - 1.
//! What a trace has is in `examples/cases/inputs.cases`.
use crate::flat_tests::header;
use core_views::{Actor, Command, Line, Lines, Slot, Trace};
use std::alloc::{AllocError, Global};
use trace_reader::need;

// The trace that sets a slot with this base and size, on a machine of so many pages.
fn trace_of(alloc: Global, total: u64, base: u64, pages: u64) -> Result<Trace, AllocError> {
    let slot = Slot {
        base,
        pages,
        host: 0,
        read_only: false,
    };
    let line = Line {
        number: 2,
        actor: Actor::Manager,
        command: Command::SetSlot { id: 0, slot },
    };
    let lines = Lines::from_vec(vec![in alloc; line]?);
    let header = header(total, total, 0, vec![in alloc; 0]?);
    Ok(Trace::unscheduled(alloc, header, lines))
}

/// Whether no slot of these needs more than the four pages of a trace without one.
pub fn slots_count_for_nothing(alloc: Global) -> bool {
    let slots = [(1024, 0, 0), (16, u64::MAX, 4), (u64::MAX, 1, u64::MAX)];
    for (total, base, pages) in slots {
        let needed = match trace_of(alloc, total, base, pages) {
            Ok(trace) => need(alloc, &trace).ok(),
            Err(_) => None,
        };
        if needed != Some(4) {
            return false;
        }
    }
    true
}
