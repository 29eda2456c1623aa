//! The memory slots of the machine: the manager's own record of a slot set, and
//! the slot of a guest frame, or of a host page, in the published slot set.
#![tactic(auto)]

mod find;

pub use core_views::MemorySlot;
pub use find::{Find, FoundSlot, Sought};
pub use step_seats::SlotSet;
