//! Sections and grace periods (KVM's locking.rst, the RCU and SRCU read sides of
//! the TDP MMU): an actor loads tables and slot sets in a section, and who takes
//! a page out of them watches every other actor come out before it gives the
//! page back.
#![tactic(auto)]

mod laws;
mod section;
mod watch;

pub use laws::who_was_seen_outside_holds_nothing_older;
pub use section::{begin, end};
pub use watch::Watch;
