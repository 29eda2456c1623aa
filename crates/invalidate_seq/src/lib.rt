//! The invalidations and their sequence number, which tell a fault that what it looked
//! up has changed since (KVM's locking.rst; `mmu_invalidate_seq` and
//! `mmu_invalidate_in_progress`), or changes now; and how an invalidation begins and ends.
#![tactic(auto)]

mod check;
mod open;
mod shut;
mod snapshot;

pub use check::{Check, Checked};
pub use open::{Open, OpenStage};
pub use shut::{Shut, ShutStage};
pub use snapshot::Snapshot;
