//! The MMU lock (KVM's locking.rst, `mmu_lock`): faults hold it as readers, what
//! removes or publishes holds it alone. Its word counts the readers in its low
//! bits, and has bit 63 set while one holds it alone.
#![tactic(auto)]

mod alone;
mod lock;

pub use alone::{exclude, release};
pub use lock::{Lock, try_exclusive, try_shared, unlock};
