use crate::Slot;

/// How many slots a set may hold: their IDs are 0 to 31.
pub const SLOTS: u64 = 32;

/// A memory slot, and whether it has a dirty log (KVM's api.rst,
/// `KVM_MEM_LOG_DIRTY_PAGES`).
#[derive(Clone, Copy, PartialEq, Eq, Drop)]
pub struct MemorySlot {
    pub slot: Slot,
    pub logged: bool,
}
