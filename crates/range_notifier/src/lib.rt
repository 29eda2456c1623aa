//! What a host thread does with the tables before and after it changes one of its pages, and
//! the manager before and after it moves a slot (KVM's mmu_notifier.rst; kvm_main.c,
//! `kvm_mmu_notifier_invalidate_range_start`, `kvm_mmu_notifier_invalidate_range_end` and
//! `kvm_invalidate_memslot`): an invalidation of the guest frames that slots give to the page,
//! or of the slot's, begins, with their leaves zapped and each virtual processor asked for a
//! flush and awaited; and it ends.
#![tactic(auto)]

mod begin;
mod end;

pub use begin::BeginJob;
pub use end::EndJob;
