//! One line of the manager: a slot is changed (KVM's api.rst, KVM_SET_USER_MEMORY_REGION;
//! kvm_main.c, `kvm_set_memory_region` and `kvm_swap_active_memslots`), from the claim of
//! a page for the new slot set through its publication to the page of the old one, which
//! is given back. A slot that is there is changed within an invalidation of its guest frames;
//! and where its dirty log begins, writes to them are forbidden (`kvm_mmu_slot_apply_flags`).
#![tactic(auto)]

mod job;

pub use job::SlotJob;
