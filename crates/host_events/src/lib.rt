//! One line of a host thread: a host page is changed, in the mapping that the host has of
//! its pages (KVM's mmu_notifier.rst; api.rst, KVM_CAP_SYNC_MMU: changes in the backing of a
//! slot are reflected into the guest), within an invalidation of the guest frame that a slot
//! gives to the page. A page that is moved is copied into another frame within it, and its old
//! frame is given back after a grace period (page_migration.rst). Or a run of host pages is
//! mapped as one large page, or the pages of one by themselves (mmu.rst, "Large pages"), within
//! an invalidation of the guest frames that slots give to them.
#![tactic(auto)]

mod job;

pub use job::HostJob;
