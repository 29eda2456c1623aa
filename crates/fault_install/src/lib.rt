//! The fault of a guest access that found no translation (tdp_mmu.c,
//! `kvm_tdp_mmu_map`; locking.rst): in a section it looks up slot and host page,
//! which it brings in where it isn't present, and while it shares the MMU lock it checks the look-up, goes down from the
//! root, links the tables that are missing, and puts the leaf.
#![tactic(auto)]

mod answers;
mod fault;

pub use fault::{FaultJob, Faulted};
