//! A walk over the second-stage page tables, from the root down to the entry of
//! one guest frame (KVM's mmu.rst, "Page fault"; `tdp_iter.c`); and a sweep over those of a
//! range, with the zap of a leaf there, or writes forbidden in it.
#![tactic(auto)]

mod sweep;
mod walk;

pub use sweep::{forbid_writes, sweep_entry, zap};
pub use walk::{Walk, Walked, walk_anew};
