//! The fast fault of a guest access that met a leaf which forbids the write (locking.rst, "Fast
//! page fault"; mmu.c, `fast_page_fault`): in a section, without the MMU lock, it finds the slot
//! and the leaf of the guest frame, allows writes in the very word that it read, and marks the page
//! in the slot's dirty log.
#![tactic(auto)]

mod fast;

pub use fast::{FastFaulted, FastJob};
