//! Workers at a board: each has the hand of one actor, and makes its turns in a thread of its
//! own, over the words that all share (KVM's locking.rst and tdp_mmu.c for what a step is).
#![tactic(auto)]

mod crew;
mod lines;
mod worker;

pub use crew::{Crew, collect, muster};
pub use lines::run_lines;
pub use worker::{Worker, run_all};
