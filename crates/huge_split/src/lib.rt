//! One line of a worker: the large leaf over a guest frame is split into a table of leaves one level
//! down, which map what it mapped (tdp_mmu.c, `tdp_mmu_split_huge_page`; eager page splitting).
#![tactic(auto)]

mod job;

pub use job::SplitJob;
