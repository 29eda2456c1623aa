//! The pool of table pages: claims, fills and gives of its pages. Linux's
//! tdp_mmu.c allocates a shadow page for each new table (mmu.rst, "Shadow
//! pages"); here they come from a fixed pool, whose map has a bit for each page
//! that is free. A free frame of the host, whose map is like the pool's, is claimed
//! in the same way (page_migration.rst).
#![tactic(auto)]

mod claim;
mod laws;
mod page;

pub use claim::{Claim, Claimed};
pub use laws::a_scan_saw_each_word_empty;
pub use page::{Fill, Give};
