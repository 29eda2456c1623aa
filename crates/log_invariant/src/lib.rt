//! What always holds of dirty logs, of the words and hands: each leaf and each cached translation that
//! allows writes in a slot with a dirty log is covered, by its page's bit or by a mark that is owed, or
//! the line that begins the log, or has taken the page out of it, has yet to forbid writes and to flush.
//! It stands on the invariant of `mmu_core`, and every step keeps it.
#![tactic(auto)]

mod laws;

pub use laws::writes_are_covered;
