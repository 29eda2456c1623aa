//! The steps of the machine: which step a hand allows, and what it does to its
//! word and to the hand; and what holds of words and hands at every moment. The
//! functions that work out a step are those of `mmu_steps`.
#![tactic(auto)]

mod claim;
mod invalidate;
mod log_next;
mod outcome;
mod share;
mod sweep;
mod watch;
mod write_protect;

pub use claim::{ClaimNext, FreeMap};
pub use invalidate::{BeginNext, EndNext};
pub use log_next::LogNext;
pub use outcome::Outcome;
pub use share::ShareNext;
pub use sweep::SweepNext;
pub use watch::WatchNext;
pub use write_protect::WriteProtectNext;
