//! What the programs share: the words that a program is called with, the statuses that it ends with,
//! and the lines that it writes where it runs no trace.
#![tactic(auto)]

mod called;
mod ends;
mod status;

pub use called::arguments;
pub use ends::{ended, refuse, usage};
pub use status::Status;

/// The most turns in rounds that a weave makes.
pub const ROUNDS: u64 = 10_000_000;
