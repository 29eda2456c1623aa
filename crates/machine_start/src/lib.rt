//! The words and the hands of a machine at its start.
#![tactic(auto)]

mod start;

pub use start::{start_hands, start_words};
