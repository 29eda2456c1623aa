//! Laws of what a weave and a replay are: each has one list of steps, and so prints one text;
//! and two closed weaves, whose turns and text are worked out by hand. They stand on those
//! definitions alone, and no crate stands on them.
#![tactic(auto)]

mod laws;

pub use laws::{closed_weaves_print, weaves_are_determined};
