//! Each step of a run, one line for each turn: the program `show_steps`, but for its words and its ends.
#![tactic(auto)]

mod laws;
mod lines;
mod naming;
mod program;
mod row;
mod step_printer;
mod view;

pub use laws::{lines_tell_shown_turns, lines_tell_turns};
pub use program::{run, run_within};
