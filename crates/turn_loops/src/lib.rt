//! The loops of turns: a line alone, lines one after another, the items of a schedule, and
//! rounds, over whoever owns the machine and whoever prints its turns.
#![tactic(auto)]

mod alone;
mod by_turns;
mod lines;
mod one_line;
mod printer;
mod rounds;
mod schedule;
mod turning;

pub use alone::run_line;
pub use by_turns::run_by_turns;
pub use lines::{run_alone, run_lines};
pub use one_line::{answer_to, last_answer, run_on};
pub use printer::{Printer, TurnPrinter};
pub use rounds::{first_open, run_rounds};
pub use schedule::run_items;
pub use turning::{TurnMade, Turned, turn_on};
