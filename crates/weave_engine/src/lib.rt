//! The engine: runs the lines of a trace over the words and hands of one machine,
//! a step a turn: each line alone in file order (`replay`), or in the order of a
//! schedule and then in rounds (`weave`), and writes what they are answered
//! (KVM's locking.rst and tdp_mmu.c for what a step is).
#![tactic(auto)]

mod answer_printer;
mod ran;
mod replaying;
mod weaving;
mod writing;

pub use answer_printer::push_open;
pub use ran::{How, Ran, status_of};
pub use replaying::{replay_answers_on, replay_machine, replay_with};
pub use turn_loops::{
    Printer, TurnMade, TurnPrinter, Turned, last_answer, run_alone, run_by_turns, run_line, turn_on,
};
pub use weaving::{weave, weave_machine, weave_with};
pub use writing::write_piece;
