//! Seats at the words of the machine in one table, which threads may share: the same
//! steps as at a machine with one owner, one atomic operation of the table each.
#![tactic(auto)]

mod board;
mod calls;
mod machine;
mod pass;
mod pass_hands;
mod room;
mod rule;
mod seat;
mod threads;

pub use board::Board;
pub use machine::TableMachine;
pub use pass::Pass;
pub use seat::{TableFrame, TableSeat};
pub use threads::cross_threads;
