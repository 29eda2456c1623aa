//! What holds of every run of the machine: of every list of steps, of all its
//! actors in any order, each enabled in its turn, from the start of every machine.
//! One function a subject.
#![tactic(auto)]

mod history;
mod leaves;
mod logs;
mod progress;
mod sections;
mod uses;

pub use history::every_run_history;
pub use leaves::every_run_leaves;
pub use logs::every_run_logs;
pub use progress::every_run_progress;
pub use sections::every_run_sections;
pub use uses::every_run_pages;
