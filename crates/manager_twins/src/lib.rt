//! The running twins of the lines of the manager, of the host threads and of the workers, a module for
//! each form: slots changed, dirty logs read, host pages and runs of them changed, large leaves split.
#![tactic(auto)]

mod dirty_pages;
mod host;
mod host_run;
mod log;
mod slot_change;
mod split;

pub use host::{
    first as host_first, note as host_note, outcome as host_outcome, part as host_part,
};
pub use host_run::{note as host_run_note, outcome as host_run_outcome, part as host_run_part};
pub use log::{
    first as log_first, log_step, next as log_next, note as log_note, read as log_reads,
};
pub use slot_change::{
    first as slot_change_first, note as slot_change_note, outcome as slot_change_outcome,
    part as slot_change_part, record_change,
};
pub use split::{note as split_note, outcome as split_outcome, part as split_part};
