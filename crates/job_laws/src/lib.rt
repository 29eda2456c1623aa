//! Laws of the jobs: what is so once a turn of a job has answered that it is done. They are laws of
//! the relations that the contracts of the jobs cite, at a world that the seat tells, and no crate
//! stands on them.
#![tactic(auto)]

mod laws;

pub use laws::{
    begins_leave_nothing, ends_raise_once, host_lines_change_once, readings_leave_no_silent_write,
    run_lines_set_their_run, slot_lines_change_once, splits_tell_what_they_found,
};
