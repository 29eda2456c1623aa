//! Laws of the definitions of slot lines: what such a line may change, and which one
//! changes nothing; and what a slot line tells, a host line, and a line that sets a run of
//! host pages. They stand on those definitions alone.
#![tactic(auto)]

mod laws;

pub use laws::{
    done_lines_have_changed_once, idle_slot_lines_cannot_starve, lines_change_once,
    runs_are_set_in_order, slot_lines_keep_shapes,
};
