//! The steps of the machine's parts: which word each is on and what it does there,
//! what it needs of the hand that makes it, and what this hand holds after it. The
//! functions that work this out are those of `topic_twins` and `part_twins`.
#![tactic(auto)]

mod invalidations;
mod part_step;
mod task;

pub use invalidations::{Target, end_with, gfn_behind, has_found, start_with};
pub use part_step::PartStep;
pub use task::{Task, map_of};
