//! The tests of the parts of the machine and of what is made of them: small parts, pool pages, frames, host words and
//! boards, faults and whole lines, at machines that a trace's text describes; and of the printer of steps, where the
//! built `show_steps` can't be run. They stand here and not in the crates that they are of, since a crate with tests is
//! proved once without them and once with them; so all of it, with the tables of acts and the steps of lines that tests
//! share, is read for tests alone.
#![tactic(auto)]

#[cfg(test)]
mod cases;
#[cfg(test)]
mod expected;
#[cfg(test)]
mod fast_tests;
#[cfg(test)]
mod fault_tests;
#[cfg(test)]
mod find_tests;
#[cfg(test)]
mod frame_claim_tests;
#[cfg(test)]
mod grace_tests;
#[cfg(test)]
mod host_move_tests;
#[cfg(test)]
mod host_tests;
#[cfg(test)]
mod lines;
#[cfg(test)]
mod lock_tests;
#[cfg(test)]
mod machines;
#[cfg(test)]
mod pool_tests;
#[cfg(test)]
mod seat_tests;
#[cfg(test)]
mod seq_tests;
#[cfg(test)]
mod show_tests;
#[cfg(test)]
mod table_tests;
#[cfg(test)]
mod tests;
#[cfg(test)]
mod tlb_tests;
#[cfg(test)]
mod turns;
#[cfg(test)]
mod untold;
#[cfg(test)]
mod walk_tests;

#[cfg(test)]
use cases::{Acts, Came, all_that_come, make};
#[cfg(test)]
use lines::{go_to, is_next, make_steps};
#[cfg(test)]
use machines::{HEAD, HEAD_OF_POOL_8, has_actor, machine_of, trace_of};
