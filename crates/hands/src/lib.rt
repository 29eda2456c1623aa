//! What an actor's hand is, and a set of memory slots: the running twins of what
//! `core_views` says an actor holds, and of what a line asks of slots and dirty logs.
#![tactic(auto)]

mod hand;
mod log_commands;
mod migration_calls;
mod slot_commands;
mod slot_set;

pub use hand::{Closing, Hand, Hands};
pub use slot_set::SlotSet;
