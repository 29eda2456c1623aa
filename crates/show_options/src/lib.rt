//! What the words of a call of `show_steps` ask for, or what is wrong with them.
#![tactic(auto)]

mod asked;
mod fault;
mod names;
mod reading;

pub use asked::{Asked, Bound, Command, Form};
pub use fault::{Fault, Wrong, push_fault, usage_text, word_at};
pub use reading::read_words;
