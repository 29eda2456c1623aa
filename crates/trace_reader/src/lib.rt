//! Reads a trace: the bytes of an input give the trace, or the first line that
//! is refused and the reason.
#![tactic(auto)]

mod body;
mod form;
mod grammar;
mod header;
mod host_form;
mod item;
mod line;
mod lines;
mod log_form;
mod number;
mod outcome;
mod pool;
mod reading;
mod reason;
mod refusal;
mod saying;
mod split_form;

pub use grammar::{grammar_is_exact, header_grammar_is_exact, input_grammar_is_exact};
pub use item::kind_name;
pub use outcome::Read;
pub use pool::need;
pub use reading::read_trace;
pub use reason::Reason;
