//! What comes into the program and what goes out of it: sources of bytes,
//! sinks of bytes, both with a count of the calls that failed, and gates that
//! hold an actor before its turn.
#![tactic(auto)]

mod gate;
mod memory;
mod sink;
mod source;
mod standard;

pub use gate::{Gate, NoGate};
pub use memory::{MemSink, MemSource};
pub use sink::{Output, Sink, Stop, write_all};
pub use source::{Input, LIMIT, Pulled, Source, read_all};
pub use standard::{StdSink, StdSource};
