//! What runs over words in one table. The command `live`: the lines above `go` alone; then one worker for each actor, in
//! a thread of its own where threads can be made. One list of steps explains all words and answers that they leave. And
//! the command `replay`: each line of a trace alone, in file order, where each step is one atomic operation. `weave` runs
//! over a `PlainMachine`, whose words are a vector. The cases of `alone` in `examples/cases` have the same lines run by
//! both, and each prints what was worked out by hand.
#![tactic(auto)]

mod gathering;
mod living;
mod replaying;

pub use gathering::{Gathered, gather};
pub use living::live;
pub use replaying::replay;
