//! How a virtual processor goes into the guest and out of it, and what becomes of
//! its cached translations; and how another actor asks it for a flush of them.
#![tactic(auto)]

mod flush;
mod guest;

pub use flush::{Awaited, ask_flush, await_flush};
pub use guest::{Entered, enter, leave, paused};
