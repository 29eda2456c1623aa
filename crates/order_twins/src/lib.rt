//! The running twins of the orders that several forms of line nest: a claim, sharing the lock, a
//! watch of all others, a sweep, the begin and the end of an invalidation, and forbidding writes.
#![tactic(auto)]

mod claim;
mod invalidate;
mod share;
mod sweep;
mod watch;
mod write_protect;

pub use claim::{claim_next, claim_part, loads_last_word};
pub use invalidate::{begin_next, begin_part, end_next, end_part, own_open};
pub use share::{share_next, share_part};
pub use watch::{looked_at, watch_next};
pub use write_protect::{protect_next, protect_part};
