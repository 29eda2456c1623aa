//! The second step of the translation from guest frames to frames (KVM's
//! mmu.rst, "Memory"): from a host page to its frame, by the host word; and the
//! guest's operations on the words of frames; and the steps of a page that the host moves
//! to another frame (Linux's page_migration.rst).
#![tactic(auto)]

mod content;
mod host;
mod moves;

pub use content::{load, touch};
pub use host::{Changed, bring_in, change, look};
pub use moves::{copy, frame_give, store};
