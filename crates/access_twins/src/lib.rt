//! The running twins of a guest access: its stays in the guest, its faults and fast faults, and
//! what is cached.
#![tactic(auto)]

mod access;
mod cached;
mod fault;

pub use access::{
    access_note, fill_cache as access_caches, frame_used, part as access_part, stay_next, touch,
};
pub use cached::{asks_flush, flush, lookup};
pub use fault::{next as fault_next, part as fault_part};
