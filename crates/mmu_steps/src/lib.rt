//! The running twins of the machine's definitions: which step a hand allows, and what it
//! does to the hand. The order of the steps, and what holds at every moment, `mmu_core`
//! has.
//! It passes on what the crates above need of the code below: a crate above lists this one alone.
#![tactic(auto)]

mod delays;
mod laws;
mod parts;
mod stay;
mod step;
mod waits;

pub use access_twins::{access_note, asks_flush};
pub use laws::{knows, rests};
pub use part_twins::{
    Closing, Hand, SLOT_SET_ROLE, SlotSet, WRITER, has_to_flush, has_writer, in_section,
    needs_line, next_watched, page_of, page_owned, part_kind, swept_to, word_below, word_looked,
    words_filled,
};
pub use parts::{allows, part_rests};
pub use step::{advance, next_kind, next_step};
pub use waits::{Waiting, saw_open};
