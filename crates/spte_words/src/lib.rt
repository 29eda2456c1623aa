//! Words of the machine's memory, and where each word stands: second-stage
//! page table entries, host words, memory slot flags, and the map of areas.
#![tactic(auto)]

mod area;
mod bit;
mod host_word;
mod laws;
mod slot_flags;
mod spte;
mod spte_kind;
mod word_map;

pub use area::Area;
pub use host_word::HostWord;
pub use laws::{
    entries_tell_what_they_are, host_words_and_flags_tell_what_they_are, places_are_apart,
};
pub use slot_flags::SlotFlags;
pub use spte::{Spte, WRITE};
pub use spte_kind::SpteKind;
pub use word_map::{ENTRIES, WordMap};
