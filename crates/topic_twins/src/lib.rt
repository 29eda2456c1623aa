//! What a step makes of what an actor holds of each part of the machine, and what this says: the
//! running twins of `part_steps` that need no hand.
#![tactic(auto)]

mod control_words;
mod frames;
mod invalidations;
mod page_runs;
mod spans;
mod sweep;
mod topics;

pub use control_words::{
    GUEST_BITS, REQUEST_BIT, SECTION_BIT, WRITER, has_to_flush, has_writer, in_section,
};
pub use frames::{frame_owned, word_held, words_moved};
pub use invalidations::{has_found_looked, run_aimed};
pub use page_runs::{
    is_several, level_looked, looked_on, makes_run, one_look, page_next, run_looked, word_given,
    word_next, word_seen,
};
pub use spans::{entry_index, span_of};
pub use sweep::{
    begin_anew, go_up, has_entry, is_done, is_sweeping, sweep_on, swept_to, walks_anew,
};
pub use topics::{begin_stay, is_won, search, step_topics, tried_bit};
