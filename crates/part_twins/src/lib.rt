//! The running twins of the steps of the machine's parts: `part_steps` says which word each is
//! on and what it does there, and what it needs of the hand that makes it.
//! It passes on what is done to what is held of the parts, and hands: a crate above lists this one alone.
#![tactic(auto)]

mod needs;
mod part_step;
mod runs;
mod slot_words;
mod task;

pub use hands::{Closing, Hand, SlotSet};
pub use needs::{has_needs, needs_line, next_watched};
pub use part_step::{
    own_task, page_owned, part_kind, part_task, table_page, walk_task, word_below, word_looked,
    words_filled,
};
pub use runs::maps_run;
pub use slot_words::{SLOT_SET_ROLE, is_fixable, page_of, set_word};
pub use task::kind_of;
pub use topic_twins::{
    WRITER, begin_stay, entry_index, frame_owned, has_entry, has_to_flush, has_writer, in_section,
    is_done, is_several, is_won, level_looked, looked_on, makes_run, one_look, run_looked, search,
    step_topics, sweep_on, swept_to, word_next, words_moved,
};
