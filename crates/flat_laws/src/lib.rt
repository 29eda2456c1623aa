//! Laws of flat guest memory: of the history that it has of a trace, of every lawful history, and of
//! closed ones. They stand on the definitions alone.
#![tactic(auto)]

mod laws;

pub use laws::{
    alone_is_flat, flat_history_is_lawful, images_are_memory, large_pages_stay,
    migrations_copy_all, migrations_copy_memory, migrations_keep_the_guest,
    reached_writes_are_kept, slot_lines_set_slots, unlawful_histories_are_refused,
    unlawful_migrations_are_refused, writes_are_kept,
};
