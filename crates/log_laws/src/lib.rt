//! Laws of the definitions of dirty logs: what a reading of a log tells of the history before it, what
//! the words of its answer tell, and closed traces. They stand on those definitions alone, and no
//! crate stands on them.
#![tactic(auto)]

mod laws;

pub use laws::{
    log_lines_print, log_words_tell_frames, logged_writes_are_kept, more_log_lines_print,
    readings_tell_what_was_written, unlawful_readings_are_refused,
};
