//! The steps of a run as text, one line for each turn: the word that the step was on, by
//! name, what it found there and left, and how the turn ended.
#![tactic(auto)]

mod ending;
mod fold;
mod item;
mod laws;
mod row;
mod span;
mod value;
mod word_place;

pub use ending::Ending;
pub use fold::{Fold, push_fold};
pub use item::{push_item, push_rounds};
pub use laws::{kind_names_are_read, names_tell_words};
pub use row::{Row, push_row};
pub use word_place::{WordPlace, place_of, push_words};
