ghost use Rattle.std.specs.Prelude.{◌≡◌, ◌++◌, OnOk, string_bytes};
ghost use Rattle.step_text.specs.Endings.{ending_text};
ghost use Rattle.step_text.specs.Rows.{row_text};

use crate::ending::{Ending, push_ending};
use crate::span::Span;
use crate::value::Change;
use crate::word_place::{WordPlace, push_words};
use core_views::{Actor, NoMemory, Sizes};
use trace_reader::kind_name;

/// A turn and its step. With a count above 1 it is so many turns of the actor, one after
/// the other, whose steps are on words that follow one another in one pool page or frame,
/// and which find and leave the same values.
#[derive(Clone, Copy, Drop)]
pub struct Row {
    /// The number of the first turn, from 1.
    pub first: u64,
    /// How many turns there are, from 1.
    pub count: u32,
    /// The actor that makes the step.
    pub actor: Actor,
    /// The number of the kind of step, 1 to 41.
    pub code: u8,
    /// The word of the first turn's step.
    pub place: WordPlace,
    /// The role of the pool page that the word is in: the level of a table, 1 to 4, or
    /// another number. It is 0 where the word is in no pool page.
    pub role: u64,
    /// The value that the step found in the word.
    pub found: u64,
    /// The value that the step left in the word.
    pub left: u64,
}

/// Puts the line of a turn after a text: its number, its actor, the kind of its step, the
/// word, what the step found there and left, how the turn ended, and LF.
#[tactic(auto, unfolding(crate::specs::Rows::row_text))]
pub fn push_row(
    text: &mut String,
    sizes: &Sizes,
    row: &Row,
    ending: &Ending,
) -> Result<(), NoMemory>
    ensures { OnOk result (string_bytes text.new ≡ string_bytes text.old ++ row_text sizes.now row.now (ending_text sizes.now ending.now)) }
{
    let turns = Span {
        joint: "-",
        first: row.first,
        count: row.count,
    };
    let actor = row.actor;
    let kind = kind_name(row.code);
    write!(text, "{turns} {actor} {kind} ")?;
    push_words(text, sizes, row.place, row.count)?;
    let change = Change {
        area: row.place.area,
        role: row.role,
        found: row.found,
        left: row.left,
    };
    write!(text, " {change}")?;
    push_ending(text, sizes, ending)?;
    write!(text, "\n")?;
    Ok(())
}
