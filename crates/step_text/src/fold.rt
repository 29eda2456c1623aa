//! Turns of one actor that are told in one line.
ghost use Rattle.std.specs.Prelude.{◌≡◌, ◌++◌, OnOk, Some, string_bytes};
ghost use Rattle.step_text.specs.Folds.{doing_text, fold_text, turns_text};
ghost use Rattle.step_text.specs.Rows.{told_text};

use crate::row::Row;
use crate::span::Span;
use crate::value::Change;
use crate::word_place::push_words;
use core_views::{NoMemory, Sizes};
use std::fmt;
use trace_reader::kind_name;

/// Turns of one actor that are told in one line. They store into words that follow one
/// another, or they wait at one word.
#[derive(Clone, Copy, Drop)]
pub struct Fold {
    /// The first turn, and how many there are.
    pub row: Row,
    /// The number of the last turn.
    pub last: u64,
    /// They wait.
    pub waits: bool,
}

/// The numbers of the turns: `-` stands between the first and the last where all turns from
/// the one to the other are of the fold, and else `..`.
#[derive(Clone, Copy, Drop)]
struct Turns {
    first: u64,
    count: u32,
    last: u64,
}

impl fmt::Display for Turns {
    ghost output = { λ turns. Some (turns_text turns.first turns.count turns.last) };

    fn fmt<W: fmt::Write>(&self, f: &mut fmt::Formatter<W>) -> fmt::Result {
        let Turns { first, count, last } = *self;
        // The turn after the last may have a number of more than 64 bits.
        if last as u128 + 1 == first as u128 + count as u128 {
            let all = Span {
                joint: "-",
                first,
                count,
            };
            write!(f, "{all}")
        } else {
            write!(f, "{first}..{last}")
        }
    }
}

// Puts the kind of step, its words, and the value found there and left.
fn push_told(text: &mut String, sizes: &Sizes, row: &Row) -> Result<(), NoMemory>
    ensures { OnOk result (string_bytes text.new ≡ string_bytes text.old ++ told_text sizes.now row.now) }
{
    let kind = kind_name(row.code);
    write!(text, "{kind} ")?;
    push_words(text, sizes, row.place, row.count)?;
    let change = Change {
        area: row.place.area,
        role: row.role,
        found: row.found,
        left: row.left,
    };
    write!(text, " {change}")?;
    Ok(())
}

// Puts what the turns of a fold do, after their numbers and the actor.
fn push_doing(text: &mut String, sizes: &Sizes, fold: &Fold) -> Result<(), NoMemory>
    ensures { OnOk result (string_bytes text.new ≡ string_bytes text.old ++ doing_text sizes.now fold.now) }
{
    let row = fold.row;
    if !fold.waits {
        return push_told(text, sizes, &row);
    }
    if row.count < 2 {
        push_told(text, sizes, &row)?;
        write!(text, " waits")?;
        return Ok(());
    }
    let kind = kind_name(row.code);
    let count = row.count;
    write!(text, "{kind} ")?;
    push_words(text, sizes, row.place, 1)?;
    write!(text, " waits {count} times")?;
    Ok(())
}

/// Puts the line of a fold after a text: the numbers of its turns, their actor, what they
/// do, and LF.
#[tactic(auto, unfolding(crate::specs::Folds::fold_text))]
pub fn push_fold(text: &mut String, sizes: &Sizes, fold: &Fold) -> Result<(), NoMemory>
    ensures { OnOk result (string_bytes text.new ≡ string_bytes text.old ++ fold_text sizes.now fold.now) }
{
    let turns = Turns {
        first: fold.row.first,
        count: fold.row.count,
        last: fold.last,
    };
    let actor = fold.row.actor;
    write!(text, "{turns} {actor} ")?;
    push_doing(text, sizes, fold)?;
    write!(text, "\n")?;
    Ok(())
}
