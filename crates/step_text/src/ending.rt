ghost use Rattle.std.specs.Prelude.{◌≡◌, ◌++◌, OnOk, string_bytes};
ghost use Rattle.step_text.specs.Endings.{ending_text, lost_text};

use crate::WordPlace;
use crate::word_place::push_words;
use core_views::{Answer, NoMemory, Sizes};

/// How a turn ended.
#[derive(Clone, Copy, Drop)]
pub enum Ending<'a> {
    /// The actor goes on with its line.
    GoesOn,
    /// The actor waits, and makes the step again in its next turn.
    Waits,
    /// The line begins anew, since `count` invalidations are open, 1 or more. Their range
    /// has the guest frames from `start` up to, and without, `end`.
    Open {
        count: u64,
        start: u64,
        end: u64,
    },
    /// The line begins anew, since the sequence number of invalidations was `old` when the
    /// line read it, and is `now`.
    Moved {
        old: u64,
        now: u64,
    },
    /// The line begins anew, since the word at this place held `read` when the line read it,
    /// and holds `seen`.
    Lost {
        place: WordPlace,
        read: u64,
        seen: u64,
    },
    /// The line is answered.
    Answers(&'a Answer),
}

/// Puts after a text that the word at this place held one value and holds another.
fn push_lost(
    text: &mut String,
    sizes: &Sizes,
    place: WordPlace,
    read: u64,
    seen: u64,
) -> Result<(), NoMemory>
    ensures { OnOk result (string_bytes text.new ≡ string_bytes text.old ++ lost_text sizes.now place read seen) }
{
    write!(text, " begins anew (")?;
    push_words(text, sizes, place, 1)?;
    write!(text, " held 0x{read:x}, holds 0x{seen:x})")?;
    Ok(())
}

/// Puts an ending after a text, with a space before it. A turn that goes on has none.
pub(crate) fn push_ending(text: &mut String, sizes: &Sizes, ending: &Ending) -> Result<(), NoMemory>
    ensures { OnOk result (string_bytes text.new ≡ string_bytes text.old ++ ending_text sizes.now ending.now) }
{
    match ending {
        Ending::GoesOn => {}
        Ending::Waits => write!(text, " waits")?,
        Ending::Open { count, start, end } => {
            write!(text, " begins anew ({count} open over {start} to {end})")?
        }
        Ending::Moved { old, now } => write!(text, " begins anew (moved {old} to {now})")?,
        Ending::Lost { place, read, seen } => push_lost(text, sizes, *place, *read, *seen)?,
        Ending::Answers(answer) => write!(text, " answers {answer}")?,
    }
    Ok(())
}
