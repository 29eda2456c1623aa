//! Answered lines as text: what a run prints of them, one after the other.
#![tactic(auto)]

ghost use Rattle.std.specs.Prelude.{◌≡◌, ◌++◌, IfOk, OnOk, string_bytes};
ghost use Rattle.core_views.specs.Text.{line_text, lines_text};
ghost use Rattle.trace_text.specs.Laws.{LinesTell};

use core_views::{Actor, Answer, Answered, NoMemory};
use std::alloc::Global;

/// Puts one answered line after a text, as it is printed, with its LF.
#[tactic(auto, unfolding(core_views::specs::Text::line_text))]
pub fn push_line(
    text: &mut String,
    number: u32,
    actor: Actor,
    answer: &Answer,
) -> Result<(), NoMemory>
    ensures { OnOk result (string_bytes text.new ≡ string_bytes text.old ++ line_text number actor answer.now) }
{
    write!(text, "{number} {actor} {answer}\n")?;
    Ok(())
}

/// One answered line as it is printed, with its LF.
pub fn answer_line(
    alloc: Global,
    number: u32,
    actor: Actor,
    answer: &Answer,
) -> Result<String, NoMemory>
    ensures { IfOk result (λ t. string_bytes t ≡ line_text number actor answer.now) }
{
    let mut line = String::new(alloc);
    push_line(&mut line, number, actor, answer)?;
    Ok(line)
}

/// Answered lines as they are printed, one after the other.
pub fn text(alloc: Global, answers: &Answered) -> Result<String, NoMemory>
    ensures { IfOk result (λ t. string_bytes t ≡ lines_text answers.now) }
{
    let mut text = String::new(alloc);
    let mut rest = answers.as_slice();
    while let [line, more @ ..] = rest {
        push_line(&mut text, line.number, line.actor, &line.answer)?;
        rest = more;
    }
    Ok(text)
}

/// A printed line tells its number, its actor and its answer.
pub fn printed_lines_differ()
    ensures { LinesTell }
{}
