//! The answers that hands have, in file order.
ghost use Rattle.std.specs.Prelude.{◌≡◌, ◌+◌, ◌++◌, List, OnOk, slice_index, slice_set, string_bytes};
ghost use Rattle.core_views.specs.declared.answer.AnsweredLine.{AnsweredLine};
ghost use Rattle.core_views.specs.Sizes.{AreFewActors, index_of};
ghost use Rattle.core_views.specs.Text.{line_text, lines_text};
ghost use Rattle.closing_text.specs.ByLine.{AllHaveAnswered, AreByLine, IsAnswerAt, IsToPut};

use core_views::{Actor, Line, NoMemory, Sizes};
use hands::Hand;
use std::alloc::Global;
use trace_text::push_line;

/// Puts what each line was answered after a text, in file order. Each hand has answered all
/// lines of its actor.
pub fn push_by_line(
    alloc: Global,
    text: &mut String,
    sizes: &Sizes,
    lines: &[Line],
    hands: &[Hand],
) -> Result<(), NoMemory>
    requires answered { AllHaveAnswered sizes.now lines.now hands.now }
    ensures { OnOk result ((answers : List AnsweredLine) × AreByLine sizes.now lines.now hands.now answers
        × (string_bytes text.new ≡ string_bytes text.old ++ lines_text answers)) }
{
    let mut put = vec![in alloc; 0; sizes.actors() as usize]?;
    for line in lines {
        push_next(text, sizes, line.actor, hands, &mut put)?;
    }
    Ok(())
}

// Puts the next answer of the actor after a text: the first one of its hand that isn't put yet.
// `put` counts those of each actor that are put.
fn push_next(
    text: &mut String,
    sizes: &Sizes,
    actor: Actor,
    hands: &[Hand],
    put: &mut [usize],
) -> Result<(), NoMemory>
    requires few { AreFewActors sizes.now }
    requires left { IsToPut hands.now put.old (index_of sizes.now actor) }
    ensures text { OnOk result ((told : AnsweredLine) × IsAnswerAt hands.now put.old (index_of sizes.now actor) told
        × (string_bytes text.new ≡ string_bytes text.old ++ line_text told.number told.actor told.answer)) }
    ensures put { OnOk result (put.new ≡ slice_set put.old (index_of sizes.now actor) (slice_index put.old (index_of sizes.now actor) + 1)) }
{
    let place = sizes.index_of(actor) as usize;
    let told = &hands[place].answers()[put[place]];
    push_line(text, told.number, told.actor, &told.answer)?;
    put[place] += 1;
    Ok(())
}
