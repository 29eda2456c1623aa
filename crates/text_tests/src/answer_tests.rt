//! The text of several answers. What programs print is cases.
use core_views::{Actor, Answer, Answered, AnsweredLine, Refusal};
use std::alloc::Global;
use trace_text::text;

fn line(number: u32, actor: Actor, answer: Answer) -> AnsweredLine {
    AnsweredLine {
        number,
        actor,
        answer,
    }
}

/// Whether four lines are printed one after another.
pub fn prints_line_after_line(alloc: Global) -> Option<bool> {
    let lines = vec![in alloc;
        line(2, Actor::Manager, Answer::Refused(Refusal::BadId)),
        line(3, Actor::Worker(0), Answer::Done),
        line(4, Actor::Manager, Answer::Refused(Refusal::Overlap)),
        line(4, Actor::Manager, Answer::Refused(Refusal::HostOverlap)),
    ];
    let text = text(alloc, &Answered::from_vec(lines.ok()?)).ok()?;
    let wanted =
        "2 vm refused bad-id\n3 w0 done\n4 vm refused overlap\n4 vm refused host-overlap\n";
    Some(text.as_str() == wanted)
}
