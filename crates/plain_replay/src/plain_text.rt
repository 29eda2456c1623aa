//! What flat guest memory answers a whole trace, as text.
ghost use Rattle.std.specs.Prelude.{◌≡◌, IfOk, string_bytes};
ghost use Rattle.core_views.specs.FlatHistory.{flat_history};
ghost use Rattle.core_views.specs.Text.{text};
ghost use Rattle.core_views.specs.Traces.{AreLinesOf};

use core_views::{NoMemory, Trace};
use flat_model::Plain;
use std::alloc::Global;
use trace_text::answer_line;

/// Runs the lines of the trace one after another, each alone, over `Plain`,
/// and gives the text of what they are answered.
pub fn plain_text(alloc: Global, trace: &Trace) -> Result<String, NoMemory>
    requires { AreLinesOf trace.now.header trace.now.lines }
    ensures { IfOk result (λ t. string_bytes t ≡ text (flat_history trace.now)) }
{
    let mut plain = Plain::new(alloc, trace)?;
    let mut text = String::new(alloc);
    let lines = trace.lines.as_slice();
    for line in lines {
        let answer = plain.line(alloc, line)?;
        text.push_str(&answer_line(alloc, line.number, line.actor, &answer)?)?;
    }
    Ok(text)
}
