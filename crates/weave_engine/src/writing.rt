//! What is printed waits, and is written in pieces.
ghost use Rattle.std.specs.Prelude.{◌≡◌, false, [], string_bytes};
ghost use Rattle.core_views.specs.Text.{line_text};
ghost use Rattle.tdp_io.specs.Ends.{WroteFaults, is_failed};
ghost use Rattle.weave_engine.specs.Writes.{Buffers};

use core_views::{Actor, Answer};
use tdp_io::{Sink, Stop, write_all};
use trace_text::push_line;

/// The output is written in pieces of this many bytes or a little more.
const PIECE: usize = 8192;

/// Writes all that waits, where it is 8,192 bytes or more: so at most a piece waits.
pub fn write_piece<K: Sink>(out: &mut K, pending: &mut String) -> Result<(), Stop>
    requires unfailed { K.failed out.old ≡ false }
    ensures bytes { Buffers (K.written out.old) (K.written out.new) (string_bytes pending.old) (string_bytes pending.new) result [] }
    ensures faults { WroteFaults (K.faults out.old) (K.faults out.new) result }
    ensures failed { K.failed out.new ≡ is_failed result }
{
    if pending.len() >= PIECE {
        write_all(out, pending.as_bytes())?;
        pending.clear();
    }
    Ok(())
}

/// Puts what a line is answered.
pub fn put_answer<K: Sink>(
    number: u32,
    actor: Actor,
    answer: &Answer,
    out: &mut K,
    waiting: &mut String,
) -> Result<(), Stop>
    requires unfailed { K.failed out.old ≡ false }
    ensures bytes { Buffers (K.written out.old) (K.written out.new) (string_bytes waiting.old) (string_bytes waiting.new) result
        (line_text number actor answer.now) }
    ensures faults { WroteFaults (K.faults out.old) (K.faults out.new) result }
    ensures failed { K.failed out.new ≡ is_failed result }
{
    if push_line(waiting, number, actor, answer).is_err() {
        return Err(Stop::NoMemory);
    }
    write_piece(out, waiting)
}
