//! `plain_replay`: a judge beside the machine, for tests and the bench. It
//! reads a trace from standard input and writes what flat guest memory, run by
//! `Plain`, answers, line by line. It ends with status 0 where all of that was
//! written, and else with 1. That the text is the one of the trace's flat
//! history is proved; that `judge` writes it is tested.
#![tactic(auto)]

ghost use Rattle.std.specs.Prelude.{◌≡◌, false};

mod plain_text;

use plain_text::plain_text;
use std::alloc::Global;
use std::io;
use std::process::ExitCode;
use tdp_io::{Sink, Source, StdSink, StdSource, write_all};
use trace_reader::{Read, read_trace};

// Whether the source held a trace, and all that flat guest memory answers was
// written.
fn judge<S: Source, K: Sink>(alloc: Global, src: &mut S, out: &mut K) -> bool
    requires unfailed { K.failed out.old ≡ false }
{
    let Ok(Read::Trace(trace)) = read_trace(alloc, src) else {
        return false;
    };
    let Ok(text) = plain_text(alloc, &trace) else {
        return false;
    };
    write_all(out, text.as_bytes()).is_ok()
}

fn main(rt: HostRuntime) -> ExitCode {
    let mut src = StdSource::new(rt.reader());
    let mut out = StdSink::new(io::writer(&rt));
    let written = judge(rt.alloc(), &mut src, &mut out);
    ExitCode::from(if written { 0 } else { 1 })
}
