ghost use Rattle.std.specs.Prelude.{◌≡◌, ◌≤◌, length, IfOk, OnOk, IfSome};
ghost use Rattle.core_views.specs.Traces.{IsTrace};
ghost use Rattle.trace_reader.specs.Steps.{ReadsTo, NamesLine};
ghost use Rattle.trace_reader.specs.Reading.{head_of, reading, Outcome, Answers, ReadingFaults};

use crate::Read;
use crate::header::header;
use crate::line::{fault, put_words};
use crate::lines::{first_line, lines, taken};
use crate::refusal::ReadError;
use core_views::{Header, NoMemory, Trace};
use std::alloc::Global;
use tdp_io::{Input, Source, read_all};

#[tactic(auto, unfolding(crate::specs::Reading::head_of))]
fn head(alloc: Global, end: usize, ended: bool, text: &[u8]) -> Result<Header, ReadError>
    ensures read { ReadsTo 1 (λ h. h) result (head_of (record { number = 1; end = end; ended_by_lf = ended; bytes = text.now })) }
    ensures small { IfOk result (λ h. h.words ≤ 8) }
    ensures begun { OnOk result (end ≤ 16777216) }
{
    if let Some(reason) = fault(1, end, ended, text) {
        return Err(ReadError::Refused { line: 1, reason });
    }
    let mut words = Vec::new(alloc);
    put_words(&mut words, text)?;
    header(alloc, &words)
}

fn parse(alloc: Global, bytes: &[u8]) -> Result<Trace, ReadError>
    requires { length bytes.now ≤ 16777217 }
    ensures small { OnOk result (length bytes.now ≤ 16777216) }
    ensures read { NamesLine (λ t. t) result (reading bytes.now) }
    ensures in_range { IfOk result (λ t. IsTrace t) }
{
    let (text, ended, after) = first_line(bytes);
    let size = taken(text, ended);
    let header = head(alloc, size, ended, text)?;
    let body = lines(alloc, &header, 2, size, after)?;
    Ok(body.under(header))
}

/// Reads what the source has left, and answers the trace, or the first line
/// that is refused, or that a read failed. It reads at most one byte more than
/// an input may have.
pub fn read_trace<S: Source>(alloc: Global, src: &mut S) -> Result<Read, NoMemory>
    ensures read { Outcome (S.left src.old) (S.left src.new) (S.ended src.new) result }
    ensures told { IfSome (S.left src.old) (λ input. Answers input result) }
    ensures faults { ReadingFaults (S.faults src.old) (S.faults src.new) result }
{
    match read_all(alloc, src)? {
        Input::Fault => Ok(Read::ReadFault),
        Input::Bytes(bytes) => match parse(alloc, &bytes) {
            Ok(trace) => Ok(Read::Trace(trace)),
            Err(ReadError::Refused { line, reason }) => Ok(Read::Refused { line, reason }),
            Err(ReadError::NoMemory) => Err(NoMemory),
        },
    }
}
