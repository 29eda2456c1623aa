//! How a command ends that runs no trace: by the usage line, or by the line of a refusal.
ghost use Rattle.std.specs.Prelude.{◌≡◌, IfOk, false, string_bytes};
ghost use Rattle.run_status.specs.Refusals.{refusal_text};
ghost use Rattle.run_status.specs.Statuses.{WriteCause, WritesRefusal, WritesUsage, status_ended, status_is_write_fault};

use crate::status::Status;
use std::alloc::{AllocError, Global};
use tdp_io::{Sink, Stop, write_all};
use trace_reader::Reason;

#[tactic(auto, unfolding(crate::specs::Refusals::refusal_text))]
fn refusal(alloc: Global, line: u32, reason: Reason) -> Result<String, AllocError>
    ensures { IfOk result (λ t. string_bytes t ≡ refusal_text line reason) }
{
    let name = reason.name();
    format!(in alloc; "refused {line} {name}\n")
}

/// The words are no command of the program: writes its usage line.
pub fn usage<K: Sink>(line: &str, out: &mut K) -> Status
    requires unfailed { K.failed out.old ≡ false }
    ensures written { WritesUsage line.now (K.written out.old) (K.written out.new) result }
    ensures write { WriteCause (K.faults out.old) (K.faults out.new) result }
    ensures failed { K.failed out.new ≡ status_is_write_fault result }
{
    match write_all(out, line.as_bytes()) {
        Ok(()) => Status::Usage,
        Err(Stop::Failed) => Status::WriteFault,
        Err(Stop::NoMemory) => Status::NoMemory,
    }
}

/// The input is refused at this line: writes which one it is, and why.
pub fn refuse<K: Sink>(alloc: Global, line: u32, reason: Reason, out: &mut K) -> Status
    requires unfailed { K.failed out.old ≡ false }
    ensures written { WritesRefusal line reason (K.written out.old) (K.written out.new) result }
    ensures write { WriteCause (K.faults out.old) (K.faults out.new) result }
    ensures failed { K.failed out.new ≡ status_is_write_fault result }
{
    let Ok(text) = refusal(alloc, line, reason) else {
        return Status::NoMemory;
    };
    match write_all(out, text.as_bytes()) {
        Ok(()) => Status::Refused { line, reason },
        Err(Stop::Failed) => Status::WriteFault,
        Err(Stop::NoMemory) => Status::NoMemory,
    }
}

/// How a command ended that does all its work or stops.
pub fn ended(written: Result<(), Stop>) -> Status
    ensures { result ≡ status_ended written }
{
    match written {
        Ok(()) => Status::Done,
        Err(Stop::Failed) => Status::WriteFault,
        Err(Stop::NoMemory) => Status::NoMemory,
    }
}
