use crate::Reason;
use core_views::Trace;

/// What reading a source answers.
#[derive(Drop)]
pub enum Read {
    /// The trace.
    Trace(Trace),
    /// The first line that is refused, and why.
    Refused { line: u32, reason: Reason },
    /// A read failed.
    ReadFault,
}
