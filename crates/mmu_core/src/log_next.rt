use core_views::{LogPlace, Refusal};

/// What a step comes to of a line that reads a dirty log.
#[derive(Drop)]
pub enum LogNext {
    /// The line goes on with the step of this place.
    Goes(LogPlace),
    /// It is refused.
    Refused(Refusal),
    /// It is answered with what it has read.
    Reads,
}
