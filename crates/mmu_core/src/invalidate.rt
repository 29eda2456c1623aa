use core_views::{BeginPlace, EndPlace};

/// Where the begin of an invalidation stands after a step.
#[derive(Clone, Copy)]
pub enum BeginNext {
    /// It goes on with the step of this place.
    Goes(BeginPlace),
    /// It has begun: what is cached is flushed, and the lock is given back.
    Begun,
}

/// Where its end stands after a step.
#[derive(Clone, Copy)]
pub enum EndNext {
    /// It goes on with the step of this place.
    Goes(EndPlace),
    /// It has ended, and the lock is given back.
    Ended,
}
