use core_views::WriteProtectPlace;

/// Where the steps that forbid writes to a slot stand after one of them.
#[derive(Clone, Copy)]
pub enum WriteProtectNext {
    /// They go on with the step of this place.
    Goes(WriteProtectPlace),
    /// Writes are forbidden, and what is cached is flushed.
    Over,
}
