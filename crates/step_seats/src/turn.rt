ghost use Rattle.std.specs.Prelude.{◌≡◌};
ghost use Rattle.step_seats.specs.PartTurns.{in_way};

use core_views::{Cause, Seen};

/// How a turn of a job or a part ended. A turn makes one step.
#[derive(Clone, Copy, Drop)]
pub enum Turn<T> {
    /// There is more to do.
    More,
    /// Another actor stands in the way: this word was found, with this value. The
    /// turn is to be made again.
    Wait(Seen),
    /// It is to begin anew, for this cause.
    Retry(Cause),
    /// It is done, with this answer.
    Done(T),
}

impl<T> Turn<T> {
    /// What stands in the way, where the turn waits.
    pub fn in_way(&self) -> Option<Seen>
        ensures { result ≡ in_way self.now }
    {
        match self {
            Turn::Wait(seen) => Some(*seen),
            _ => None,
        }
    }
}
