ghost use Rattle.std.specs.Prelude.{◌≡◌};
ghost use Rattle.core_views.specs.HostChanges.{is_own};
ghost use Rattle.core_views.specs.Held.{first_progress};

use crate::{Actor, Place, Sizes, Translation};

/// What a turn's step found: the word and its value.
#[derive(Clone, Copy, Drop)]
pub struct Seen {
    pub word: u32,
    pub value: u64,
}

/// How far an actor has come with its line, and what this line loaded and counted. Each
/// field is a topic of its own, which few kinds of step write.
#[derive(Clone, Copy, Drop)]
pub struct Progress {
    /// The sizes of the machine.
    pub sizes: Sizes,
    /// Whose hand it is.
    pub actor: Actor,
    /// Where the line stands in the order of its steps.
    pub place: Place,
    /// The translation that the access uses.
    pub used: Translation,
    /// The steps of this line since it began, or since its last delay.
    pub steps: u64,
    /// The delays of this line: at 2^64 - 1 it counts no more.
    pub delays: u64,
}

impl Progress {
    /// What an actor holds before its first line.
    pub fn first(sizes: Sizes, actor: Actor) -> Self
        ensures { result ≡ first_progress sizes actor }
    {
        Progress {
            sizes,
            actor,
            place: Place::Between,
            used: Translation {
                gfn: 0,
                level: 1,
                leaf: 0,
            },
            steps: 0,
            delays: 0,
        }
    }

    /// Whether the host page is one of the actor's own, which it may change: the pages of a
    /// machine are the host threads', so another actor has none.
    pub fn owns(&self, page: u64) -> bool
        ensures { result ≡ is_own self.now.sizes self.now.actor page }
    {
        match self.actor {
            Actor::Host(host) => self.sizes.owns(host, page),
            _ => false,
        }
    }
}
