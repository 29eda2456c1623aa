use crate::{Actor, Answer, HostEntry, Line, MemorySlot, Op, Words};

/// One event of a history: what an actor did to, or saw of, flat guest memory.
#[derive(Drop)]
pub struct Event {
    pub actor: Actor,
    pub kind: EventKind,
}

/// What happened in an event.
#[derive(Drop)]
pub enum EventKind {
    /// The actor began this line.
    Begun(Line),
    /// The line looked at whether virtual processors are paused now.
    LookedAtPause,
    /// The line looked at the memory slots as they are now.
    LookedAtSlots,
    /// The line looked at what the host maps this page to now.
    LookedAtHost {
        page: u64,
    },
    /// The host page wasn't present, and is from now on: an access brings it in.
    BroughtIn {
        page: u64,
    },
    /// The access itself: `word` is the index of the content word in its page,
    /// `before` its value before the access.
    Accessed {
        gfn: u64,
        word: u8,
        op: Op,
        frame: u64,
        before: u64,
    },
    /// The line is given up with no effect: an access leaves the guest without
    /// touching memory, a slot line finds no free page for the new slot set, or a move
    /// of a host page finds no free frame.
    Exited(Answer),
    /// From now on this is the memory slot with the ID, or there is none.
    SlotChanged {
        id: u64,
        slot: Option<MemorySlot>,
    },
    /// From now on the host maps the page so. Where it was mapped so before, this
    /// is told too.
    HostChanged {
        page: u64,
        entry: HostEntry,
    },
    /// From now on the guest's writes to the slot with the ID are logged; up to here none of
    /// its pages is dirty, or, where `all` says so, each is.
    Armed {
        id: u64,
        all: bool,
    },
    /// The dirty log of the slot with the ID begins to be read.
    Taken {
        id: u64,
    },
    /// It was read, with these guest frames in it, in rising order, and they are dirty no
    /// longer.
    Harvested {
        id: u64,
        frames: Words,
    },
    /// It was read, with these guest frames in it, in rising order, and is as it was.
    Shown {
        id: u64,
        frames: Words,
    },
    /// The migration of the guest starts: each page of each slot is to be copied.
    MigrationStarted,
    /// From now on a virtual processor that looks at the pause makes no access.
    PauseSet,
    /// From now on no virtual processor makes an access.
    GuestStopped,
    /// A word of the host page that is behind the guest frame was copied into the image, and
    /// holds `value`. With `whole` it was the last one of its page, which isn't to be copied
    /// any longer.
    WordCopied {
        gfn: u64,
        page: u64,
        word: u8,
        value: u64,
        whole: bool,
    },
    /// The pause is over, and so is the migration.
    Resumed,
    /// The line with this number is answered.
    Answered {
        line: u32,
        answer: Answer,
    },
}
