//! The steps of the machine's parts: which word each is on, and what is done
//! with it.
/// One step of a part of the machine, with the number that its caller gives.
/// Which word it is on follows from this, and from what the hand holds.
#[derive(Clone, Copy, Drop)]
pub enum PartStep {
    /// Enters the guest.
    Enter,
    /// Leaves the guest.
    Leave,
    /// Loads the pause.
    Pause,
    /// Begins a section.
    Begin,
    /// Ends a section.
    End,
    /// Adds itself to the readers of the lock.
    Share,
    /// Takes itself out of them.
    Unshare,
    /// Takes the lock alone.
    Exclude,
    /// Gives it back.
    Release,
    /// Loads this word of the pool's map.
    Map(u64),
    /// Tries to take the lowest free page of those seen there.
    Claim,
    /// Stores this number in the next word of its page.
    Fill(u64),
    /// Stores this number as the role of its page.
    Role(u64),
    /// Gives its page back, which was never linked.
    Give,
    /// Loads which slot set is published.
    Slots,
    /// Loads the next word of the search.
    Slot,
    /// Loads the sequence number of invalidations.
    Seq,
    /// Loads how many are open.
    Count,
    /// Loads the first guest frame of their range.
    RangeStart,
    /// Loads the guest frame after it.
    RangeEnd,
    /// Loads the root.
    Root,
    /// Loads the entry of this guest frame in the table that the walk has come to.
    Walk(u64),
    /// Loads the next entry of a sweep, over this guest frame.
    Sweep(u64),
    /// Loads the entry of this guest frame in the root of its walk, which begins anew there.
    WalkAnew(u64),
    /// Links the page that it owns as a table, at the entry of this guest frame.
    Link(u64),
    /// Puts the leaf of this guest frame's page at its entry, for an access that writes or
    /// doesn't.
    Leaf { gfn: u64, write: bool },
    /// Allows writes in the leaf of this guest frame that its walk has come to.
    Fix(u64),
    /// Marks the host page for which a mark is owed in the dirty log.
    Mark,
    /// Loads the host word of this page.
    Host(u64),
    /// Loads the host word of this page, which comes after those in a row that were looked at.
    HostOn(u64),
    /// Loads the state word of the actor at this place.
    Watch(u64),
    /// Publishes the slot set in the page that it owns.
    Publish,
    /// Takes the role from the page of the old slot set.
    Clear,
    /// Gives this page back.
    GiveOld,
    /// Stores this guest frame as the first of the range of open invalidations, with its own
    /// in it.
    SetStart { own: u64, gfn: u64 },
    /// Stores this guest frame as the one after their range.
    SetEnd { own: u64, gfn: u64 },
    /// Stores this number of open invalidations: one more with its own, or one less.
    SetCount(u64),
    /// Stores this sequence number.
    SetSeq(u64),
    /// Zaps the leaf of this guest frame that its walk has come to.
    Zap(u64),
    /// Asks the virtual processor at this place for a flush.
    Ask(u64),
    /// Loads the state word of this virtual processor, which was asked.
    Await(u64),
    /// Brings the host page in that was looked up.
    Bring,
    /// Exchanges the host word that was looked up for this one.
    Change(u64),
    /// Exchanges the word of the next page of the run that its invalidation is of.
    ChangeNext,
    /// Loads this word of the map of frames.
    FrameMap(u64),
    /// Tries to take the lowest free frame of those seen there.
    Frame,
    /// Loads the content word with this index, the next one of the page that is to move.
    Copy(u64),
    /// Stores it in the content word with this index, of the frame that it owns.
    Store(u64),
    /// Gives its frame back.
    GiveFrame,
    /// Clears the bits of this mask in this word of the dirty log.
    Take { word: u64, mask: u64 },
    /// Forbids writes in the leaf of this guest frame that its walk has come to.
    Protect(u64),
    /// Loads this word of the dirty log.
    Peek(u64),
    /// Stores this number in this word of the dirty log, of a slot that has none yet.
    Arm { word: u64, bits: u64 },
}
