/// Where an actor's line stands in the order of its steps: which step is next.
#[derive(Clone, Copy, Drop)]
pub enum Place {
    /// No line is under way.
    Between,
    Access(AccessPlace),
    SlotChange(SlotChangePlace),
    Host(HostPlace),
    HostRun(HostRunPlace),
    Log(LogPlace),
    Split(SplitPlace),
}

/// A word of a slot in its slot set.
#[derive(Clone, Copy, PartialEq, Eq, Drop)]
pub enum SlotField {
    Base,
    Pages,
    Host,
    Flags,
}

/// What becomes of an access after its stay in the guest.
#[derive(Clone, Copy, Drop)]
pub enum Leaving {
    /// It reached its word, and is answered so.
    Reached { frame: u64, value: u64 },
    /// It found no translation, and faults: fast, where it met a leaf that forbids the write
    /// (locking.rst, "Fast page fault").
    Faults { fast: bool },
}

/// The steps of a guest access, in their order: stays in the guest, and between
/// them faults. `again` says that a fault of this line has installed an entry.
#[derive(Clone, Copy, Drop)]
pub enum AccessPlace {
    /// Enters the guest.
    Enter { again: bool },
    /// Loads the pause.
    Pause { again: bool },
    /// Loads the root, where no cached translation allows the access.
    Root { again: bool },
    /// Loads the entry in the table that the walk has come to.
    Walk { again: bool },
    /// Reads, writes or adds to the content word.
    Touch,
    /// Leaves the guest.
    Leave(Leaving),
    /// A step of its fault.
    Fault(FaultPlace),
}

/// The steps of a line that changes a slot, in their order: a page of its own is
/// filled with the new slot set, published by one exchange under the lock, and the
/// old page given back after a grace period (kvm_main.c, `kvm_swap_active_memslots`).
/// Where a slot is moved or deleted, this stands within an invalidation of the slot's
/// guest frames (`kvm_invalidate_memslot`).
#[derive(Clone, Copy, Drop)]
pub enum SlotChangePlace {
    /// It has nothing to do, which is known before its first step: it is refused,
    /// or, with no refusal, leaves the slots as they are.
    AtOnce(Option<crate::Refusal>),
    /// Loads a word of the pool's map, or tries a page that it saw there.
    Claim {
        begun: bool,
    },
    /// Stores the next word of the new slot set.
    Fill,
    /// Stores the role of its page, once all words are stored.
    Role,
    /// Stores the next word of the slot's dirty log, or, where none has begun, the first.
    Arm {
        begun: bool,
    },
    /// A step that begins its invalidation.
    Begin(BeginPlace),
    /// Tries to take the lock alone.
    Exclude,
    /// Loads how many invalidations are open.
    Count,
    /// Gives the lock back, since some of others are open, and tries again.
    Close,
    /// Swaps the published slot set for the new one.
    Publish,
    /// Gives the lock back.
    Release,
    /// A step that ends its invalidation.
    End(EndPlace),
    /// Looks at the next other actor, until it is seen in no section.
    Watch,
    /// A step that forbids writes to the slot's guest frames, whose dirty log is to begin.
    WriteProtect {
        frames: FrameRange,
        place: WriteProtectPlace,
    },
    /// Takes the role from the page of the old slot set.
    Clear,
    /// Gives this page back.
    Give,
}

/// Guest frames, from `start` up to `end`, which isn't one of them.
#[derive(Clone, Copy, Drop)]
pub struct FrameRange {
    pub start: u64,
    pub end: u64,
}

/// The steps that forbid writes to a slot, in their order (KVM's mmu.c,
/// `kvm_mmu_slot_remove_write_access`; tdp_mmu.c, `kvm_tdp_mmu_wrprot_slot`): under the lock
/// alone the leaves of its guest frames forbid writes, and then what virtual processors have
/// cached is flushed.
#[derive(Clone, Copy, Drop)]
pub enum WriteProtectPlace {
    /// Tries to take the lock alone.
    Exclude,
    /// Loads the root, or, once rooted, the entry in the table that the walk has come to.
    Walk { rooted: bool },
    /// Forbids writes in the leaf.
    Protect,
    /// Gives the lock back.
    Release,
    /// Asks the next virtual processor for a flush.
    Ask,
    /// Looks at the next one that was asked, until it is seen outside of the guest or flushed.
    Await,
}

/// The steps that begin an invalidation, in their order (mmu_notifier.rst;
/// kvm_main.c, `kvm_mmu_invalidate_begin`; tdp_mmu.c, `kvm_tdp_mmu_unmap_gfn_range`): under the
/// lock alone it is counted among the open ones, the leaves of its range are zapped, and
/// what virtual processors have cached is flushed.
#[derive(Clone, Copy, Drop)]
pub enum BeginPlace {
    /// Tries to take the lock alone.
    Exclude,
    /// Loads which slot set is published, or, once begun, the next word of the search for
    /// the slot with the host page.
    Find { begun: bool },
    /// Loads how many invalidations are open.
    Count,
    /// Loads the first guest frame of their range, where some are open.
    RangeStart,
    /// Loads the guest frame after it.
    RangeEnd,
    /// Stores the first guest frame of the range that holds its own, too.
    SetStart,
    /// Stores the guest frame after it.
    SetEnd,
    /// Stores that one more is open.
    SetCount,
    /// Loads the root, or, once rooted, the entry in the table that the walk has come to.
    Walk { rooted: bool },
    /// Zaps the leaf.
    Zap,
    /// Asks the next virtual processor for a flush.
    Ask,
    /// Looks at the next one that was asked, until it is seen outside of the guest or flushed.
    Await,
    /// Gives the lock back.
    Release,
}

/// The steps that end an invalidation, in their order (kvm_main.c,
/// `kvm_mmu_invalidate_end`): under the lock alone the sequence number is raised, and then
/// one less is open.
#[derive(Clone, Copy, Drop)]
pub enum EndPlace {
    /// Tries to take the lock alone.
    Exclude,
    /// Loads the sequence number.
    Seq,
    /// Stores the next one.
    SetSeq,
    /// Loads how many are open.
    Count,
    /// Stores that one less is open.
    SetCount,
    /// Gives the lock back.
    Release,
}

/// The steps of a line that changes a host page, in their order: it looks at the page's
/// host word, and changes it within an invalidation of the guest frames that slots give
/// to the page. A line that moves the page claims a frame before, into which it copies the
/// page's words within the invalidation, and gives the old frame back after a grace period
/// (page_migration.rst).
#[derive(Clone, Copy, Drop)]
pub enum HostPlace {
    /// Loads the host word of the page; where the page isn't the actor's own, the line is
    /// refused with this step.
    Look { moves: bool },
    /// Loads a word of the map of frames, or tries a frame that it saw there.
    Claim { begun: bool },
    /// A step that begins its invalidation.
    Begin(BeginPlace),
    /// Loads the next word of the page.
    Copy,
    /// Stores it in the frame that it owns.
    Store,
    /// Exchanges the host word.
    Change,
    /// A step that ends its invalidation.
    End(EndPlace),
    /// Looks at the next other actor, until it is seen in no section.
    Watch,
    /// Gives the old frame back.
    Free,
}

/// The steps of a line that maps a run of host pages as one large page, or its pages by
/// themselves, in their order (mmu.rst, "Large pages"): it looks at each page of the run, and
/// changes each within an invalidation of the guest frames that slots give to them.
#[derive(Clone, Copy, Drop)]
pub enum HostRunPlace {
    /// Loads the host word of the page that the line names; where the run isn't the actor's own,
    /// the line is refused with this step.
    Look,
    /// Loads the host word of the next page of the run; the line may be refused with it.
    LookOn,
    /// A step that begins its invalidation.
    Begin(BeginPlace),
    /// Exchanges the host word of the next page of the run.
    Change,
    /// A step that ends its invalidation.
    End(EndPlace),
}

/// The steps of a line that reads a slot's dirty log, in their order (kvm_main.c,
/// `kvm_get_dirty_log_protect` and `kvm_clear_dirty_log_protect`). Where it takes out what it
/// reads, it does so under the lock alone, and forbids writes to each page that it took; then
/// what virtual processors have cached is flushed. A get in the manual modes loads the words
/// alone (`KVM_CAP_MANUAL_DIRTY_LOG_PROTECT2`).
#[derive(Clone, Copy, Drop)]
pub enum LogPlace {
    /// It is refused, which is known before its first step.
    AtOnce(crate::Refusal),
    /// Tries to take the lock alone.
    Exclude,
    /// Takes the bits for which it asks out of the next word, or, where none has begun, the
    /// first.
    Take { begun: bool },
    /// Loads the root.
    Root,
    /// Loads the next entry on the way from the root to the leaf of a page that it took; pages
    /// are counted from the first one for which it asks.
    Walk { page: u64 },
    /// Forbids writes in this leaf.
    Protect { page: u64 },
    /// Gives the lock back.
    Release,
    /// Asks the next virtual processor for a flush.
    Ask,
    /// Looks at the next one that was asked, until it is seen outside of the guest or flushed.
    Await,
    /// Loads the next word, or, where none has begun, the first.
    Peek { begun: bool },
}

/// Why a fault is to begin anew (locking.rst; tdp_mmu.c, `RET_PF_RETRY`).
#[derive(Clone, Copy, Debug, Drop)]
pub enum Cause {
    /// So many invalidations are open, over guest frames from `start` up to
    /// `end`, the fault's among them.
    Open {
        count: u64,
        start: u64,
        end: u64,
        gfn: u64,
    },
    /// The sequence number of invalidations was `old` before the look-up, and is
    /// `now`.
    Moved {
        old: u64,
        now: u64,
    },
    /// This word, an entry or the host word of the page, held `read`, and holds `seen`, which isn't
    /// `read` or is frozen.
    Entry {
        word: u32,
        read: u64,
        seen: u64,
    },
}

/// What a fault ends with.
#[derive(Clone, Copy, Drop)]
pub enum FaultEnd {
    /// An entry that allows the access stands.
    Installed,
    /// No slot gives the guest frame a page for this access.
    Mmio,
    /// The host doesn't allow writes to the page.
    HostFault,
    /// No pool page was free for a table.
    Starved,
    /// A fast fault has allowed the write in the leaf that it read, and has marked the page where
    /// its slot has a dirty log.
    Fixed { marked: bool },
    /// The write can't be allowed in this entry; 0 where no slot has the guest frame. The fault is
    /// to be made whole.
    NotFast(u64),
    /// It is to begin anew, a whole fault or a fast one.
    Retry { fast: bool, cause: Cause },
}

/// The word that a check of a look-up loads next.
#[derive(Clone, Copy, PartialEq, Eq, Drop)]
pub enum CheckStage {
    /// How many invalidations are open.
    Count,
    /// The first guest frame of their range, where some are open.
    Start,
    /// The guest frame after it.
    End,
    /// The sequence number, where none is open over the guest frame.
    Seq,
}

/// The steps of a fault, in their order (tdp_mmu.c, `kvm_tdp_mmu_map`); and those of a fast one,
/// which allows the write in a leaf that stands, without the lock (locking.rst, "Fast page fault").
#[derive(Clone, Copy, Drop)]
pub enum FaultPlace {
    /// Begins a section.
    Begin,
    /// Takes the sequence number of invalidations.
    Snapshot,
    /// Loads which slot set is published, or, once begun, the next word of its
    /// search.
    Find { begun: bool },
    /// Loads the host word of the page behind the guest frame.
    Host,
    /// Brings this page in, which isn't present.
    Bring,
    /// Tries to share the lock, or takes itself out of its readers again.
    Share,
    /// Loads the next word of the check.
    Check(CheckStage),
    /// Loads the root, or, once rooted, the entry in the table that the walk has
    /// come to.
    Walk { rooted: bool },
    /// Loads a word of the pool's map, or tries a page that it saw there.
    Claim { begun: bool },
    /// Stores the next word of the page that it owns.
    Fill,
    /// Stores its role, once all words are stored.
    Role,
    /// Links the page as a table.
    Link,
    /// Gives the page back, where another actor's entry stands.
    Give(FaultEnd),
    /// Puts the leaf, for an access that writes or doesn't.
    Leaf { write: bool },
    /// Begins the section of a fast fault.
    FastBegin,
    /// Loads which slot set is published, or, once begun, the next word of its search.
    FastFind { begun: bool },
    /// Loads the root, or, once rooted, the entry in the table that the walk has come to.
    FastWalk { rooted: bool },
    /// Allows the write in the leaf.
    Fix,
    /// Marks the page in the dirty log of its slot: without the lock in a fast fault.
    Mark { fast: bool },
    /// Gives the lock back.
    Unshare(FaultEnd),
    /// Ends the section.
    End(FaultEnd),
}

/// What a line that splits a large leaf ends with.
#[derive(Clone, Copy, Drop)]
pub enum SplitEnd {
    /// A table stands in place of the leaf: this line has put it there.
    Split,
    /// There was no large leaf: the walk ended at this entry, absent or a leaf of level 1.
    Nothing(u64),
    /// The entry isn't the leaf that was read: this was found there.
    Changed(u64),
    /// No pool page was free for the table.
    Starved,
}

/// The steps of a line that splits the large leaf over a guest frame, in their order (tdp_mmu.c,
/// `tdp_mmu_split_huge_page`): under the shared lock a page of its own is filled with the leaf's
/// children, and linked as a table in its place.
#[derive(Clone, Copy, Drop)]
pub enum SplitPlace {
    /// Begins a section.
    Begin,
    /// Tries to share the lock, or takes itself out of its readers again.
    Share,
    /// Loads the root, or, once rooted, the entry in the table that the walk has come to.
    Walk { rooted: bool },
    /// Loads a word of the pool's map, or tries a page that it saw there.
    Claim { begun: bool },
    /// Stores the next child in the page that it owns.
    Fill,
    /// Stores its role, once all children are stored.
    Role,
    /// Links the page as a table, in place of the leaf.
    Link,
    /// Gives the page back, where another entry stands.
    Give(SplitEnd),
    /// Gives the lock back.
    Unshare(SplitEnd),
    /// Ends the section.
    End(SplitEnd),
}

/// Where a fault stands after a step.
#[derive(Clone, Copy, Drop)]
pub enum FaultNext {
    /// It goes on with the step of this place.
    Goes(FaultPlace),
    /// It is over.
    Ends(FaultEnd),
}
