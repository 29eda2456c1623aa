use crate::{Slot, SlotField};

/// Where an actor is, as its own state word tells the others (KVM's
/// vcpu-requests.rst, "VCPU Mode").
#[derive(Clone, Copy, PartialEq, Eq, Drop)]
pub enum Stay {
    /// In no section, and not in the guest.
    Outside,
    /// In the guest.
    Guest,
    /// In a section, from whose loads nothing is given back until it ends.
    Section,
}

/// How an actor holds the MMU lock (KVM's locking.rst, `mmu_lock`).
#[derive(Clone, Copy, PartialEq, Eq, Drop)]
pub enum Hold {
    /// Not at all.
    Loose,
    /// As one of its readers.
    Shared,
    /// It counts as a reader, but saw this word, with a writer in it: it has yet
    /// to take itself out again.
    Owing(u64),
    /// As its writer, alone.
    Exclusive,
}

/// What an actor loaded of a slot set, slot after slot, in this section or under
/// the lock: of each slot the flags first, and where it is live its base, pages
/// and host page.
#[derive(Clone, Copy, Drop)]
pub struct SlotSearch {
    /// The pool page of the slot set, where one is held.
    pub set: Option<u64>,
    /// The slot whose word is next; 32 after the last one.
    pub id: u64,
    /// The word that is next.
    pub next: SlotField,
    /// The slot whose words are loaded; after it, the one that was loaded last.
    pub slot: Slot,
    /// Whether the flags that were loaded last have a dirty log in them.
    pub logged: bool,
    /// Whether each word of the slot was loaded, its host page last.
    pub whole: bool,
}

/// A host word, and the page that it is of.
#[derive(Clone, Copy, Drop)]
pub struct HostLook {
    pub page: u64,
    pub word: u64,
}

/// What was seen of host pages in a row, from the one that was looked at on, which are to be
/// mapped as one (mmu.rst, "Large pages").
#[derive(Clone, Copy, Drop)]
pub struct HostRow {
    /// How many pages were looked at, the first one among them.
    pub looked: u64,
    /// Whether these are one after the other, present, and each mapped as far after the first as
    /// it stands after it, and alike in all else.
    pub alike: bool,
    /// The first guest frame that slots give to the pages of the run, by the search so far.
    pub start: u64,
    /// The guest frame after the last of these; 0 where there are none.
    pub end: u64,
}

/// Which words of the invalidations were loaded under the lock, in the order of
/// the check.
#[derive(Clone, Copy, PartialEq, Eq, Drop)]
pub enum Checked {
    /// None, or not in this order.
    Nothing,
    /// How many are open.
    Count,
    /// And the first guest frame of their range.
    Start,
    /// And the guest frame after it.
    Range,
    /// And, after the count where it was 0, or after the range, the sequence
    /// number.
    All,
    /// The sequence number alone.
    Seq,
}

/// Host pages, one after the other, that are changed as one: an aligned run of them, which is a
/// span of the level.
#[derive(Clone, Copy, Drop)]
pub struct PageRun {
    /// The page of the run that was looked at.
    pub first: u64,
    /// The level: 1 where it is one page.
    pub level: u8,
    /// The host word of this page as it was seen, where the run has more than one.
    pub word: u64,
    /// How many of its pages are changed, in their order.
    pub changed: u64,
}

/// What an invalidation is of: the guest frames that slots give to host pages, or those of
/// a slot, from the first up to, but without, the one after the last. None where `end` is
/// `start`.
#[derive(Clone, Copy, Drop)]
pub struct Invalidated {
    /// The host pages that are to change; `None` where a slot is to be moved or deleted.
    pub pages: Option<PageRun>,
    /// The first guest frame.
    pub start: u64,
    /// The guest frame after the last one.
    pub end: u64,
}

/// What an actor loaded or stored of the invalidations: their sequence number before it
/// looked up and since, how many are open, and the range of guest frames of these; and
/// what its own one is of, if it has one open itself.
#[derive(Clone, Copy, Drop)]
pub struct Invalidations {
    /// The sequence number before the look-up of this section, where it was taken.
    pub snapshot: Option<u64>,
    /// How many are open.
    pub count: u64,
    /// The first guest frame of their range.
    pub start: u64,
    /// The guest frame after their range.
    pub end: u64,
    /// The sequence number under the lock.
    pub seq: u64,
    /// Which of them were loaded since the actor has the lock.
    pub checked: Checked,
    /// Whether one of the actor's own is among the open ones.
    pub opened: bool,
    /// What the actor's own one is of, from its first store on.
    pub own: Invalidated,
    /// Whether the actor has raised the sequence number for its own one.
    pub raised: bool,
}

/// A flush of what all virtual processors have cached (vcpu-requests.rst,
/// `KVM_REQ_TLB_FLUSH`): in the order of their places each is asked for it, and then each
/// awaited.
#[derive(Clone, Copy, Drop)]
pub struct Flush {
    /// How many were asked since the actor took the lock alone with no invalidation of its own
    /// open.
    pub asked: u64,
    /// How many of these were seen outside of the guest, or with nothing asked of them, since.
    pub awaited: u64,
}

/// A walk from the root down to an entry: the tables that it has come through
/// in this section or stay, or under the lock.
#[derive(Clone, Copy, Drop)]
pub struct TableWalk {
    /// The level of the table that it has come to, 4 at the root; 0 where none
    /// is held.
    pub level: u8,
    /// The span of guest frames that this table is for: its number among the spans
    /// of 512 entries of the level, 0 at the root.
    pub prefix: u64,
    /// The pool pages of its tables of levels 4, 3, 2 and 1, down to its level.
    pub root: u64,
    pub third: u64,
    pub second: u64,
    pub first: u64,
    /// The place of the entry that was loaded last in this table; 512 where none
    /// was.
    pub index: u64,
    /// The entry that was loaded last.
    pub entry: u64,
}

/// A claim of what is free in a map of bits: of a page in the pool's map, or of a frame in the
/// map of frames.
#[derive(Clone, Copy, Drop)]
pub struct MapClaim {
    /// The word of the map that the claim has come to: each before it was seen 0.
    pub at: u64,
    /// What was seen free in this word, a bit for each; 0 where it is yet to be
    /// loaded.
    pub seen: u64,
}

/// A pool page that an actor owns alone: claimed, and not linked or given back.
#[derive(Clone, Copy, Drop)]
pub struct OwnedPage {
    pub page: u64,
    /// How many of its words are filled, 512 and then its role: 0 to 513.
    pub filled: u64,
    /// The entry that the actor's walk had loaded when the page was claimed, and the level of
    /// its table.
    pub entry: u64,
    pub level: u8,
    /// Whether each of the 512 that is filled holds what is to stand there in a table that is
    /// linked in place of this entry: the child of a large leaf, and else 0.
    pub below: bool,
    /// The role that was stored, once all is filled.
    pub role: u64,
}

/// A frame that an actor owns alone: claimed, or that of a page which it has moved away, and
/// not given back.
#[derive(Clone, Copy, Drop)]
pub struct OwnedFrame {
    pub frame: u64,
    /// How many of its words are filled with those of a page.
    pub filled: u64,
    /// The word that was copied for the next one of them, if it was.
    pub copied: Option<u64>,
}

/// What an actor holds of the frames of the host.
#[derive(Clone, Copy, Drop)]
pub struct Frames {
    /// Its claim of a free frame in their map.
    pub claim: MapClaim,
    /// The frame that it owns.
    pub owned: Option<OwnedFrame>,
}

/// What an actor holds of each part of the machine. Each field is a topic of its
/// own, which few kinds of step write.
#[derive(Clone, Copy, Drop)]
pub struct Topics {
    pub stay: Stay,
    pub hold: Hold,
    pub search: SlotSearch,
    pub invalidations: Invalidations,
    pub walk: TableWalk,
    pub claim: MapClaim,
    pub owned: Option<OwnedPage>,
    /// The page of the old slot set, from its replacement until it is given back.
    pub retired: Option<u64>,
    /// The place of the actor whose state word is looked at next; each before it
    /// was seen outside.
    pub watched: u64,
    /// The host word that was loaded last in this look-up.
    pub host: Option<HostLook>,
    /// What was seen of the pages in a row with it.
    pub row: HostRow,
    /// The pause word that was loaded last.
    pub pause: u64,
    /// The guest frame for which a mark in the dirty log is owed: its leaf was made writable in this
    /// section, in a slot with a dirty log.
    pub owed: Option<u64>,
    /// The flush that the actor has asked for.
    pub flush: Flush,
    pub frames: Frames,
    /// The word of the dirty log after the one that was stored last.
    pub next_log_word: u64,
}

impl Topics {
    ghost use Rattle.std.specs.Prelude.{◌≡◌};
    ghost use Rattle.core_views.specs.Held.{first_topics};

    /// What an actor holds before its first step: nothing.
    pub fn first() -> Self
        ensures { result ≡ first_topics }
    {
        let slot = Slot {
            base: 0,
            pages: 0,
            host: 0,
            read_only: false,
        };
        Topics {
            stay: Stay::Outside,
            hold: Hold::Loose,
            search: SlotSearch {
                set: None,
                id: 0,
                next: SlotField::Flags,
                slot,
                logged: false,
                whole: false,
            },
            invalidations: Invalidations {
                snapshot: None,
                count: 0,
                start: 0,
                end: 0,
                seq: 0,
                checked: Checked::Nothing,
                opened: false,
                own: Invalidated {
                    pages: None,
                    start: 0,
                    end: 0,
                },
                raised: false,
            },
            walk: TableWalk {
                level: 0,
                prefix: 0,
                root: 0,
                third: 0,
                second: 0,
                first: 0,
                index: 512,
                entry: 0,
            },
            claim: MapClaim { at: 0, seen: 0 },
            owned: None,
            retired: None,
            watched: 0,
            host: None,
            row: HostRow {
                looked: 0,
                alike: false,
                start: 0,
                end: 0,
            },
            pause: 0,
            owed: None,
            flush: Flush {
                asked: 0,
                awaited: 0,
            },
            frames: Frames {
                claim: MapClaim { at: 0, seen: 0 },
                owned: None,
            },
            next_log_word: 0,
        }
    }
}
