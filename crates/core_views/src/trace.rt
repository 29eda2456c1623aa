ghost use Rattle.std.specs.Prelude.{◌≡◌, [], None};
ghost use Rattle.core_views.specs.Memory.{word_after_op};
ghost use Rattle.core_views.specs.Slots.{contains, has_host_page, is_write};

use crate::{Actor, Sequence};
use std::alloc::{AllocError, Global};

/// Numbers that a header lists.
pub type Words = Sequence<u64>;

/// The lines of a trace, in file order.
pub type Lines = Sequence<Line>;

/// What a guest access does to its content word.
#[derive(Clone, Copy, Drop)]
pub enum Op {
    Read,
    /// Stores this number.
    Write(u64),
    /// Adds this number, modulo 2^64.
    Add(u64),
}

impl Op {
    /// Whether it may change the word.
    pub fn is_write(self) -> bool
        ensures { result ≡ is_write self }
    {
        match self {
            Op::Read => false,
            Op::Write(_) | Op::Add(_) => true,
        }
    }

    /// What the word holds after it, where it held `before`.
    pub fn stored(self, before: u64) -> u64
        ensures { result ≡ word_after_op self before }
    {
        match self {
            Op::Read => before,
            Op::Write(number) => number,
            Op::Add(number) => before.wrapping_add(number),
        }
    }
}

/// A memory slot (KVM's api.rst, `KVM_SET_USER_MEMORY_REGION`): guest frames
/// `base` up to `base + pages` are the host pages from `host` on.
#[derive(Clone, Copy, PartialEq, Eq, Drop)]
pub struct Slot {
    /// The first guest frame number.
    pub base: u64,
    /// The number of 4 KiB pages.
    pub pages: u64,
    /// The first host page, a multiple of 64.
    pub host: u64,
    /// Guest writes leave the guest (`KVM_MEM_READONLY`).
    pub read_only: bool,
}

impl Slot {
    /// Whether the guest frame is one of its own.
    pub fn contains(&self, gfn: u64) -> bool
        ensures { result ≡ contains gfn self.now }
    {
        self.base <= gfn && gfn - self.base < self.pages
    }

    /// Whether the host page is one of those behind its guest frames.
    pub fn has_host_page(&self, page: u64) -> bool
        ensures { result ≡ has_host_page page self.now }
    {
        self.host <= page && page - self.host < self.pages
    }
}

/// What a host thread does to one of its pages. It is what KVM's MMU notifiers tell of
/// (api.rst, `KVM_CAP_SYNC_MMU`: changes in the backing of a slot are reflected into
/// the guest).
#[derive(Clone, Copy, PartialEq, Eq, Drop)]
pub enum HostChange {
    /// Copies it to a frame that no page names, and names that.
    Move,
    /// Takes it away; its content stays in its frame.
    Evict,
    /// Forbids writes to it.
    Protect,
    /// Allows writes to it.
    Allow,
}

/// How much a host thread maps as one of a run of its pages (mmu.rst, "Large pages").
#[derive(Clone, Copy, Drop)]
pub enum RunChange {
    /// Maps the run that begins at the page as one large page of this level.
    Huge(u8),
    /// Maps each page of the large page that has this one by itself.
    Small,
}

/// What a line does to the migration of the guest.
#[derive(Clone, Copy, PartialEq, Eq, Drop)]
pub enum MigrationCall {
    /// Starts it: each page of each slot is to be copied.
    Start,
    /// Reads the dirty logs, and copies the pages that are to be copied, while the guest runs.
    Round,
    /// Stops the guest, and does the same.
    Finish,
    /// Lets the guest run again, and ends the migration.
    Resume,
}

/// What a line asks for: one variant for each form of line.
#[derive(Drop)]
pub enum Command {
    /// A guest access to content word `word` of guest frame `gfn`: one aligned
    /// 8-byte read, write or add at byte address `4096 * gfn + 8 * word`.
    Access {
        gfn: u64,
        word: u8,
        op: Op,
    },
    /// Sets the memory slot with this ID, which may be any number.
    SetSlot {
        id: u64,
        slot: Slot,
    },
    /// Deletes the memory slot with this ID, which may be any number.
    DeleteSlot {
        id: u64,
    },
    /// Changes what the host maps this page to, which may be any number.
    ChangeHost {
        page: u64,
        change: HostChange,
    },
    /// Changes how much the host maps as one, of the run at this page, which may be any number.
    ChangeRun {
        page: u64,
        change: RunChange,
    },
    /// Gives the memory slot with this ID a dirty log, or takes its log away. The ID may be
    /// any number, here and below.
    SetLog {
        id: u64,
        on: bool,
    },
    /// Reads the dirty log of the memory slot with this ID (KVM's api.rst,
    /// `KVM_GET_DIRTY_LOG`).
    GetLog {
        id: u64,
    },
    /// Clears the dirty log of the memory slot with this ID for those of `count` of its
    /// pages, from its page `first` on, whose bits are set (`KVM_CLEAR_DIRTY_LOG`). Bit 0
    /// of the first word is of page `first`; bits from `count` on count for nothing.
    ClearLog {
        id: u64,
        first: u64,
        count: u64,
        words: Words,
    },
    /// Starts, goes on with, finishes or ends the migration of the guest.
    Migrate {
        call: MigrationCall,
    },
    /// Splits the large leaf over guest frame `gfn`, if one stands there, into a table of leaves
    /// one level down.
    Split {
        gfn: u64,
    },
}

// By hand: in the derived one each number has a `?` of its own, which takes long to prove.
impl Clone for Command {
    ghost is_clone = { λ v w. w ≡ v };

    fn clone(&self) -> Result<Self, AllocError> {
        Ok(match self {
            Command::Access { gfn, word, op } => Command::Access {
                gfn: *gfn,
                word: *word,
                op: *op,
            },
            Command::SetSlot { id, slot } => Command::SetSlot {
                id: *id,
                slot: *slot,
            },
            Command::DeleteSlot { id } => Command::DeleteSlot { id: *id },
            Command::ChangeHost { page, change } => Command::ChangeHost {
                page: *page,
                change: *change,
            },
            Command::ChangeRun { page, change } => Command::ChangeRun {
                page: *page,
                change: *change,
            },
            Command::SetLog { id, on } => Command::SetLog { id: *id, on: *on },
            Command::GetLog { id } => Command::GetLog { id: *id },
            Command::ClearLog {
                id,
                first,
                count,
                words,
            } => Command::ClearLog {
                id: *id,
                first: *first,
                count: *count,
                words: words.clone()?,
            },
            Command::Migrate { call } => Command::Migrate { call: *call },
            Command::Split { gfn } => Command::Split { gfn: *gfn },
        })
    }
}

/// A line of the trace: its number in the file (the header is line 1), its
/// actor, and what it asks for.
#[derive(Clone, Drop)]
pub struct Line {
    pub number: u32,
    pub actor: Actor,
    pub command: Command,
}

/// The first line of a trace: the sizes of the machine.
#[derive(Drop)]
pub struct Header {
    /// The trace's version, 1.
    pub version: u8,
    /// Virtual processors, 1 to 16.
    pub vcpus: u8,
    /// Workers, 0 to 4.
    pub workers: u8,
    /// Host pages, 1 to 1,048,576.
    pub pages: u64,
    /// Host frames, `pages` to 2,097,152; times `words` at most 8,388,608.
    pub frames: u64,
    /// Content words of a page, at byte offsets 0, 8, ..: 1, 2, 4 or 8.
    pub words: u8,
    /// Pool pages for tables and slot sets, 4 to 16,384.
    pub pool: u32,
    /// Cached translations of a virtual processor, 1 to 64.
    pub cache: u8,
    /// The dirty log's mode: 0 automatic, 1 manual, 2 manual with all bits
    /// initially set.
    pub manual: u8,
    /// The first host page of each host thread, from 0 and strictly rising.
    pub hosts: Words,
}

/// How long the turns of a schedule item go on. They end before where the actor
/// has no line left.
#[derive(Clone, Copy, Drop)]
pub enum Until {
    /// So many turns, 1 to 10,000,000.
    Turns(u32),
    /// Until a turn answers a line, waits or begins anew.
    Answered,
    /// The same, or until a turn makes a step of the kind with this number, 1 to 41.
    Made(u8),
}

/// An item of the schedule: whose turns are next, and until when.
#[derive(Clone, Copy, Drop)]
pub struct Item {
    pub actor: Actor,
    pub until: Until,
}

/// The items of a schedule, in file order.
pub type Items = Sequence<Item>;

/// A trace: its header, its lines in file order, and in which order their actors
/// take their turns.
#[derive(Drop)]
pub struct Trace {
    pub header: Header,
    pub lines: Lines,
    /// How many of the lines stand above `go`, if it is there: these run alone.
    pub go: Option<u32>,
    pub items: Items,
}

impl Trace {
    /// A trace in which `go` doesn't stand, and nothing is scheduled.
    pub fn unscheduled(alloc: Global, header: Header, lines: Lines) -> Self
        ensures { result ≡ record { header = header; lines = lines; go = None; items = [] } }
    {
        Trace {
            header,
            lines,
            go: None,
            items: Items::from_vec(Vec::new(alloc)),
        }
    }
}
