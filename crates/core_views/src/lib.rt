//! The trace, its answers and its events, and the definitions of what flat
//! guest memory is: `specs/` holds them, one topic a file.
#![tactic(auto)]

mod actor;
mod answer;
mod cache;
mod event;
mod host;
mod kind;
mod log_commands;
mod memory_slot;
mod migration;
mod no_memory;
mod place;
mod progress;
mod sequence;
mod sizes;
mod topics;
mod trace;

pub use actor::Actor;
pub use answer::{Answer, Answered, AnsweredLine, Refusal};
pub use cache::{Cache, Translation};
pub use event::{Event, EventKind};
pub use host::{HostEntry, run_pages};
pub use kind::{Kind, Operation, StepKind};
pub use log_commands::WORD_PAGES;
pub use memory_slot::{MemorySlot, SLOTS};
pub use migration::{Image, ImageWord, Migration};
pub use no_memory::NoMemory;
pub use place::{
    AccessPlace, BeginPlace, Cause, CheckStage, EndPlace, FaultEnd, FaultNext, FaultPlace,
    FrameRange, HostPlace, HostRunPlace, Leaving, LogPlace, Place, SlotChangePlace, SlotField,
    SplitEnd, SplitPlace, WriteProtectPlace,
};
pub use progress::{Progress, Seen};
pub use sequence::Sequence;
pub use sizes::{LogMode, Sizes};
pub use topics::{
    Checked, Flush, Frames, Hold, HostLook, HostRow, Invalidated, Invalidations, MapClaim,
    OwnedFrame, OwnedPage, PageRun, SlotSearch, Stay, TableWalk, Topics,
};
pub use trace::{
    Command, Header, HostChange, Item, Items, Line, Lines, MigrationCall, Op, RunChange, Slot,
    Trace, Until, Words,
};
