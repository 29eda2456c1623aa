//! Lines as the rows of tables have them:
//!
//! - `slot ID BASE PAGES HOST`, with `ro` if it is read only, and `delete ID`, of the manager;
//! - `log ID on` and `log ID off`, which give a slot a dirty log and take it away, `get ID`, which reads
//!   its log, and `clear ID FIRST PAGES WORD ..`, which clears it for so many pages from one on whose bits
//!   are set in the words;
//! - `read GFN WORD`, `write GFN WORD VALUE` and `add GFN WORD VALUE`, of a virtual processor;
//! - `start`, `round`, `finish` and `resume`, of the guest's migration;
//! - `allow PAGE`, `protect PAGE`, `evict PAGE`, `move PAGE`, `huge PAGE LEVEL` and `small PAGE`, with `by` and
//!   the number of the host thread.
ghost use Rattle.std.specs.Prelude.{IfSome};
ghost use Rattle.flat_model.specs.Kept.{IsInRange};

use crate::rows::{numbers, verb};
use core_views::{Actor, Command, HostChange, Line, MigrationCall, Op, RunChange, Slot, Words};
use std::alloc::Global;

/// A number that is small; 255 stands for one that isn't.
pub fn small(number: u64) -> u8 {
    u8::try_from(number).unwrap_or(255)
}

// The command that sets the slot, if its numbers are in the ranges of a line.
fn set_slot(id: u64, slot: Slot) -> Option<Command>
    ensures { IfSome result (λ command. IsInRange command) }
{
    if slot.pages == 0 || slot.pages >= 1 << 36 {
        return None;
    }
    if slot.base >= 1 << 36 || slot.host >= 1 << 36 || slot.host % 64 != 0 {
        return None;
    }
    Some(Command::SetSlot { id, slot })
}

// The command of an access, or of a slot.
fn change(row: &str, numbers: &[u64]) -> Option<Command>
    ensures { IfSome result (λ command. IsInRange command) }
{
    let (gfn, word, op) = match (verb(row), numbers) {
        ("slot", [id, base, pages, host]) => {
            let slot = Slot {
                base: *base,
                pages: *pages,
                host: *host,
                read_only: row.ends_with(" ro"),
            };
            return set_slot(*id, slot);
        }
        ("delete", [id]) => return Some(Command::DeleteSlot { id: *id }),
        ("read", [gfn, word]) => (*gfn, *word, Op::Read),
        ("write", [gfn, word, value]) => (*gfn, *word, Op::Write(*value)),
        ("add", [gfn, word, value]) => (*gfn, *word, Op::Add(*value)),
        _ => return None,
    };
    Some(Command::Access {
        gfn,
        word: small(word),
        op,
    })
}

// The command of a host thread.
fn host_change(row: &str, numbers: &[u64]) -> Option<Command>
    ensures { IfSome result (λ command. IsInRange command) }
{
    let (page, change) = match (verb(row), numbers) {
        ("huge", [page, level, _]) => {
            let change = RunChange::Huge(small(*level));
            return Some(Command::ChangeRun {
                page: *page,
                change,
            });
        }
        ("small", [page, _]) => {
            let change = RunChange::Small;
            return Some(Command::ChangeRun {
                page: *page,
                change,
            });
        }
        ("allow", [page, _]) => (*page, HostChange::Allow),
        ("protect", [page, _]) => (*page, HostChange::Protect),
        ("evict", [page, _]) => (*page, HostChange::Evict),
        ("move", [page, _]) => (*page, HostChange::Move),
        _ => return None,
    };
    Some(Command::ChangeHost { page, change })
}

// The command of a dirty log, or of a migration.
fn log_command(alloc: Global, row: &str, numbers: &[u64]) -> Option<Command>
    ensures { IfSome result (λ command. IsInRange command) }
{
    match (verb(row), numbers) {
        ("log", [id]) => {
            let on = row.ends_with(" on");
            Some(Command::SetLog { id: *id, on })
        }
        ("get", [id]) => Some(Command::GetLog { id: *id }),
        ("clear", [id, first, count, words @ ..]) => Some(Command::ClearLog {
            id: *id,
            first: *first,
            count: *count,
            words: Words::from_vec(words.to_vec(alloc).ok()?),
        }),
        ("start", _) => Some(Command::Migrate {
            call: MigrationCall::Start,
        }),
        ("round", _) => Some(Command::Migrate {
            call: MigrationCall::Round,
        }),
        ("finish", _) => Some(Command::Migrate {
            call: MigrationCall::Finish,
        }),
        ("resume", _) => Some(Command::Migrate {
            call: MigrationCall::Resume,
        }),
        _ => None,
    }
}

// The command of a row with these numbers.
fn command(alloc: Global, row: &str, numbers: &[u64]) -> Option<Command>
    ensures { IfSome result (λ command. IsInRange command) }
{
    match verb(row) {
        "slot" | "delete" | "read" | "write" | "add" => change(row, numbers),
        "allow" | "protect" | "evict" | "move" | "huge" | "small" => host_change(row, numbers),
        _ => log_command(alloc, row, numbers),
    }
}

/// The line of a row, if it is one. Of a host thread the number stands last.
pub fn line_of(alloc: Global, row: &str) -> Option<Line>
    ensures { IfSome result (λ line. IsInRange line.command) }
{
    let numbers = numbers(alloc, row).ok()?;
    let command = command(alloc, row, &numbers)?;
    let actor = match &command {
        Command::Access { .. } => Actor::Vcpu(0),
        Command::ChangeHost { .. } | Command::ChangeRun { .. } => {
            Actor::Host(small(numbers.last().copied().unwrap_or(255)))
        }
        _ => Actor::Manager,
    };
    Some(Line {
        number: 3,
        actor,
        command,
    })
}
