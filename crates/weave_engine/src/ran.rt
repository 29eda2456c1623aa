//! How a run of the engine ends, and what it leaves.
ghost use Rattle.std.specs.Prelude.{◌≡◌, IfOk, OnErr, Some, None};
ghost use Rattle.std.specs.Option.{option_copied, option_map};
ghost use Rattle.weave_engine.specs.Statuses.{status_by};
ghost use Rattle.weave_engine.specs.Woven.{how_ended, open_of};

use core_views::{Actor, Line, NoMemory};
use run_status::Status;
use step_seats::Closing;
use tdp_io::Stop;

/// How a run of the engine ended.
#[derive(Clone, Copy, Drop)]
pub enum How {
    /// Each line is answered, and all answers were written.
    Done,
    /// Writing failed: a prefix of the text was written.
    WriteFault,
    /// The turns in rounds were used up: the first line of the file that has no
    /// answer, and its actor.
    Unfinished { actor: Actor, line: u32 },
}

/// A run of the engine: how it ended, and the last words and hands.
#[derive(Drop)]
pub struct Ran {
    pub how: How,
    pub closing: Closing,
}

/// A line that has no answer: its actor, and its number in the file.
#[derive(Clone, Copy, Drop)]
pub struct OpenLine {
    pub actor: Actor,
    pub number: u32,
}

/// The actor and the number of this line, if there is one.
pub fn open_line(line: Option<&Line>) -> Option<OpenLine>
    ensures { result ≡ option_map open_of (option_copied line.entry) }
{
    match line {
        Some(line) => Some(OpenLine {
            actor: line.actor,
            number: line.number,
        }),
        None => None,
    }
}

/// How a run ended that came to this: the first line without an answer, if there is
/// one, or why it stopped.
pub fn how_of(came: Result<Option<OpenLine>, Stop>) -> Result<How, NoMemory>
    ensures ran { IfOk result (λ how. how_ended came ≡ Some how) }
    ensures refused { OnErr result (how_ended came ≡ None) }
{
    match came {
        Ok(None) => Ok(How::Done),
        Ok(Some(line)) => Ok(How::Unfinished {
            actor: line.actor,
            line: line.number,
        }),
        Err(Stop::Failed) => Ok(How::WriteFault),
        Err(Stop::NoMemory) => Err(NoMemory),
    }
}

/// The status of a program whose run of the engine ended so.
pub fn status_of(ran: Result<Ran, NoMemory>) -> Status
    ensures { result ≡ status_by ran }
{
    let Ok(Ran { how, .. }) = ran else {
        return Status::NoMemory;
    };
    match how {
        How::Done => Status::Done,
        How::WriteFault => Status::WriteFault,
        How::Unfinished { actor, line } => Status::Unfinished { actor, line },
    }
}
