ghost use Rattle.std.specs.Prelude.{◌≡◌};
ghost use Rattle.run_status.specs.Statuses.{exit_code};

use core_views::Actor;
use trace_reader::Reason;

/// How a run of a program ended.
#[derive(Clone, Copy, Drop)]
pub enum Status {
    /// The command did all its work, and all of its output was written.
    Done,
    /// The words are none of the program's commands; the usage line was written.
    Usage,
    /// The trace is refused: the first refused line, and why. That line alone
    /// was written.
    Refused { line: u32, reason: Reason },
    /// Reading the trace failed. Nothing was written.
    ReadFault,
    /// Writing failed. What was written is how the whole output begins.
    WriteFault,
    /// The turns were used up before each line was answered: the first line of
    /// the file that has no answer.
    Unfinished { actor: Actor, line: u32 },
    /// Memory was refused. What was written is nothing, or how the whole output begins.
    NoMemory,
}

impl Status {
    /// The program's exit status.
    pub fn code(self) -> u8
        ensures { result ≡ exit_code self }
    {
        match self {
            Status::Done => 0,
            Status::Usage => 2,
            Status::Refused { .. } => 3,
            Status::ReadFault => 4,
            Status::WriteFault => 5,
            Status::Unfinished { .. } => 6,
            Status::NoMemory => 7,
        }
    }
}
