ghost use Rattle.std.specs.Prelude.{◌≡◌, Some};
ghost use Rattle.core_views.specs.Text.{image_word_text};
ghost use Rattle.core_views.specs.Migrations.{is_barred, is_migrating, is_paused, is_running, is_stopped};

use crate::{Command, MigrationCall, Sequence};
use std::fmt;

/// How far the migration of the guest has come: its pages are copied while it runs, and the
/// last ones once it has been stopped.
#[derive(Clone, Copy, Drop)]
pub enum Migration {
    /// None was started, or the guest was resumed since.
    Unstarted,
    /// It was started, and the guest runs.
    Running,
    /// The pause was set: no virtual processor that looks at it makes an access.
    Pausing,
    /// Each virtual processor was seen outside of the guest since the pause was set, so none
    /// makes an access.
    Stopped,
}

impl Migration {
    /// Whether one was started, and the guest not resumed since.
    pub fn is_migrating(self) -> bool
        ensures { result ≡ is_migrating self }
    {
        match self {
            Migration::Unstarted => false,
            Migration::Running | Migration::Pausing | Migration::Stopped => true,
        }
    }

    /// Whether it goes on while the guest runs.
    pub fn is_running(self) -> bool
        ensures { result ≡ is_running self }
    {
        match self {
            Migration::Running => true,
            Migration::Unstarted | Migration::Pausing | Migration::Stopped => false,
        }
    }

    /// Whether the pause is set.
    pub fn is_paused(self) -> bool
        ensures { result ≡ is_paused self }
    {
        match self {
            Migration::Pausing | Migration::Stopped => true,
            Migration::Unstarted | Migration::Running => false,
        }
    }

    /// Whether the guest is stopped.
    pub fn is_stopped(self) -> bool
        ensures { result ≡ is_stopped self }
    {
        match self {
            Migration::Stopped => true,
            Migration::Unstarted | Migration::Running | Migration::Pausing => false,
        }
    }
}

/// A content word of the image of guest memory that isn't 0: of a slot, by its ID, of a
/// page of it, counted from its first, and which word of the page it is.
#[derive(Clone, Copy, Drop)]
pub struct ImageWord {
    pub id: u64,
    pub page: u64,
    pub word: u8,
    pub value: u64,
}

/// A word of an image as it is printed.
impl fmt::Display for ImageWord {
    ghost output = { λ at. Some (image_word_text at) };

    fn fmt<W: fmt::Write>(&self, f: &mut fmt::Formatter<W>) -> fmt::Result {
        let ImageWord {
            id,
            page,
            word,
            value,
        } = self;
        write!(f, "{id}:{page}:{word}={value}")
    }
}

/// Words of the image, in the order of slots, pages and words.
pub type Image = Sequence<ImageWord>;

impl Command {
    /// Whether the line is refused while a migration goes on.
    pub fn is_barred(&self) -> bool
        ensures { result ≡ is_barred self.now }
    {
        match self {
            Command::SetSlot { .. } | Command::DeleteSlot { .. } | Command::SetLog { .. } => true,
            Command::GetLog { .. } | Command::ClearLog { .. } => true,
            Command::Migrate { call } => *call == MigrationCall::Start,
            Command::Access { .. } | Command::Split { .. } => false,
            Command::ChangeHost { .. } | Command::ChangeRun { .. } => false,
        }
    }
}
