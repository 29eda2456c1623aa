ghost use Rattle.std.specs.Prelude.{◌≡◌, ◌++◌, Some, codes};
ghost use Rattle.core_views.specs.SlotCommands.{refused_or_done};
ghost use Rattle.std.specs.Fmt.{WritesOnOk};
ghost use Rattle.core_views.specs.Text.{answer_text, bits_text, image_text, image_word_text, refusal_name};

use crate::{Actor, Image, ImageWord, Sequence, Words};
use std::fmt;

/// What a line of the trace is answered.
#[derive(Clone, Drop)]
pub enum Answer {
    /// An access reached this host frame; `value` is the content word before it.
    Reached { frame: u64, value: u64 },
    /// No slot gives the guest frame a host page for this operation: the
    /// access leaves the guest as an MMIO exit (KVM's api.rst, `KVM_EXIT_MMIO`).
    Mmio,
    /// A write or add, and the host doesn't allow writes to the page.
    HostFault,
    /// No pool page was free for a table that the access needs.
    Starved,
    /// The guest is paused, so the access isn't made.
    Paused,
    /// The change took effect: of a slot, or of a host page that wasn't moved.
    Done,
    /// The host page was moved to this frame.
    Moved(u64),
    /// A dirty log, as far as it was asked for: a bit for each page, bit 0 of the first word
    /// first.
    Bits(Words),
    /// So many pages were copied into the image of guest memory.
    Copied(u64),
    /// The image of guest memory: its words that aren't 0.
    Image(Image),
    /// The line is refused, and nothing has changed.
    Refused(Refusal),
}

/// Why a line is refused when it is run.
#[derive(Clone, Copy, PartialEq, Eq, Drop)]
pub enum Refusal {
    /// The slot's ID is above 31.
    BadId,
    /// The slot's guest frames reach past 2^36, or its host pages past the
    /// machine's.
    TooLarge,
    /// No slot has this ID.
    Missing,
    /// The slot has a dirty log: it can't be deleted or moved, or get another.
    Logged,
    /// The slot has no dirty log that could be taken away.
    NoLog,
    /// The slot that has this ID has another number of pages.
    Resize,
    /// The slot that has this ID has other host pages, or is read-only where
    /// the new one isn't, or the other way round.
    Fixed,
    /// Another slot has one of the guest frames.
    Overlap,
    /// Another slot has one of the host pages.
    HostOverlap,
    /// The page isn't one of the host thread's own.
    OutOfRange,
    /// The host maps the page and others of its run as one large page.
    IsHuge,
    /// The pages of the run can't be mapped as one large page.
    NotAligned,
    /// Each frame is named by some page, so none is free for a move.
    NoFrame,
    /// The pages to be cleared aren't whole words of the slot's log.
    BadRange,
    /// The guest is being migrated.
    Migrating,
    /// Some slot has no dirty log, so the guest can't be migrated.
    NotLogged,
    /// No migration goes on while the guest runs, or, for the line that resumes it, the guest isn't stopped.
    NotStarted,
}

impl Answer {
    /// The answer of a line that has nothing to do: it is refused, or, with no refusal,
    /// done.
    pub fn at_once(refusal: Option<Refusal>) -> Self
        ensures { result ≡ refused_or_done refusal }
    {
        match refusal {
            Some(refusal) => Answer::Refused(refusal),
            None => Answer::Done,
        }
    }
}

impl Refusal {
    /// The name that is printed for it.
    pub fn name(self) -> &'static str
        ensures { result.now ≡ refusal_name self }
    {
        match self {
            Refusal::BadId => "bad-id",
            Refusal::TooLarge => "too-large",
            Refusal::Missing => "missing",
            Refusal::Logged => "logged",
            Refusal::NoLog => "no-log",
            Refusal::Resize => "resize",
            Refusal::Fixed => "fixed",
            Refusal::Overlap => "overlap",
            Refusal::HostOverlap => "host-overlap",
            Refusal::OutOfRange => "out-of-range",
            Refusal::IsHuge => "is-huge",
            Refusal::NotAligned => "not-aligned",
            Refusal::NoFrame => "no-frame",
            Refusal::BadRange => "bad-range",
            Refusal::Migrating => "migrating",
            Refusal::NotLogged => "not-logged",
            Refusal::NotStarted => "not-started",
        }
    }
}

/// A line that was answered: its number in the file, its actor, its answer.
#[derive(Clone, Drop)]
pub struct AnsweredLine {
    pub number: u32,
    pub actor: Actor,
    pub answer: Answer,
}

/// Answered lines, in the order of their answers.
pub type Answered = Sequence<AnsweredLine>;

/// The answer as it is printed after a line's number and its actor.
impl fmt::Display for Answer {
    ghost output = { λ answer. Some (answer_text answer) };

    fn fmt<W: fmt::Write>(&self, f: &mut fmt::Formatter<W>) -> fmt::Result {
        match self {
            Answer::Reached { frame, value } => write!(f, "frame {frame} value {value}"),
            Answer::Mmio => write!(f, "mmio"),
            Answer::HostFault => write!(f, "hostfault"),
            Answer::Starved => write!(f, "starved"),
            Answer::Paused => write!(f, "paused"),
            Answer::Done => write!(f, "done"),
            Answer::Moved(frame) => write!(f, "frame {frame}"),
            Answer::Bits(words) => {
                write!(f, "bits")?;
                write_bits(f, words.as_slice())
            }
            Answer::Copied(pages) => write!(f, "copied {pages}"),
            Answer::Image(words) => {
                write!(f, "image")?;
                write_image(f, words.as_slice())
            }
            Answer::Refused(refusal) => {
                let name = refusal.name();
                write!(f, "refused {name}")
            }
        }
    }
}

// Writes words of a dirty log, each after a space.
fn write_bits<W: fmt::Write>(f: &mut fmt::Formatter<W>, words: &[u64]) -> fmt::Result
    ensures { WritesOnOk W.write_str_gives f.old result (bits_text words.now) f.new }
{
    'words: for word in words {
        write!(f, " 0x{word:x}")?;
    }
    Ok(())
}

// Writes words of an image, each after a space.
fn write_image<W: fmt::Write>(f: &mut fmt::Formatter<W>, words: &[ImageWord]) -> fmt::Result
    ensures { WritesOnOk W.write_str_gives f.old result (image_text words.now) f.new }
{
    let mut rest = words;
    while let Some((at, more)) = rest.split_first() {
        write_word(f, at)?;
        rest = more;
    }
    Ok(())
}

// Writes a word of an image after a space.
fn write_word<W: fmt::Write>(f: &mut fmt::Formatter<W>, at: &ImageWord) -> fmt::Result
    ensures { WritesOnOk W.write_str_gives f.old result (codes " " ++ image_word_text at.now) f.new }
{
    write!(f, " {at}")
}
