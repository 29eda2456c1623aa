//! What a word's value is told as: its number, and in words what it says.
ghost use Rattle.std.specs.Prelude.{◌≡◌, Some};
ghost use Rattle.step_text.specs.Values.{change_text, entry_text, host_text, permission, state_text, value_text, whereabouts};

use spte_words::{Area, HostWord, Spte, SpteKind};
use std::fmt;

/// Whether writes are allowed, in two letters.
fn permission(writable: bool) -> &'static str
    ensures { result.now ≡ permission writable }
{
    if writable { "rw" } else { "ro" }
}

/// An entry of a table of this level, 1 to 4.
#[derive(Drop)]
struct Entry {
    level: u8,
    word: u64,
}

impl fmt::Display for Entry {
    ghost output = { λ entry. Some (entry_text entry.level entry.word) };

    fn fmt<W: fmt::Write>(&self, f: &mut fmt::Formatter<W>) -> fmt::Result {
        let entry = Spte::from_word(self.word);
        match entry.kind(self.level) {
            SpteKind::Absent => write!(f, "absent"),
            SpteKind::Frozen => write!(f, "frozen"),
            SpteKind::Table(page) => write!(f, "link {page}"),
            SpteKind::Leaf => {
                let frame = entry.frame();
                let writes = permission(entry.is_writable());
                write!(f, "leaf frame {frame} {writes}")
            }
        }
    }
}

/// A host word.
#[derive(Drop)]
struct HostPage {
    word: u64,
}

impl fmt::Display for HostPage {
    ghost output = { λ page. Some (host_text page.word) };

    fn fmt<W: fmt::Write>(&self, f: &mut fmt::Formatter<W>) -> fmt::Result {
        let host = HostWord::from_word(self.word);
        let frame = host.frame();
        let writes = permission(host.is_writable());
        if host.is_present() {
            write!(f, "frame {frame} {writes}")
        } else {
            write!(f, "absent frame {frame} {writes}")
        }
    }
}

/// A state word.
#[derive(Drop)]
struct State {
    word: u64,
}

/// Where the actor of a state word is.
fn whereabouts(word: u64) -> &'static str
    ensures { result.now ≡ whereabouts word }
{
    if word % 2 == 1 {
        "in guest"
    } else if word / 2 % 2 == 1 {
        "in section"
    } else {
        "outside"
    }
}

impl fmt::Display for State {
    ghost output = { λ state. Some (state_text state.word) };

    fn fmt<W: fmt::Write>(&self, f: &mut fmt::Formatter<W>) -> fmt::Result {
        let at = whereabouts(self.word);
        if self.word / 4 % 2 == 1 {
            write!(f, "{at}, flush asked")
        } else {
            write!(f, "{at}")
        }
    }
}

/// The value of a word of this area. The role is that of the pool page that the word is
/// in, and 0 where it is in none.
#[derive(Clone, Copy, Drop)]
struct Value {
    area: Area,
    role: u64,
    word: u64,
}

#[tactic(auto, unfolding(crate::specs::Values::value_text))]
impl fmt::Display for Value {
    ghost output = { λ value. Some (value_text value.area value.role value.word) };

    fn fmt<W: fmt::Write>(&self, f: &mut fmt::Formatter<W>) -> fmt::Result {
        let Value { area, role, word } = *self;
        match area {
            Area::Pool if 1 <= role && role <= 4 => {
                let entry = Entry {
                    level: role as u8,
                    word,
                };
                write!(f, "0x{word:x} ({entry})")
            }
            Area::Host => {
                let page = HostPage { word };
                write!(f, "0x{word:x} ({page})")
            }
            Area::State => {
                let state = State { word };
                write!(f, "0x{word:x} ({state})")
            }
            _ => write!(f, "0x{word:x}"),
        }
    }
}

/// What a step found in a word and what it left there, which is told where it is another
/// value.
#[derive(Clone, Copy, Drop)]
pub(crate) struct Change {
    pub(crate) area: Area,
    pub(crate) role: u64,
    pub(crate) found: u64,
    pub(crate) left: u64,
}

#[tactic(auto, unfolding(crate::specs::Values::change_text))]
impl fmt::Display for Change {
    ghost output = { λ change. Some (change_text change.area change.role change.found change.left) };

    fn fmt<W: fmt::Write>(&self, f: &mut fmt::Formatter<W>) -> fmt::Result {
        let Change {
            area,
            role,
            found,
            left,
        } = *self;
        let before = Value {
            area,
            role,
            word: found,
        };
        if left == found {
            return write!(f, "{before}");
        }
        let after = Value {
            area,
            role,
            word: left,
        };
        write!(f, "{before} -> {after}")
    }
}
