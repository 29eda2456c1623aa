//! What a line asks of a dirty log, and why it may not have it: a clause for each command that
//! reads one.
ghost use Rattle.std.specs.Prelude.{◌≡◌, Some};
ghost use Rattle.core_views.specs.LogCommands.{asks_for, count_asked, first_asked, has_bit, log_read, low_bits};
ghost use Rattle.core_views.specs.LogCommands.{mask_asked, most_words, takes_out};

use crate::{Command, LogMode, Sizes, Slot};

/// How many pages a word of a dirty log has: a bit for each.
pub const WORD_PAGES: u64 = 64;

// Whether the bit is set, of words of 64 bits each, the first word first.
fn has_bit(words: &[u64], bit: u64) -> bool
    ensures { result ≡ has_bit words.now bit }
{
    let word = words.get((bit / WORD_PAGES) as usize).copied().unwrap_or(0);
    (word >> (bit % WORD_PAGES)) % 2 == 1
}

// The word with so many of its low bits set, up to all 64.
fn low_bits(count: u64) -> u64
    ensures { result ≡ low_bits count }
{
    if count >= WORD_PAGES {
        u64::MAX
    } else {
        (1 << count) - 1
    }
}

impl Command {
    /// The ID of the slot whose dirty log the line reads; `None` where it reads none.
    pub fn log_read(&self) -> Option<u64>
        ensures { result ≡ log_read self.now }
    {
        match self {
            Command::GetLog { id } | Command::ClearLog { id, .. } => Some(*id),
            Command::Access { .. } | Command::ChangeHost { .. } => None,
            Command::ChangeRun { .. } => None,
            Command::SetSlot { .. } | Command::DeleteSlot { .. } | Command::SetLog { .. } => None,
            Command::Migrate { .. } | Command::Split { .. } => None,
        }
    }

    /// Whether the line asks for this page of the slot: a get for all, a clear for those whose
    /// bits are set.
    pub fn asks_for(&self, page: u64) -> bool
        ensures { result ≡ asks_for self.now page }
    {
        match self {
            Command::GetLog { .. } | Command::Migrate { .. } => true,
            Command::ClearLog {
                first,
                count,
                words,
                ..
            } => {
                *first <= page && page - *first < *count && has_bit(words.as_slice(), page - *first)
            }
            _ => false,
        }
    }

    /// The page of the slot that bit 0 of the answer is of.
    pub fn first_asked(&self) -> u64
        ensures { result ≡ first_asked self.now }
    {
        match self {
            Command::ClearLog { first, .. } => *first,
            _ => 0,
        }
    }

    /// How many pages of the slot the answer has a bit for.
    pub fn count_asked(&self, slot: &Slot) -> u64
        ensures { result ≡ count_asked self.now slot.now }
    {
        match self {
            Command::ClearLog { count, .. } => *count,
            _ => slot.pages,
        }
    }

    /// The bits of this word of the answer for whose pages the line asks.
    pub fn mask_asked(&self, slot: &Slot, word: u64) -> u64
        ensures { result ≡ mask_asked self.now slot.now word }
    {
        let given = match self {
            Command::ClearLog { words, .. } => {
                words.as_slice().get(word as usize).copied().unwrap_or(0)
            }
            _ => u64::MAX,
        };
        let pages = self.count_asked(slot);
        let before = word.saturating_mul(WORD_PAGES);
        given & low_bits(pages.saturating_sub(before))
    }

    /// Whether the line takes out of the log what it reads.
    pub fn takes_out(&self, mode: LogMode) -> bool
        ensures { result ≡ takes_out mode self.now }
    {
        match (self, mode) {
            (Command::GetLog { .. }, LogMode::Automatic) => true,
            (Command::GetLog { .. }, LogMode::Manual | LogMode::ManualAllSet) => false,
            _ => true,
        }
    }
}

impl Sizes {
    /// The most words that the line reads of the dirty log of any slot of the machine.
    pub fn most_words(&self, command: &Command) -> usize
        ensures { result ≡ most_words self.now command.now }
    {
        match command {
            Command::GetLog { .. } | Command::Migrate { .. } => (self.pages / WORD_PAGES) as usize
                + 1,
            Command::ClearLog { count, .. } => (*count / WORD_PAGES) as usize + 1,
            _ => 0,
        }
    }
}
