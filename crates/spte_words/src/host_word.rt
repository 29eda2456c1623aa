ghost use Rattle.std.specs.Prelude.{◌≡◌, ℕ, ◌<◌, ◌^◌};
ghost use Rattle.spte_words.specs.HostWords.{host_word, host_present, host_allows_write, host_level, host_frame};
ghost use Rattle.spte_words.specs.HostWords.{with_frame, with_level, with_writes, with_presence};

use crate::bit::bit_if;
use std::marker::Model;

const PRESENT: u64 = 1;

const WRITABLE: u64 = 1 << 1;

const LEVEL: u64 = 1 << 2;

const FRAME: u64 = 1 << 12;

/// What the host maps one of its pages to, as a word of 64 bits.
#[derive(Clone, Copy, Debug, PartialEq, Eq, Drop)]
pub struct HostWord {
    word: u64,
}

impl Model for HostWord {
    ghost Value = { ℕ };

    ghost view = { λ h. h.word };

    ghost inverse = { λ word. record { word = word } };
}

impl HostWord {
    /// The page is at `frame` (below 2^52), by a mapping of this level (1 to
    /// 3), where it is present.
    #[tactic(auto, unfolding(crate::specs::HostWords::host_word))]
    pub fn new(frame: u64, present: bool, writable: bool, level: u8) -> HostWord
        requires frame_in { frame < 2 ^ 52 }
        requires level_in { level < 4 }
        ensures { result ≡ host_word frame present writable level }
    {
        let low = bit_if(PRESENT, present) + bit_if(WRITABLE, writable);
        HostWord {
            word: low + LEVEL * level as u64 + FRAME * frame,
        }
    }

    /// The host word that this word is.
    pub fn from_word(word: u64) -> HostWord
        ensures { result ≡ word }
    {
        HostWord { word }
    }

    /// Its word.
    pub fn word(self) -> u64
        ensures { result ≡ self }
    {
        self.word
    }

    /// The frame that holds the page.
    #[tactic(auto, unfolding(crate::specs::HostWords::host_frame))]
    pub fn frame(self) -> u64
        ensures { result ≡ host_frame self }
    {
        self.word / FRAME
    }

    /// Whether the host has the page in memory.
    #[tactic(auto, unfolding(crate::specs::HostWords::host_present))]
    pub fn is_present(self) -> bool
        ensures { result ≡ host_present self }
    {
        self.word / PRESENT % 2 == 1
    }

    /// Whether the host allows writes to it.
    #[tactic(auto, unfolding(crate::specs::HostWords::host_allows_write))]
    pub fn is_writable(self) -> bool
        ensures { result ≡ host_allows_write self }
    {
        self.word / WRITABLE % 2 == 1
    }

    /// The level of the host's mapping, 1 to 3.
    #[tactic(auto, unfolding(crate::specs::HostWords::host_level))]
    pub fn level(self) -> u8
        ensures { result ≡ host_level self }
    {
        (self.word / LEVEL % 4) as u8
    }

    /// The same, with writes allowed to the page, or forbidden.
    #[tactic(auto, unfolding(crate::specs::HostWords::host_frame, crate::specs::HostWords::host_level))]
    pub fn with_writes(self, allowed: bool) -> HostWord
        ensures { result ≡ with_writes allowed self }
    {
        HostWord::new(self.frame(), self.is_present(), allowed, self.level())
    }

    /// The same, at another frame (below 2^52).
    #[tactic(auto, unfolding(crate::specs::HostWords::host_level))]
    pub fn with_frame(self, frame: u64) -> HostWord
        requires { frame < 2 ^ 52 }
        ensures { result ≡ with_frame frame self }
    {
        HostWord::new(frame, self.is_present(), self.is_writable(), self.level())
    }

    /// The same, by a mapping of this level (1 to 3).
    #[tactic(auto, unfolding(crate::specs::HostWords::host_frame))]
    pub fn with_level(self, level: u8) -> HostWord
        requires { level < 4 }
        ensures { result ≡ with_level level self }
    {
        HostWord::new(self.frame(), self.is_present(), self.is_writable(), level)
    }

    /// The same, with the page in memory, or not.
    #[tactic(auto, unfolding(crate::specs::HostWords::host_frame, crate::specs::HostWords::host_level))]
    pub fn with_presence(self, present: bool) -> HostWord
        ensures { result ≡ with_presence present self }
    {
        HostWord::new(self.frame(), present, self.is_writable(), self.level())
    }
}
