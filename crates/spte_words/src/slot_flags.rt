ghost use Rattle.std.specs.Prelude.{◌≡◌, ℕ};
ghost use Rattle.spte_words.specs.Flags.{flags_word, flags_live, flags_read_only, flags_logged};

use crate::bit::bit_if;
use std::marker::Model;

const LIVE: u64 = 1;

const READ_ONLY: u64 = 1 << 1;

const LOGGED: u64 = 1 << 2;

/// The flags of a memory slot, as a word of 64 bits.
#[derive(Clone, Copy, Debug, PartialEq, Eq, Drop)]
pub struct SlotFlags {
    word: u64,
}

impl Model for SlotFlags {
    ghost Value = { ℕ };

    ghost view = { λ f. f.word };

    ghost inverse = { λ word. record { word = word } };
}

impl SlotFlags {
    /// The flags of a slot that is in use, that guest writes leave
    /// (`KVM_MEM_READONLY`), that has a dirty log (`KVM_MEM_LOG_DIRTY_PAGES`).
    #[tactic(auto, unfolding(crate::specs::Flags::flags_word))]
    pub fn new(live: bool, read_only: bool, logged: bool) -> SlotFlags
        ensures { result ≡ flags_word live read_only logged }
    {
        SlotFlags {
            word: bit_if(LIVE, live) + bit_if(READ_ONLY, read_only) + bit_if(LOGGED, logged),
        }
    }

    /// The flags that this word is.
    pub fn from_word(word: u64) -> SlotFlags
        ensures { result ≡ word }
    {
        SlotFlags { word }
    }

    /// Its word.
    pub fn word(self) -> u64
        ensures { result ≡ self }
    {
        self.word
    }

    /// Whether the slot is in use.
    #[tactic(auto, unfolding(crate::specs::Flags::flags_live))]
    pub fn is_live(self) -> bool
        ensures { result ≡ flags_live self }
    {
        self.word / LIVE % 2 == 1
    }

    /// Whether guest writes leave the guest.
    #[tactic(auto, unfolding(crate::specs::Flags::flags_read_only))]
    pub fn is_read_only(self) -> bool
        ensures { result ≡ flags_read_only self }
    {
        self.word / READ_ONLY % 2 == 1
    }

    /// Whether guest writes are logged.
    #[tactic(auto, unfolding(crate::specs::Flags::flags_logged))]
    pub fn is_logged(self) -> bool
        ensures { result ≡ flags_logged self }
    {
        self.word / LOGGED % 2 == 1
    }
}
