//! What the lone words of the machine's control say, and the state words.
ghost use Rattle.std.specs.Prelude.{◌≡◌};
ghost use Rattle.part_steps.specs.StayTopics.{has_lock};
ghost use Rattle.part_steps.specs.ControlBits.{has_to_flush, has_writer, in_section, is_word_of};

use core_views::Hold;
use spte_words::Area;

/// Bit 63 of the lock's word: a writer has it.
pub const WRITER: u64 = 1 << 63;

/// Bit 1 of a state word: its actor is in a section, or in the guest.
pub const SECTION_BIT: u64 = 1 << 1;

/// Bits 0 and 1 of a state word: its actor is in the guest.
pub const GUEST_BITS: u64 = 1 | SECTION_BIT;

/// Bit 2 of a state word: a flush is asked for.
pub const REQUEST_BIT: u64 = 1 << 2;

/// Whether a writer has the lock, by the lock's word.
pub fn has_writer(lock: u64) -> bool
    ensures { result ≡ has_writer lock }
{
    lock >= WRITER
}

/// Whether an actor is in a section or in the guest, by its state word.
pub fn in_section(state: u64) -> bool
    ensures { result ≡ in_section state }
{
    state / SECTION_BIT % 2 == 1
}

/// Whether a virtual processor is in the guest, and has yet to make the flush that is asked
/// for, by its state word.
pub fn has_to_flush(state: u64) -> bool
    ensures { result ≡ has_to_flush state }
{
    state % 2 == 1 && state / REQUEST_BIT % 2 == 1
}

// Whether the actor has the lock, as a reader or alone.
pub(crate) fn has_lock(hold: Hold) -> bool
    ensures { result ≡ has_lock hold }
{
    hold == Hold::Shared || hold == Hold::Exclusive
}

// Whether the word is the lone word of this area.
pub(crate) fn is_word_of(area: Area, word: u32) -> bool
    ensures { result ≡ is_word_of area word }
{
    word == area.number()
}
