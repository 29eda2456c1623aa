ghost use Rattle.std.specs.Prelude.{◌≡◌, ℕ, ◌+◌, ◌<◌, ◌≤◌, ◌^◌};
ghost use Rattle.spte_words.specs.Entries.{absent_word, frozen_word, table_word, leaf_word, mapped_frame, frame_in, can_write, host_writable};
ghost use Rattle.spte_words.specs.Entries.{mmu_writable, kind_of, with_write, without_write, child_word, level_span, word_below};

use crate::SpteKind;
use crate::bit::bit_if;
use std::marker::Model;

const READ: u64 = 1;

/// Bit 1 of an entry: guest writes are allowed.
pub const WRITE: u64 = 1 << 1;

const EXECUTE: u64 = 1 << 2;

const LARGE: u64 = 1 << 7;

const PRESENT: u64 = 1 << 11;

const FRAME: u64 = 1 << 12;

const HOST_WRITABLE: u64 = 1 << 57;

const MMU_WRITABLE: u64 = 1 << 58;

const FROZEN: u64 = 0x5a0;

/// A second-stage page table entry, a word of 64 bits.
#[derive(Clone, Copy, Debug, PartialEq, Eq, Drop)]
pub struct Spte {
    word: u64,
}

impl Model for Spte {
    ghost Value = { ℕ };

    ghost view = { λ s. s.word };

    ghost inverse = { λ word. record { word = word } };
}

impl Spte {
    /// The entry under which nothing is mapped.
    #[tactic(auto, unfolding(crate::specs::Entries::absent_word))]
    pub fn absent() -> Spte
        ensures { result ≡ absent_word }
    {
        Spte { word: 0 }
    }

    /// The entry of a table that is being removed.
    #[tactic(auto, unfolding(crate::specs::Entries::frozen_word))]
    pub fn frozen() -> Spte
        ensures { result ≡ frozen_word }
    {
        Spte { word: FROZEN }
    }

    /// A link to the table in this pool page.
    #[tactic(auto, unfolding(crate::specs::Entries::table_word))]
    pub fn table(page: u32) -> Spte
        ensures { result ≡ table_word page }
    {
        Spte {
            word: READ + WRITE + EXECUTE + PRESENT + FRAME * page as u64,
        }
    }

    /// A leaf of level 1 to 3: `frame` is the first of its span, `w` allows
    /// guest writes, `hw` and `mw` say that the host and the MMU would. Its field has 40 bits,
    /// and one more is taken for the children of a word with frames at its end: no machine has one.
    #[tactic(auto, unfolding(crate::specs::Entries::leaf_word))]
    pub fn leaf(level: u8, frame: u64, w: bool, hw: bool, mw: bool) -> Spte
        requires { frame < 2 ^ 41 }
        ensures { result ≡ leaf_word level frame w hw mw }
    {
        let low = READ + bit_if(WRITE, w) + EXECUTE + bit_if(LARGE, level > 1) + PRESENT;
        Spte {
            word: low + FRAME * frame + bit_if(HOST_WRITABLE, hw) + bit_if(MMU_WRITABLE, mw),
        }
    }

    /// The entry that this word is.
    pub fn from_word(word: u64) -> Spte
        ensures { result ≡ word }
    {
        Spte { word }
    }

    /// Its word.
    pub fn word(self) -> u64
        ensures { result ≡ self }
    {
        self.word
    }

    /// What it says at this level.
    #[tactic(auto, unfolding(crate::specs::Entries::kind_of, crate::specs::Entries::frozen_word, crate::specs::Entries::is_leaf_at))]
    pub fn kind(self, level: u8) -> SpteKind
        ensures { result ≡ kind_of level self }
    {
        if self.word == FROZEN {
            return SpteKind::Frozen;
        }
        if self.word / PRESENT % 2 != 1 {
            return SpteKind::Absent;
        }
        if level < 2 || (level < 4 && self.word / LARGE % 2 == 1) {
            return SpteKind::Leaf;
        }
        SpteKind::Table((self.frame() % (1 << 32)) as u32)
    }

    /// The first frame of a leaf's span (of a link, its pool page).
    #[tactic(auto, unfolding(crate::specs::Entries::frame_in))]
    pub fn frame(self) -> u64
        ensures { result ≡ frame_in self }
    {
        self.word / FRAME % (1 << 40)
    }

    /// The frame of this guest frame, which is in the span of the leaf, of level 1 to 3:
    /// the leaf's own frame is that of the first guest frame of its span.
    #[tactic(auto, unfolding(crate::specs::Entries::mapped_frame, crate::specs::Entries::frame_in), using(crate::proofs::Spans::in_span))]
    pub fn mapped_frame(self, level: u8, gfn: u64) -> u64
        requires level_from { 1 ≤ level }
        requires level_to { level ≤ 4 }
        ensures { result ≡ mapped_frame level self gfn }
    {
        self.frame() + gfn % Spte::level_span(level)
    }

    /// Whether the guest may write through it.
    #[tactic(auto, unfolding(crate::specs::Entries::can_write))]
    pub fn is_writable(self) -> bool
        ensures { result ≡ can_write self }
    {
        self.word / WRITE % 2 == 1
    }

    /// Whether the host allows writes to its frames.
    #[tactic(auto, unfolding(crate::specs::Entries::host_writable))]
    pub fn is_host_writable(self) -> bool
        ensures { result ≡ host_writable self }
    {
        self.word / HOST_WRITABLE % 2 == 1
    }

    /// Whether the memory slot allows guest writes too.
    #[tactic(auto, unfolding(crate::specs::Entries::mmu_writable))]
    pub fn is_mmu_writable(self) -> bool
        ensures { result ≡ mmu_writable self }
    {
        self.word / MMU_WRITABLE % 2 == 1
    }

    /// The entry with guest writes allowed.
    #[tactic(auto, unfolding(crate::specs::Entries::with_write, crate::specs::Entries::can_write))]
    pub fn with_write(self) -> Spte
        ensures { result ≡ with_write self }
    {
        if self.is_writable() {
            self
        } else {
            Spte {
                word: self.word + WRITE,
            }
        }
    }

    /// The entry with guest writes denied.
    #[tactic(auto, unfolding(crate::specs::Entries::without_write, crate::specs::Entries::can_write))]
    pub fn without_write(self) -> Spte
        ensures { result ≡ without_write self }
    {
        if self.is_writable() {
            Spte {
                word: self.word - WRITE,
            }
        } else {
            self
        }
    }

    /// The leaf of the page `i` (below 512) of a large leaf of level 2 or 3,
    /// one level down.
    pub fn child(self, level: u8, i: u32) -> Spte
        requires level_from { 2 ≤ level }
        requires level_to { level ≤ 3 }
        requires i_in { i < 512 }
        ensures { result ≡ child_word level self i }
    {
        let frame = self.frame() + i as u64 * Spte::level_span(level - 1);
        let [w, hw, mw] = [
            self.is_writable(),
            self.is_host_writable(),
            self.is_mmu_writable(),
        ];
        Spte::leaf(level - 1, frame, w, hw, mw)
    }

    /// What stands at place `i` (below 512) of a table that is linked in place of this entry of
    /// the level: the child of a large leaf, and in place of any other entry nothing.
    #[tactic(auto, using(crate::proofs::ProtectedEntries::leaf_level))]
    pub fn below(self, level: u8, i: u32) -> Spte
        requires { i < 512 }
        ensures { result ≡ word_below level self i }
    {
        match self.kind(level) {
            SpteKind::Leaf if level > 1 => self.child(level, i),
            _ => Spte::absent(),
        }
    }

    /// How many pages an entry of the level (1 to 4) covers: 1, 512, 262,144 and
    /// 134,217,728.
    #[tactic(auto, using(crate::proofs::Spans::spans))]
    pub fn level_span(level: u8) -> u64
        requires level_from { 1 ≤ level }
        requires level_to { level ≤ 4 }
        ensures { result ≡ level_span level }
    {
        match level {
            1 => 1,
            2 => 512,
            3 => 262_144,
            _ => 134_217_728,
        }
    }
}
