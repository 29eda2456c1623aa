ghost use Rattle.std.specs.Prelude.{◌≡◌};
ghost use Rattle.core_views.specs.Kinds.{after, answer, code_of, kind_named, operation_of, operation_of_code};

/// The kinds of step that an actor makes, each one atomic operation on one word.
#[derive(Clone, Copy, PartialEq, Eq, Drop)]
pub enum StepKind {
    /// Enters the guest: swaps the own state word for inside and section.
    Enter,
    /// Leaves the guest: clears both in the own state word.
    Leave,
    /// Loads an entry of the second-stage table.
    Walk,
    /// Loads a content word, for a guest read.
    Read,
    /// Swaps a content word, for a guest write.
    Write,
    /// Adds to a content word, for a guest add.
    Add,
    /// Begins a section: sets its bit in the own state word.
    Begin,
    /// Ends a section: clears its bit in the own state word.
    End,
    /// Loads a word of the machine's control.
    Control,
    /// Loads a word of a slot set.
    Slot,
    /// Loads a host word.
    Host,
    /// Sets the bit of a host page that is present in its host word, where the word is as it was seen.
    Bring,
    /// Exchanges an entry of the table, where it is as it was seen.
    Swap,
    /// Sets the bit of a host page in the dirty log.
    Mark,
    /// Adds itself to the readers of the lock.
    Share,
    /// Takes itself out of the readers of the lock.
    Unshare,
    /// Takes the lock alone, where nobody holds it.
    Exclude,
    /// Gives back the lock that it held alone.
    Release,
    /// Takes the bit of a free page out of the pool's map.
    Claim,
    /// Stores a word of a page or of a frame that the actor owns, or the role of a page
    /// that it takes out of use.
    Fill,
    /// Puts the bit of a free page into the pool's map.
    Give,
    /// Stores a word of the invalidations: their sequence number, how many are open, or
    /// an end of their range.
    Set,
    /// Swaps a leaf of the second-stage table for an absent entry.
    Zap,
    /// Asks a virtual processor to flush its cached translations, in its state word.
    Ask,
    /// Loads the state word of a virtual processor that was asked.
    Await,
    /// Exchanges a host word, where it is as it was seen.
    Change,
    /// Loads a content word of a page that is to be moved.
    Copy,
    /// Takes the bit of a free frame out of the map of frames.
    Frame,
    /// Puts the bit of a free frame into the map of frames.
    Unframe,
    /// Swaps the published slot set for a page that the actor owns.
    Publish,
    /// Loads the state word of another actor.
    Watch,
    /// Clears bits in a word of the dirty log.
    Take,
    /// Clears the bit of write permission in a leaf of the second-stage table.
    Protect,
    /// Loads a word of the dirty log.
    Peek,
    /// Stores a word of the dirty log, before it begins.
    Arm,
}

/// The atomic operations on a word.
#[derive(Clone, Copy, Drop)]
pub enum Operation {
    Load,
    Store,
    Swap,
    /// Adds modulo 2^64.
    FetchAdd,
    /// Subtracts modulo 2^64.
    FetchSub,
    /// Keeps the bits that are set in a number.
    FetchAnd,
    /// Sets the bits that are set in a number.
    FetchOr,
    /// Stores the new number where the old one is found.
    CompareExchange,
}

impl StepKind {
    /// Its number among all kinds, from 1.
    pub fn code(self) -> u8
        ensures { result ≡ code_of self }
    {
        match self {
            StepKind::Enter => 1,
            StepKind::Leave => 2,
            StepKind::Walk => 3,
            StepKind::Read => 4,
            StepKind::Write => 5,
            StepKind::Add => 6,
            StepKind::Begin => 7,
            StepKind::End => 8,
            StepKind::Control => 9,
            StepKind::Slot => 10,
            StepKind::Host => 11,
            StepKind::Bring => 12,
            StepKind::Swap => 13,
            StepKind::Mark => 14,
            StepKind::Share => 15,
            StepKind::Unshare => 16,
            StepKind::Exclude => 17,
            StepKind::Release => 18,
            StepKind::Claim => 19,
            StepKind::Fill => 20,
            StepKind::Give => 21,
            StepKind::Set => 22,
            StepKind::Zap => 23,
            StepKind::Ask => 24,
            StepKind::Await => 25,
            StepKind::Change => 26,
            StepKind::Copy => 27,
            StepKind::Frame => 28,
            StepKind::Unframe => 29,
            StepKind::Publish => 30,
            StepKind::Watch => 31,
            StepKind::Take => 36,
            StepKind::Protect => 37,
            StepKind::Peek => 40,
            StepKind::Arm => 41,
        }
    }

    /// The operation that a step of this kind is.
    pub fn operation(self) -> Operation
        ensures { result ≡ operation_of self }
    {
        match self {
            StepKind::Walk | StepKind::Read | StepKind::Control | StepKind::Slot => {
                Operation::Load
            }
            StepKind::Host | StepKind::Await | StepKind::Copy | StepKind::Watch => Operation::Load,
            StepKind::Peek => Operation::Load,
            StepKind::Fill | StepKind::Set | StepKind::Arm => Operation::Store,
            StepKind::Enter | StepKind::Write | StepKind::Zap | StepKind::Publish => {
                Operation::Swap
            }
            StepKind::Add | StepKind::Share => Operation::FetchAdd,
            StepKind::Unshare => Operation::FetchSub,
            StepKind::Leave
            | StepKind::End
            | StepKind::Release
            | StepKind::Claim
            | StepKind::Frame
            | StepKind::Take
            | StepKind::Protect => { Operation::FetchAnd }
            StepKind::Begin | StepKind::Mark | StepKind::Give | StepKind::Ask | StepKind::Unframe =>
                Operation::FetchOr,
            StepKind::Bring | StepKind::Swap => Operation::CompareExchange,
            StepKind::Exclude | StepKind::Change => Operation::CompareExchange,
        }
    }
}

/// One step of an actor: the number of its kind, the word, what the word is to
/// hold before it (where that matters) and what is written, and a note: 1 where
/// the line may end with this step, else 0. Of a store of an end of the range of
/// open invalidations `old` is that end of the actor's own one.
#[derive(Clone, Copy, PartialEq, Eq, Drop)]
pub struct Kind {
    pub code: u8,
    pub word: u32,
    pub old: u64,
    pub new: u64,
    pub note: u64,
}

impl Kind {
    /// The kind of step that its number names; `Control`, a load, where the number
    /// is of none.
    #[inline(always)]
    pub fn named(self) -> StepKind
        ensures { result ≡ kind_named self.code }
    {
        match self.code {
            1 => StepKind::Enter,
            2 => StepKind::Leave,
            3 => StepKind::Walk,
            4 => StepKind::Read,
            5 => StepKind::Write,
            6 => StepKind::Add,
            7 => StepKind::Begin,
            8 => StepKind::End,
            10 => StepKind::Slot,
            11 => StepKind::Host,
            12 => StepKind::Bring,
            13 => StepKind::Swap,
            14 => StepKind::Mark,
            15 => StepKind::Share,
            16 => StepKind::Unshare,
            17 => StepKind::Exclude,
            18 => StepKind::Release,
            19 => StepKind::Claim,
            20 => StepKind::Fill,
            21 => StepKind::Give,
            22 => StepKind::Set,
            23 => StepKind::Zap,
            24 => StepKind::Ask,
            25 => StepKind::Await,
            26 => StepKind::Change,
            27 => StepKind::Copy,
            28 => StepKind::Frame,
            29 => StepKind::Unframe,
            30 => StepKind::Publish,
            31 => StepKind::Watch,
            36 => StepKind::Take,
            37 => StepKind::Protect,
            40 => StepKind::Peek,
            41 => StepKind::Arm,
            _ => StepKind::Control,
        }
    }

    /// The operation on its word; a load where the code is of no kind.
    #[inline(always)]
    pub fn operation(self) -> Operation
        ensures { result ≡ operation_of_code self.code }
    {
        self.named().operation()
    }

    /// What the word holds after it, where it held `found`.
    #[inline(always)]
    #[tactic(auto, unfolding(crate::specs::Kinds::after))]
    pub fn after(self, found: u64) -> u64
        ensures { result ≡ after self found }
    {
        match self.operation() {
            Operation::Load => found,
            Operation::Store | Operation::Swap => self.new,
            Operation::FetchAdd => found.wrapping_add(self.new),
            Operation::FetchSub => found.wrapping_sub(self.new),
            Operation::FetchAnd => found & self.new,
            Operation::FetchOr => found | self.new,
            Operation::CompareExchange => { if found == self.old { self.new } else { found } }
        }
    }

    /// What it answers, where the word held `found`: a store finds nothing, and
    /// answers what it wrote.
    #[inline(always)]
    #[tactic(auto, unfolding(crate::specs::Kinds::answer))]
    pub fn answer(self, found: u64) -> u64
        ensures { result ≡ answer self found }
    {
        match self.operation() {
            Operation::Store => self.new,
            _ => found,
        }
    }
}
