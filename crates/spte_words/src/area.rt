ghost use Rattle.std.specs.Prelude.{◌≡◌};
ghost use Rattle.spte_words.specs.Areas.{number_of};

/// A stretch of words of one use. The areas follow one another in this order.
#[derive(Clone, Copy, Debug, PartialEq, Eq, Drop)]
pub enum Area {
    /// The pool page of the root table.
    Root,
    /// The pool page of the published memory slots.
    Slots,
    /// The sequence number of invalidations.
    Seq,
    /// How many invalidations are open.
    Count,
    /// The first gfn of the open invalidations' range.
    RangeStart,
    /// The gfn after the last of that range.
    RangeEnd,
    /// The MMU lock.
    Lock,
    /// 1 where virtual processors stay outside the guest, else 0.
    Pause,
    /// A word for each actor.
    State,
    /// A bit for each pool page, set where the page is free.
    PoolMap,
    /// A bit for each frame, set where the frame is free.
    FrameMap,
    /// The dirty log: a bit for each host page.
    Log,
    /// A host word for each host page.
    Host,
    /// The role of each pool page.
    Role,
    /// The pool pages, 512 words each: tables and sets of memory slots.
    Pool,
    /// The words of the frames.
    Content,
}

impl Area {
    /// Its number in the order of the areas, the first being 0.
    pub fn number(self) -> u32
        ensures { result ≡ number_of self }
    {
        match self {
            Area::Root => 0,
            Area::Slots => 1,
            Area::Seq => 2,
            Area::Count => 3,
            Area::RangeStart => 4,
            Area::RangeEnd => 5,
            Area::Lock => 6,
            Area::Pause => 7,
            Area::State => 8,
            Area::PoolMap => 9,
            Area::FrameMap => 10,
            Area::Log => 11,
            Area::Host => 12,
            Area::Role => 13,
            Area::Pool => 14,
            Area::Content => 15,
        }
    }
}
