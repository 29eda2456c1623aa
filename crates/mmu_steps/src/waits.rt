//! Which steps wait for another actor.
ghost use Rattle.std.specs.Prelude.{◌≡◌, ◌<◌, length};
ghost use Rattle.core_views.specs.Sizes.{AreSizes};
ghost use Rattle.mmu_core.specs.lines.PartWaits.{own_open, saw_open};
ghost use Rattle.mmu_core.specs.machine.Enabled.{Enabled};
ghost use Rattle.mmu_steps.specs.Waits.{HasTried, WaitsAsLine, seen_in, waiting_at, waits};

use core_views::{Checked, Hold, Invalidations, Kind, MapClaim, Seen, StepKind};
use order_twins::own_open;
use part_steps::map_of;
use part_twins::{Hand, has_to_flush, in_section, is_won};
use spte_words::Area;

/// Under the lock it saw that invalidations of others are open.
pub fn saw_open(invalidations: &Invalidations) -> bool
    ensures { result ≡ saw_open invalidations.now }
{
    invalidations.checked == Checked::Count && own_open(invalidations) < invalidations.count
}

/// When a step waits for another actor, told before it is made.
#[derive(Clone, Copy, Drop)]
pub enum Waiting {
    /// It never waits.
    Never,
    /// It waits whatever it finds, since its actor has seen this before.
    Always(Seen),
    /// Where the page or the frame that it tries is gone.
    Unwon(MapClaim),
    /// Where the lock is held.
    Locked,
    /// Where another actor is in a section or in the guest.
    InSection,
    /// Where a virtual processor is in the guest, and has yet to flush.
    Unflushed,
}

impl Waiting {
    // By the kind of a step.
    #[inline(always)]
    fn by_kind(kind: StepKind, hand: &Hand) -> Self
        requires { AreSizes hand.now.core.state.sizes }
        ensures { result ≡ waiting_at kind hand.now.core }
    {
        let topics = hand.topics();
        let sizes = &hand.progress().sizes;
        match kind {
            StepKind::Unshare => match topics.hold {
                Hold::Owing(value) => Waiting::Always(Seen {
                    word: map_of(sizes).word_of(Area::Lock, 0),
                    value,
                }),
                _ => Waiting::Never,
            },
            StepKind::Release => {
                if saw_open(&topics.invalidations) {
                    Waiting::Always(Seen {
                        word: map_of(sizes).word_of(Area::Count, 0),
                        value: topics.invalidations.count,
                    })
                } else {
                    Waiting::Never
                }
            }
            StepKind::Claim => Waiting::Unwon(topics.claim),
            StepKind::Frame => Waiting::Unwon(topics.frames.claim),
            StepKind::Exclude => Waiting::Locked,
            StepKind::Watch => Waiting::InSection,
            StepKind::Await => Waiting::Unflushed,
            _ => Waiting::Never,
        }
    }

    /// When the hand's next step waits, which is this one: it takes back the try for the lock
    /// that found a writer, the page or frame that it tries is gone, it finds the lock taken, it
    /// gives the lock back under which it saw invalidations of others open, it finds another
    /// actor in the guest or in a section, or a virtual processor that has yet to flush.
    #[inline(always)]
    pub fn of(kind: Kind, hand: &Hand) -> Self
        requires left { length hand.now.core.answers < length hand.now.core.lines }
        requires enabled { Enabled hand.now.core kind }
        ensures tried { HasTried result }
        ensures waits { WaitsAsLine result kind hand.now.core }
    {
        Waiting::by_kind(kind.named(), hand)
    }

    /// Whether the step waits that answered `found`.
    #[inline(always)]
    pub fn waits(&self, found: u64) -> bool
        requires { HasTried self.now }
        ensures { result ≡ waits self.now found }
    {
        match self {
            Waiting::Never => false,
            Waiting::Always(_) => true,
            Waiting::Unwon(claim) => !is_won(claim, found),
            Waiting::Locked => found != 0,
            Waiting::InSection => in_section(found),
            Waiting::Unflushed => has_to_flush(found),
        }
    }

    /// What it has then seen, and in which word.
    pub fn seen(&self, kind: Kind, found: u64) -> Seen
        ensures { result ≡ seen_in self.now kind found }
    {
        match self {
            Waiting::Always(seen) => *seen,
            _ => Seen {
                word: kind.word,
                value: found,
            },
        }
    }
}
