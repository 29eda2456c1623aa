//! The steps of a guest access.
ghost use Rattle.std.specs.Prelude.{◌≡◌, ◌<◌, IfSome};
ghost use Rattle.core_views.specs.Slots.{is_write};
ghost use Rattle.mmu_core.specs.forms.access.FaultSteps.{allows_access};
ghost use Rattle.spte_words.specs.Entries.{kind_of};
ghost use Rattle.mmu_core.specs.forms.access.AccessSteps.{access_caches, access_note, access_part, stay_next, touch_of};
ghost use Rattle.part_steps.specs.PartBounds.{IsAtLeafLevel, PartRests};
ghost use Rattle.mmu_core.specs.forms.access.Cached.{frame_used};
ghost use Rattle.part_steps.specs.PartSteps.{PartNeeds};
ghost use Rattle.mmu_core.specs.forms.access.AccessKnows.{TouchNeeds};
ghost use Rattle.part_steps.specs.Tasks.{map_of};
ghost use Rattle.spte_words.specs.Areas.{content_index, size_of};
ghost use Rattle.spte_words.specs.declared.area.Area.TheVariants.{Content};

use crate::fault;
use core_views::{AccessPlace, FaultEnd, FaultPlace, Leaving, Op, StepKind, Translation};
use part_steps::{PartStep, Task, map_of};
use part_twins::Hand;
use spte_words::{Area, Spte, SpteKind};

// The touch of the content word with this index.
#[inline(always)]
fn touch_at(op: Op, index: u64) -> Task
    ensures task { result ≡ touch_of op index }
    ensures word { (result.area ≡ Content) × (result.index ≡ index) }
{
    let (kind, written) = match op {
        Op::Read => (StepKind::Read, 0),
        Op::Write(number) => (StepKind::Write, number),
        Op::Add(number) => (StepKind::Add, number),
    };
    Task {
        kind,
        area: Area::Content,
        index,
        expected: 0,
        written,
        may_end: 0,
    }
}

/// The frame of the guest frame by the translation in use.
pub fn frame_used(hand: &Hand, gfn: u64) -> u64
    requires { IsAtLeafLevel hand.now.core.state.used }
    ensures { result ≡ frame_used gfn hand.now.core.state }
{
    let used = hand.progress().used;
    Spte::from_word(used.leaf).mapped_frame(used.level as u8, gfn)
}

/// What the guest touches with the step of an access that is no step of a part: the word of the
/// frame, by the translation in use.
#[inline(always)]
pub fn touch(hand: &Hand, gfn: u64, word: u8, op: Op) -> Task
    requires part { PartRests hand.now.core }
    requires touch { TouchNeeds gfn (is_write op) hand.now.core }
    requires word { word < hand.now.core.state.sizes.words }
    ensures task { result ≡ touch_of op (content_index (map_of hand.now.core.state.sizes) (frame_used gfn hand.now.core.state) word) }
    ensures within { result.index < size_of (map_of hand.now.core.state.sizes) result.area }
{
    let frame = frame_used(hand, gfn);
    let map = map_of(&hand.progress().sizes);
    touch_at(op, map.content_index(frame, word))
}

/// The step of this place, but for the touch.
pub fn part(place: AccessPlace, gfn: u64, hand: &Hand) -> Option<PartStep>
    requires needs { IfSome (access_part place gfn hand.now.core.topics) (λ step. PartNeeds step hand.now.core) }
    requires part { PartRests hand.now.core }
    ensures { result ≡ access_part place gfn hand.now.core.topics }
{
    Some(match place {
        AccessPlace::Enter { .. } => PartStep::Enter,
        AccessPlace::Pause { .. } => PartStep::Pause,
        AccessPlace::Root { .. } => PartStep::Root,
        AccessPlace::Walk { .. } => PartStep::Walk(gfn),
        AccessPlace::Touch => return None,
        AccessPlace::Leave(_) => PartStep::Leave,
        AccessPlace::Fault(place) => fault::part(place, gfn, hand.topics()),
    })
}

/// The note of the step of this place: 1 where the line ends with it, whatever it
/// finds, and 0 where the line goes on.
pub fn access_note(place: AccessPlace) -> u64
    ensures { result ≡ access_note place }
{
    match place {
        AccessPlace::Leave(Leaving::Reached { .. }) => 1,
        AccessPlace::Fault(FaultPlace::End(end)) => match end {
            FaultEnd::Installed | FaultEnd::Fixed { .. } => 0,
            FaultEnd::NotFast(_) | FaultEnd::Retry { .. } => 0,
            FaultEnd::Mmio | FaultEnd::HostFault | FaultEnd::Starved => 1,
        },
        _ => 0,
    }
}

/// Caches the leaf that the step of this place found, where it allows the access.
#[inline(always)]
pub fn fill_cache(place: AccessPlace, hand: &mut Hand, gfn: u64, op: Op, found: u64)
    ensures core { hand.new.core ≡ record hand.old.core { cached = access_caches place hand.old.core gfn op found } }
    ensures room { hand.new.room ≡ hand.old.room }
{
    if let AccessPlace::Walk { .. } = place {
        let level = hand.topics().walk.level;
        let entry = Spte::from_word(found);
        if entry.kind(level) == SpteKind::Leaf && (!op.is_write() || entry.is_writable()) {
            hand.cache_mut().fill(Translation {
                gfn,
                level: level as u64,
                leaf: found,
            });
        }
    }
}

/// After an entry of the walk's table.
#[inline(always)]
pub fn stay_next(again: bool, level: u8, op: Op, found: u64) -> AccessPlace
    ensures { result ≡ stay_next again (kind_of level found) (allows_access (is_write op) found) }
{
    let entry = Spte::from_word(found);
    match entry.kind(level) {
        SpteKind::Table(_) => AccessPlace::Walk { again },
        SpteKind::Leaf if !op.is_write() || entry.is_writable() => AccessPlace::Touch,
        SpteKind::Leaf => AccessPlace::Leave(Leaving::Faults { fast: true }),
        SpteKind::Absent | SpteKind::Frozen => AccessPlace::Leave(Leaving::Faults { fast: false }),
    }
}
