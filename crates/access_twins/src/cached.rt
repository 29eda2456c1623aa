//! Which cached translation an access uses, and when all are dropped.
ghost use Rattle.std.specs.Prelude.{◌≡◌, All};
ghost use Rattle.mmu_core.specs.forms.access.Cached.{allows, asks_flush, covers, first_usable, flushed, is_usable};
ghost use Rattle.part_steps.specs.PartBounds.{IsAtLeafLevel};

use core_views::{Cache, Kind, StepKind, Translation};
use part_twins::Hand;
use spte_words::Spte;

// Whether the translation's leaf covers the guest frame. Most cached leaves are of
// level 1, each for one frame.
#[tactic(auto, using(spte_words::proofs::Spans::span_positive))]
fn covers(gfn: u64, translation: &Translation) -> bool
    requires { IsAtLeafLevel translation.now }
    ensures { result ≡ covers gfn translation.now }
{
    if gfn == translation.gfn {
        return true;
    }
    if translation.level == 1 {
        return false;
    }
    let span = Spte::level_span(translation.level as u8);
    gfn / span == translation.gfn / span
}

// Whether it allows a read, or a write.
fn allows(write: bool, translation: &Translation) -> bool
    ensures { result ≡ allows write translation.now }
{
    !write || Spte::from_word(translation.leaf).is_writable()
}

// Whether an access of the guest frame may use it.
fn is_usable(gfn: u64, write: bool, translation: &Translation) -> bool
    requires { IsAtLeafLevel translation.now }
    ensures { result ≡ is_usable gfn write translation.now }
{
    covers(gfn, translation) && allows(write, translation)
}

// The first of these few translations that covers the guest frame and allows the access.
#[inline(always)]
fn first_of_few(gfn: u64, write: bool, translations: &[Translation]) -> Option<Translation>
    requires { All IsAtLeafLevel translations.now }
    ensures { result ≡ first_usable gfn write translations.now }
{
    for translation in translations {
        if is_usable(gfn, write, translation) {
            return Some(*translation);
        }
    }
    None
}

// The first one of any number of them. (It looks at eight at a time: a loop over a known number is
// unrolled.)
fn first_usable(gfn: u64, write: bool, translations: &[Translation]) -> Option<Translation>
    requires { All IsAtLeafLevel translations.now }
    ensures { result ≡ first_usable gfn write translations.now }
{
    let mut left = translations;
    while let Some((few, others)) = left.split_first_chunk::<8>() {
        if let Some(translation) = first_of_few(gfn, write, few) {
            return Some(translation);
        }
        left = others;
    }
    first_of_few(gfn, write, left)
}

/// The newest translation that covers the guest frame and allows the access;
/// `None` where there is none.
pub fn lookup(cache: &Cache, gfn: u64, write: bool) -> Option<Translation>
    requires { All IsAtLeafLevel cache.now.items }
    ensures { result ≡ first_usable gfn write cache.now.items }
{
    let (newer, older) = cache.as_slices();
    match first_usable(gfn, write, newer) {
        Some(translation) => Some(translation),
        None => first_usable(gfn, write, older),
    }
}

/// Whether a flush is asked for, by an actor's state word: its bit 2.
pub fn asks_flush(state: u64) -> bool
    ensures { result ≡ asks_flush state }
{
    state / (1 << 2) % 2 == 1
}

/// The effect of a step on what is cached: an entry into the guest for which a flush was asked
/// drops all of it.
#[inline(always)]
#[tactic(auto, unfolding(mmu_core::specs::forms::access::Cached::flushed))]
pub fn flush(hand: &mut Hand, kind: Kind, found: u64)
    ensures core { hand.new.core ≡ record hand.old.core { cached = flushed kind hand.old.core.cached found } }
    ensures room { hand.new.room ≡ hand.old.room }
{
    if kind.named() == StepKind::Enter && asks_flush(found) {
        hand.cache_mut().clear();
    }
}
