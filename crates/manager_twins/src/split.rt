//! The steps of a line that splits a large leaf.
ghost use Rattle.std.specs.Prelude.{◌≡◌};
ghost use Rattle.mmu_core.specs.forms.split.SplitSteps.{after_claim, after_share, entry_next, split_answer, split_note, split_outcome, split_part};
ghost use Rattle.part_steps.specs.PartBounds.{PartRests};
ghost use Rattle.part_steps.specs.PartSteps.{PartNeeds};
ghost use Rattle.spte_words.specs.Entries.{kind_of};

use core_views::{Answer, Place, SplitEnd, SplitPlace, TableWalk};
use mmu_core::{ClaimNext, FreeMap, Outcome, ShareNext};
use order_twins::{claim_next, claim_part, share_next, share_part};
use part_steps::PartStep;
use part_twins::{Hand, word_below, words_filled};
use spte_words::{ENTRIES, Spte, SpteKind};

/// The step of this place, for a line that splits the leaf over this guest frame.
pub fn part(place: SplitPlace, gfn: u64, hand: &Hand) -> PartStep
    requires part { PartRests hand.now.core }
    requires needs { PartNeeds (split_part place gfn hand.now.core.topics) hand.now.core }
    ensures { result ≡ split_part place gfn hand.now.core.topics }
{
    let topics = hand.topics();
    match place {
        SplitPlace::Begin => PartStep::Begin,
        SplitPlace::Share => share_part(topics.hold),
        SplitPlace::Walk { rooted: true } => PartStep::Walk(gfn),
        SplitPlace::Walk { rooted: false } => PartStep::Root,
        SplitPlace::Claim { begun } => claim_part(FreeMap::Pages, begun, &topics.claim),
        SplitPlace::Fill => PartStep::Fill(word_below(topics)),
        SplitPlace::Role => PartStep::Role(topics.walk.level.saturating_sub(1) as u64),
        SplitPlace::Link => PartStep::Link(gfn),
        SplitPlace::Give(_) => PartStep::Give,
        SplitPlace::Unshare(_) => PartStep::Unshare,
        SplitPlace::End(_) => PartStep::End,
    }
}

/// 1 where the line may end with the step of this place, else 0.
pub fn note(place: SplitPlace) -> u64
    ensures { result ≡ split_note place }
{
    match place {
        SplitPlace::End(_) => 1,
        _ => 0,
    }
}

// After a step of sharing the lock.
fn after_share(next: ShareNext) -> SplitPlace
    ensures { result ≡ after_share next }
{
    match next {
        ShareNext::Tries => SplitPlace::Share,
        ShareNext::Shares => SplitPlace::Walk { rooted: false },
    }
}

// After an entry of the walk's table.
fn entry_next(walk: &TableWalk, found: u64) -> SplitPlace
    ensures { result ≡ entry_next (kind_of walk.now.level found) walk.now.level found }
{
    match Spte::from_word(found).kind(walk.level) {
        SpteKind::Table(_) => SplitPlace::Walk { rooted: true },
        SpteKind::Leaf if walk.level >= 2 => SplitPlace::Claim { begun: false },
        _ => SplitPlace::Unshare(SplitEnd::Nothing(found)),
    }
}

// After a step of its claim.
fn after_claim(next: ClaimNext) -> SplitPlace
    ensures { result ≡ after_claim next }
{
    match next {
        ClaimNext::Goes => SplitPlace::Claim { begun: true },
        ClaimNext::Got => SplitPlace::Fill,
        ClaimNext::Empty => SplitPlace::Unshare(SplitEnd::Starved),
    }
}

// What the line is answered.
fn answer(end: SplitEnd) -> Answer
    ensures { result ≡ split_answer end }
{
    match end {
        SplitEnd::Starved => Answer::Starved,
        SplitEnd::Split | SplitEnd::Nothing(_) | SplitEnd::Changed(_) => Answer::Done,
    }
}

/// Where the line stands after the step of this place, which answered `found`.
pub fn outcome(place: SplitPlace, gfn: u64, hand: &Hand, found: u64) -> Outcome
    requires rests { PartRests hand.now.core }
    requires needs { PartNeeds (split_part place gfn hand.now.core.topics) hand.now.core }
    ensures { result ≡ split_outcome place hand.now.core.state.sizes hand.now.core.topics found }
{
    let topics = hand.topics();
    let sizes = &hand.progress().sizes;
    let next = match place {
        SplitPlace::Begin => SplitPlace::Share,
        SplitPlace::Share => after_share(share_next(topics.hold, found)),
        SplitPlace::Walk { rooted: true } => entry_next(&topics.walk, found),
        SplitPlace::Walk { rooted: false } => SplitPlace::Walk { rooted: true },
        SplitPlace::Claim { begun } => {
            after_claim(claim_next(FreeMap::Pages, begun, sizes, &topics.claim, found))
        }
        SplitPlace::Fill if words_filled(topics.owned) + 1 < ENTRIES => SplitPlace::Fill,
        SplitPlace::Fill => SplitPlace::Role,
        SplitPlace::Role => SplitPlace::Link,
        SplitPlace::Link if found == topics.walk.entry => SplitPlace::Unshare(SplitEnd::Split),
        SplitPlace::Link => SplitPlace::Give(SplitEnd::Changed(found)),
        SplitPlace::Give(end) => SplitPlace::Unshare(end),
        SplitPlace::Unshare(end) => SplitPlace::End(end),
        SplitPlace::End(end) => return Outcome::Ends(answer(end)),
    };
    Outcome::Goes(Place::Split(next))
}
