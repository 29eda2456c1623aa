//! Whether a hand holds what a step of a part needs that no line makes.
ghost use Rattle.std.specs.Prelude.{◌≡◌, ◌≢◌, ◌⊎◌, ◌≤◌, ◌<◌, ◌^◌, true, false};
ghost use Rattle.part_steps.specs.PartBounds.{PartRests};
ghost use Rattle.part_steps.specs.LockHoldings.{MayRelease};
ghost use Rattle.part_steps.specs.PartTasks.{page_owned};
ghost use Rattle.part_steps.specs.PartHoldings.{IsOver, next_watched};
ghost use Rattle.part_steps.specs.PartSteps.{PartNeeds, needs_line};
ghost use Rattle.part_steps.specs.SweepTopics.{is_sweeping, walks_anew};

use crate::part_step::words_filled;
use core_views::{Actor, Hold, MapClaim, OwnedPage, Stay, TableWalk};
use hands::Hand;
use part_steps::{PartStep, map_of};
use spte_words::{Area, ENTRIES};
use topic_twins::{has_found_looked, is_sweeping, span_of, walks_anew};

// Whether the claim goes on to this word of the map.
fn goes_on_to(word: u64, claim: &MapClaim) -> bool
    ensures yes { result ≡ true → (word ≡ 0) ⊎ ((word ≡ claim.now.at) × (claim.now.seen ≡ 0)) }
    ensures no_ { result ≡ false → (word ≢ 0) × ((word ≢ claim.now.at) ⊎ (claim.now.seen ≢ 0)) }
{
    word == 0 || (word == claim.at && claim.seen == 0)
}

// Whether the walk's table has the guest frame's entry of its level.
fn is_over(gfn: u64, walk: &TableWalk) -> bool
    requires { walk.now.level ≤ 4 }
    ensures { result ≡ true → IsOver gfn walk.now }
{
    gfn < 1 << 36 && walk.level >= 1 && span_of(gfn, walk.level) / ENTRIES == walk.prefix
}

// Whether the page that is owned is one of the pool.
fn is_of_pool(pool: u64, owned: Option<OwnedPage>) -> bool
    ensures { result ≡ true → page_owned owned < pool }
{
    match owned {
        Some(owned) => owned.page < pool,
        None => pool > 0,
    }
}

// Whether the lock may be given back that a hand has alone which has no line left.
fn may_release(hand: &Hand) -> bool
    ensures { result ≡ true → MayRelease hand.now.core }
{
    let topics = hand.topics();
    topics.hold == Hold::Exclusive && !topics.invalidations.opened && !hand.has_line()
}

/// Whether the step is one of lines alone, which no actor makes that has no line
/// left: it changes an entry of the tables, is on a word of the dirty log, or is of a publication, of an
/// invalidation or of a change or move of a host page.
pub fn needs_line(step: PartStep) -> bool
    ensures { result ≡ needs_line step }
{
    match step {
        PartStep::Link(_) | PartStep::Leaf { .. } | PartStep::Sweep(_) | PartStep::Zap(_) => true,
        PartStep::WalkAnew(_) => true,
        PartStep::Fix(_) | PartStep::Mark => true,
        PartStep::Publish | PartStep::Clear | PartStep::GiveOld => true,
        PartStep::SetStart { .. } | PartStep::SetEnd { .. } => true,
        PartStep::SetCount(_) | PartStep::SetSeq(_) => true,
        PartStep::Ask(_) | PartStep::Await(_) | PartStep::Change(_) | PartStep::Bring => true,
        PartStep::HostOn(_) | PartStep::ChangeNext => true,
        PartStep::FrameMap(_) | PartStep::Frame | PartStep::GiveFrame => true,
        PartStep::Copy(_) | PartStep::Store(_) => true,
        PartStep::Take { .. } | PartStep::Protect(_) => true,
        PartStep::Peek(_) | PartStep::Arm { .. } => true,
        _ => false,
    }
}

/// Whether the hand holds what the step needs, which isn't one of lines alone.
pub fn has_needs(hand: &Hand, step: PartStep) -> bool
    requires rests { PartRests hand.now.core }
    requires free { needs_line step ≡ false }
    ensures { result ≡ true → PartNeeds step hand.now.core }
{
    let sizes = &hand.progress().sizes;
    let map = map_of(sizes);
    let topics = hand.topics();
    let claim = &topics.claim;
    let own = sizes.index_of(hand.progress().actor);
    match step {
        PartStep::Enter => {
            matches!(hand.progress().actor, Actor::Vcpu(_)) && topics.stay == Stay::Outside
        }
        PartStep::Leave => topics.stay == Stay::Guest,
        PartStep::Begin => topics.stay == Stay::Outside,
        PartStep::End => topics.stay == Stay::Section && topics.owed.is_none(),
        PartStep::Share | PartStep::Exclude => topics.hold == Hold::Loose,
        PartStep::Unshare => matches!(topics.hold, Hold::Shared | Hold::Owing(_)),
        PartStep::Release => may_release(hand),
        PartStep::Map(word) => {
            topics.owned.is_none()
                && word < map.size_of(Area::PoolMap) as u64
                && goes_on_to(word, claim)
        }
        PartStep::Claim => {
            topics.owned.is_none() && claim.seen > 0 && claim.at < map.size_of(Area::PoolMap) as u64
        }
        PartStep::Fill(_) => {
            topics.owned.is_some()
                && words_filled(topics.owned) < ENTRIES
                && is_of_pool(sizes.pool, topics.owned)
        }
        PartStep::Role(_) => {
            words_filled(topics.owned) == ENTRIES && is_of_pool(sizes.pool, topics.owned)
        }
        PartStep::Give => topics.owned.is_some() && topics.hold != Hold::Exclusive,
        PartStep::Slot => {
            topics.search.set.is_some()
                && topics.search.id <= 31
                && !(topics.hold == Hold::Exclusive && has_found_looked(topics))
        }
        PartStep::Walk(gfn) => {
            is_over(gfn, &topics.walk) && !is_sweeping(topics) && !walks_anew(topics)
        }
        PartStep::Host(page) => page < sizes.pages && topics.hold != Hold::Exclusive,
        PartStep::Watch(index) => {
            index < sizes.actors()
                && index != own
                && (index == next_watched(own, 0) || index == next_watched(own, topics.watched))
        }
        PartStep::Pause | PartStep::Slots | PartStep::Root => true,
        PartStep::Seq | PartStep::Count | PartStep::RangeStart | PartStep::RangeEnd => true,
        _ => false,
    }
}

/// The actor whose state word comes next in a watch by the actor at `own`, where
/// those before `seen` were looked at: each but the own.
pub fn next_watched(own: u64, seen: u64) -> u64
    requires { seen < 2 ^ 32 }
    ensures { result ≡ next_watched own seen }
{
    if seen == own { seen + 1 } else { seen }
}
