//! The steps of a fault.
ghost use Rattle.std.specs.Prelude.{◌≡◌, ◌≤◌, ◌<◌, ◌^◌, ◌==◌, ◌&&◌, Bool, true, false, if◌then◌else◌};
ghost use Rattle.core_views.specs.declared.place.Cause.TheVariants.{Entry};
ghost use Rattle.core_views.specs.declared.place.FaultEnd.TheVariants.{Retry};
ghost use Rattle.core_views.specs.declared.place.FaultPlace.TheVariants.{End, FastFind, Fill, Find, Fix, Give, Host, Leaf, Link, Share, Unshare, Walk};
ghost use Rattle.core_views.specs.Sizes.{AreSizes};
ghost use Rattle.mmu_core.specs.forms.access.FaultSteps.{after_claim, after_share, check_next, check_part, end_next, entry_word, exchange_lost};
ghost use Rattle.mmu_core.specs.forms.access.FaultSteps.{fault_next, fault_part, find_next};
ghost use Rattle.mmu_core.specs.forms.access.FaultSteps.{fast_find_next, fast_walk_next, host_word_at, over_next, page_next, put_next, share_next, walk_next};
ghost use Rattle.part_steps.specs.declared.part_step.PartStep.TheVariants as part;
ghost use Rattle.part_steps.specs.PartBounds.{PartRests};
ghost use Rattle.part_steps.specs.PartTasks.{table_page, word_looked, words_filled};
ghost use Rattle.part_steps.specs.PartSteps.{PartNeeds};
ghost use Rattle.part_steps.specs.SlotWords.{page_of};
ghost use Rattle.part_steps.specs.PageTopics.{searched};
ghost use Rattle.spte_words.specs.Entries.{kind_of};

use core_views::{
    Cause, CheckStage, FaultEnd, FaultNext, FaultPlace, HostLook, SLOTS, Sizes, SlotField,
    SlotSearch, TableWalk, Topics,
};
use mmu_core::{ClaimNext, FreeMap, ShareNext};
use order_twins::{claim_next, claim_part, share_next, share_part};
use part_steps::{PartStep, map_of};
use part_twins::{
    Hand, entry_index, is_fixable, maps_run, page_of, search, table_page, word_below, words_filled,
};
use spte_words::{Area, ENTRIES, HostWord, Spte, SpteKind};

fn check_part(stage: CheckStage) -> PartStep
    ensures { result ≡ check_part stage }
{
    match stage {
        CheckStage::Count => PartStep::Count,
        CheckStage::Start => PartStep::RangeStart,
        CheckStage::End => PartStep::RangeEnd,
        CheckStage::Seq => PartStep::Seq,
    }
}

/// The step of this place.
pub fn part(place: FaultPlace, gfn: u64, topics: &Topics) -> PartStep
    requires page { place ≡ Host → page_of topics.now.search.slot gfn < 2 ^ 64 }
    requires filled { place ≡ Fill → words_filled topics.now.owned < 512 }
    ensures { result ≡ fault_part place gfn topics.now }
{
    match place {
        FaultPlace::Begin => PartStep::Begin,
        FaultPlace::Snapshot => PartStep::Seq,
        FaultPlace::Find { begun: true } => PartStep::Slot,
        FaultPlace::Find { begun: false } => PartStep::Slots,
        FaultPlace::Host => PartStep::Host(page_of(&topics.search.slot, gfn)),
        FaultPlace::Bring => PartStep::Bring,
        FaultPlace::Share => share_part(topics.hold),
        FaultPlace::Check(stage) => check_part(stage),
        FaultPlace::Walk { rooted: true } => PartStep::Walk(gfn),
        FaultPlace::Walk { rooted: false } => PartStep::Root,
        FaultPlace::Claim { begun } => claim_part(FreeMap::Pages, begun, &topics.claim),
        FaultPlace::Fill => PartStep::Fill(word_below(topics)),
        FaultPlace::Role => PartStep::Role(topics.walk.level.saturating_sub(1) as u64),
        FaultPlace::Link => PartStep::Link(gfn),
        FaultPlace::Give(_) => PartStep::Give,
        FaultPlace::Leaf { write } => PartStep::Leaf { gfn, write },
        FaultPlace::Unshare(_) => PartStep::Unshare,
        FaultPlace::End(_) => PartStep::End,
        FaultPlace::FastBegin => PartStep::Begin,
        FaultPlace::FastFind { begun: true } => PartStep::Slot,
        FaultPlace::FastFind { begun: false } => PartStep::Slots,
        FaultPlace::FastWalk { rooted: true } => PartStep::Walk(gfn),
        FaultPlace::FastWalk { rooted: false } => PartStep::Root,
        FaultPlace::Fix => PartStep::Fix(gfn),
        FaultPlace::Mark { .. } => PartStep::Mark,
    }
}

// Behind a word of the slots.
fn find_next(gfn: u64, write: bool, loaded: SlotField, found: &SlotSearch) -> FaultPlace
    ensures { result ≡ find_next gfn write loaded found.now }
{
    if loaded == SlotField::Host && found.slot.contains(gfn) {
        if write && found.slot.read_only {
            FaultPlace::End(FaultEnd::Mmio)
        } else {
            FaultPlace::Host
        }
    } else if found.id == SLOTS {
        FaultPlace::End(FaultEnd::Mmio)
    } else {
        FaultPlace::Find { begun: true }
    }
}

// The same in a fast fault.
fn fast_find_next(gfn: u64, loaded: SlotField, found: &SlotSearch) -> FaultPlace
    ensures { result ≡ fast_find_next gfn loaded found.now }
{
    if loaded == SlotField::Host && found.slot.contains(gfn) {
        FaultPlace::FastWalk { rooted: false }
    } else if found.id == SLOTS {
        FaultPlace::End(FaultEnd::NotFast(0))
    } else {
        FaultPlace::FastFind { begun: true }
    }
}

// After the host word of the page.
fn page_next(write: bool, word: HostWord) -> FaultPlace
    ensures { result ≡ page_next write word }
{
    if write && !word.is_writable() {
        FaultPlace::End(FaultEnd::HostFault)
    } else if word.is_present() {
        FaultPlace::Share
    } else {
        FaultPlace::Bring
    }
}

// After the exchange with which the page is brought in.
fn brought_next(hand: &Hand, found: u64) -> FaultPlace
    requires rests { PartRests hand.now.core }
    requires needs { PartNeeds part.Bring hand.now.core }
    ensures { result ≡ (if found == word_looked hand.now.core.topics.host then Share
        else End (Retry false (Entry (host_word_at hand.now.core.state.sizes hand.now.core.topics.host) (word_looked hand.now.core.topics.host) found))) }
{
    let Some(HostLook { page, word }) = hand.topics().host else {
        unreachable!()
    };
    if found == word {
        return FaultPlace::Share;
    }
    let at = map_of(&hand.progress().sizes).word_of(Area::Host, page);
    FaultPlace::End(changed(false, at, word, found))
}

// After a step of sharing the lock.
fn after_share(next: ShareNext) -> FaultPlace
    ensures { result ≡ after_share next }
{
    match next {
        ShareNext::Tries => FaultPlace::Share,
        ShareNext::Shares => FaultPlace::Check(CheckStage::Count),
    }
}

// A whole fault is to begin anew.
fn retry(cause: Cause) -> FaultEnd
    ensures { result ≡ Retry false cause }
{
    FaultEnd::Retry { fast: false, cause }
}

// Behind a word of the check.
fn check_next(stage: CheckStage, gfn: u64, topics: &Topics, found: u64) -> FaultPlace
    ensures { result ≡ check_next stage gfn topics.now found }
{
    let kept = &topics.invalidations;
    match stage {
        CheckStage::Count if found == 0 => FaultPlace::Check(CheckStage::Seq),
        CheckStage::Count => FaultPlace::Check(CheckStage::Start),
        CheckStage::Start => FaultPlace::Check(CheckStage::End),
        CheckStage::End if kept.start <= gfn && gfn < found => {
            FaultPlace::Unshare(retry(Cause::Open {
                count: kept.count,
                start: kept.start,
                end: found,
                gfn,
            }))
        }
        CheckStage::End => FaultPlace::Check(CheckStage::Seq),
        CheckStage::Seq => {
            let old = kept.snapshot.unwrap_or(0);
            if found == old {
                FaultPlace::Walk { rooted: false }
            } else {
                FaultPlace::Unshare(retry(Cause::Moved { old, now: found }))
            }
        }
    }
}

/// Where the guest frame's entry of the walk's table stands among all words.
pub(crate) fn entry_word(sizes: &Sizes, gfn: u64, walk: &TableWalk) -> u32
    requires sizes { AreSizes sizes.now }
    requires from { 1 ≤ walk.now.level }
    requires to { walk.now.level ≤ 4 }
    requires page { table_page walk.now < sizes.now.pool }
    ensures { result ≡ entry_word sizes.now gfn walk.now }
{
    let map = map_of(sizes);
    let index = map.pool_index(table_page(walk), entry_index(gfn, walk.level));
    map.word_of(Area::Pool, index)
}

// The entry isn't as it was read.
fn changed(fast: bool, word: u32, read: u64, seen: u64) -> FaultEnd
    ensures { result ≡ Retry fast (Entry word read seen) }
{
    let cause = Cause::Entry { word, read, seen };
    FaultEnd::Retry { fast, cause }
}

// At an entry in which nothing is mapped, or a leaf that forbids the access: a leaf of this level is
// put, or a table is to be linked.
fn end_next(gfn: u64, write: bool, topics: &Topics) -> FaultPlace
    requires small { gfn < 2 ^ 36 }
    requires from { 1 ≤ topics.now.walk.level }
    requires to { topics.now.walk.level ≤ 4 }
    ensures { result ≡ end_next gfn write topics.now }
{
    if maps_run(topics.walk.level, gfn, topics) {
        FaultPlace::Leaf { write }
    } else {
        FaultPlace::Claim { begun: false }
    }
}

// After an entry of the walk's table.
fn walk_next(sizes: &Sizes, gfn: u64, write: bool, topics: &Topics, found: u64) -> FaultPlace
    requires sizes { AreSizes sizes.now }
    requires small { gfn < 2 ^ 36 }
    requires from { 1 ≤ topics.now.walk.level }
    requires to { topics.now.walk.level ≤ 4 }
    requires page { table_page topics.now.walk < sizes.now.pool }
    ensures { result ≡ walk_next (kind_of topics.now.walk.level found) sizes.now gfn write topics.now found }
{
    let walk = &topics.walk;
    let entry = Spte::from_word(found);
    match entry.kind(walk.level) {
        SpteKind::Table(_) => FaultPlace::Walk { rooted: true },
        SpteKind::Leaf if !write || entry.is_writable() => FaultPlace::Unshare(FaultEnd::Installed),
        SpteKind::Leaf | SpteKind::Absent => end_next(gfn, write, topics),
        SpteKind::Frozen => {
            FaultPlace::Unshare(changed(false, entry_word(sizes, gfn, walk), found, found))
        }
    }
}

// After an entry of this level on the way of a fast fault: where it is a leaf that forbids
// nothing but the write, and no large one in a slot with a dirty log, this is to be allowed.
fn fast_walk_next(level: u8, logged: bool, found: u64) -> FaultPlace
    ensures { result ≡ fast_walk_next (kind_of level found) level logged found }
{
    let entry = Spte::from_word(found);
    match entry.kind(level) {
        SpteKind::Table(_) => FaultPlace::FastWalk { rooted: true },
        SpteKind::Leaf if (level == 1 || !logged) && is_fixable(entry) => FaultPlace::Fix,
        _ => FaultPlace::End(FaultEnd::NotFast(found)),
    }
}

// Once a leaf was put, or writes allowed in it, and the page marked or not.
fn over_next(fast: bool, marked: bool) -> FaultPlace
    ensures { result ≡ over_next fast marked }
{
    if fast {
        FaultPlace::End(FaultEnd::Fixed { marked })
    } else {
        FaultPlace::Unshare(FaultEnd::Installed)
    }
}

// After a leaf was put, or writes allowed in it: where the slot has a dirty log the page is
// marked.
fn put_next(fast: bool, marks: bool) -> FaultPlace
    ensures { result ≡ put_next fast marks }
{
    if marks {
        FaultPlace::Mark { fast }
    } else {
        over_next(fast, false)
    }
}

// After a step of its claim.
fn after_claim(next: ClaimNext) -> FaultPlace
    ensures { result ≡ after_claim next }
{
    match next {
        ClaimNext::Goes => FaultPlace::Claim { begun: true },
        ClaimNext::Got => FaultPlace::Fill,
        ClaimNext::Empty => FaultPlace::Unshare(FaultEnd::Starved),
    }
}

// Why it is to begin anew after an exchange of an entry that was lost.
fn exchange_lost(fast: bool, hand: &Hand, gfn: u64, found: u64) -> FaultEnd
    requires rests { PartRests hand.now.core }
    requires from { 1 ≤ hand.now.core.topics.walk.level }
    ensures { result ≡ exchange_lost fast hand.now.core.state.sizes gfn hand.now.core.topics.walk found }
{
    let walk = &hand.topics().walk;
    let word = entry_word(&hand.progress().sizes, gfn, walk);
    changed(fast, word, walk.entry, found)
}

// After an exchange of an entry.
fn exchange_next(place: FaultPlace, hand: &Hand, gfn: u64, found: u64) -> FaultPlace
    requires rests { PartRests hand.now.core }
    requires from { 1 ≤ hand.now.core.topics.walk.level }
    ensures link { place ≡ Link → result ≡ (if found == hand.now.core.topics.walk.entry then Walk true
        else Give (exchange_lost false hand.now.core.state.sizes gfn hand.now.core.topics.walk found)) }
    ensures leaf { (writes : Bool) → place ≡ Leaf writes → result ≡ (if found == hand.now.core.topics.walk.entry
        then put_next false (writes && hand.now.core.topics.search.logged)
        else Unshare (exchange_lost false hand.now.core.state.sizes gfn hand.now.core.topics.walk found)) }
    ensures fix { place ≡ Fix → result ≡ (if found == hand.now.core.topics.walk.entry then put_next true hand.now.core.topics.search.logged
        else End (exchange_lost true hand.now.core.state.sizes gfn hand.now.core.topics.walk found)) }
{
    let topics = hand.topics();
    let won = found == topics.walk.entry;
    let logged = topics.search.logged;
    match place {
        FaultPlace::Link if won => FaultPlace::Walk { rooted: true },
        FaultPlace::Link => FaultPlace::Give(exchange_lost(false, hand, gfn, found)),
        FaultPlace::Leaf { write } if won => put_next(false, write && logged),
        FaultPlace::Leaf { .. } => FaultPlace::Unshare(exchange_lost(false, hand, gfn, found)),
        _ if won => put_next(true, logged),
        _ => FaultPlace::End(exchange_lost(true, hand, gfn, found)),
    }
}

// The place after a step of the look-up or of the lock.
fn looked_next(place: FaultPlace, gfn: u64, write: bool, topics: &Topics, found: u64) -> FaultPlace
    requires begun { place ≡ Find true → topics.now.search.id ≤ 31 }
    requires fast_begun { place ≡ FastFind true → topics.now.search.id ≤ 31 }
    ensures fast { (begun : Bool) → place ≡ FastFind begun
        → result ≡ (if begun then fast_find_next gfn topics.now.search.next (searched topics.now.search found) else FastFind true) }
    ensures find { (begun : Bool) → place ≡ Find begun
        → result ≡ (if begun then find_next gfn write topics.now.search.next (searched topics.now.search found) else Find true) }
    ensures host { place ≡ Host → result ≡ page_next write found }
    ensures share { place ≡ Share → result ≡ after_share (share_next topics.now.hold found) }
{
    match place {
        FaultPlace::Find { begun: true } => {
            let mut after = topics.search;
            search(&mut after, found);
            find_next(gfn, write, topics.search.next, &after)
        }
        FaultPlace::Find { begun: false } => FaultPlace::Find { begun: true },
        FaultPlace::FastFind { begun: true } => {
            let mut after = topics.search;
            search(&mut after, found);
            fast_find_next(gfn, topics.search.next, &after)
        }
        FaultPlace::FastFind { begun: false } => FaultPlace::FastFind { begun: true },
        FaultPlace::Host => page_next(write, HostWord::from_word(found)),
        _ => after_share(share_next(topics.hold, found)),
    }
}

/// Where the fault stands after the step of this place, which answered `found`.
pub fn next(place: FaultPlace, hand: &Hand, gfn: u64, write: bool, found: u64) -> FaultNext
    requires rests { PartRests hand.now.core }
    requires needs { PartNeeds (fault_part place gfn hand.now.core.topics) hand.now.core }
    ensures { result ≡ fault_next place hand.now.core.state.sizes gfn write hand.now.core.topics found }
{
    let sizes = &hand.progress().sizes;
    let topics = hand.topics();
    FaultNext::Goes(match place {
        FaultPlace::Begin => FaultPlace::Snapshot,
        FaultPlace::Snapshot => FaultPlace::Find { begun: false },
        FaultPlace::Find { .. }
        | FaultPlace::FastFind { .. }
        | FaultPlace::Host
        | FaultPlace::Share => { looked_next(place, gfn, write, topics, found) }
        FaultPlace::Bring => brought_next(hand, found),
        FaultPlace::Check(stage) => check_next(stage, gfn, topics, found),
        FaultPlace::Walk { rooted: true } => walk_next(sizes, gfn, write, topics, found),
        FaultPlace::Walk { rooted: false } => FaultPlace::Walk { rooted: true },
        FaultPlace::Claim { begun } => {
            after_claim(claim_next(FreeMap::Pages, begun, sizes, &topics.claim, found))
        }
        FaultPlace::Fill if words_filled(topics.owned) + 1 < ENTRIES => FaultPlace::Fill,
        FaultPlace::Fill => FaultPlace::Role,
        FaultPlace::Role => FaultPlace::Link,
        FaultPlace::Link | FaultPlace::Leaf { .. } | FaultPlace::Fix => {
            exchange_next(place, hand, gfn, found)
        }
        FaultPlace::Give(end) => FaultPlace::Unshare(end),
        FaultPlace::FastBegin => FaultPlace::FastFind { begun: false },
        FaultPlace::FastWalk { rooted: true } => {
            fast_walk_next(topics.walk.level, topics.search.logged, found)
        }
        FaultPlace::FastWalk { rooted: false } => FaultPlace::FastWalk { rooted: true },
        FaultPlace::Mark { fast } => over_next(fast, true),
        FaultPlace::Unshare(end) => FaultPlace::End(end),
        FaultPlace::End(end) => return FaultNext::Ends(end),
    })
}
