//! The steps of the machine's parts: which word each is on, and what is done
//! with it.
ghost use Rattle.std.specs.Prelude.{◌≡◌, ◌≢◌, ◌≤◌, ◌<◌, ◌^◌, ◌/◌, ◌%◌, ℕ, true, Some, is_some};
ghost use Rattle.core_views.specs.declared.kind.StepKind.TheVariants as StepKind;
ghost use Rattle.core_views.specs.declared.topics.OwnedPage.{OwnedPage};
ghost use Rattle.core_views.specs.declared.topics.PageRun.{PageRun};
ghost use Rattle.spte_words.specs.declared.area.Area.TheVariants as Area;
ghost use Rattle.spte_words.specs.Areas.{IsWordMap, pool_index, size_of};
ghost use Rattle.part_steps.specs.PartBounds.{PartRests};
ghost use Rattle.part_steps.specs.PartTasks.{all_but, entry_index, entry_task, leaf_fixed, leaf_written, own_index};
ghost use Rattle.part_steps.specs.PartTasks.{changes_next, is_own_state, page_owed, page_owned, page_retired, page_to_change};
ghost use Rattle.part_steps.specs.PartTasks.{exchanges_host, part_kind, part_task, set_held, stores_bound, table_page, word_looked, words_filled, works};
ghost use Rattle.part_steps.specs.PartSteps.{PartNeeds};
ghost use Rattle.part_steps.specs.SlotWords.{slot_index};
ghost use Rattle.part_steps.specs.SweepTopics.{at_top, gone_up};
ghost use Rattle.spte_words.specs.Entries.{table_word, word_below, write_bit};
ghost use Rattle.spte_words.specs.HostWords.{host_frame, with_presence};
ghost use Rattle.part_steps.specs.Tasks.{loads, map_of};
ghost use Rattle.part_steps.specs.FrameTopics.{frame_owned};
ghost use Rattle.part_steps.specs.PageTopics.{tried_bit};
ghost use Rattle.part_steps.specs.ControlBits.{guest_bits, section_bit};
ghost use Rattle.part_steps.specs.declared.part_step.PartStep.TheVariants.{Enter, Leave, Begin, End, Clear};

use crate::slot_words::{leaf_of, page_of, slot_word};
use crate::task::kind_of;
use core_views::{
    HostLook, Kind, MapClaim, OwnedFrame, OwnedPage, PageRun, SlotSearch, StepKind, TableWalk,
    Topics,
};
use hands::Hand;
use part_steps::{PartStep, Task, map_of};
use spte_words::{Area, HostWord, Spte, WRITE, WordMap};
use topic_twins::{
    GUEST_BITS, REQUEST_BIT, SECTION_BIT, WRITER, begin_anew, entry_index, frame_owned, go_up,
    page_next, tried_bit, word_given, word_held, word_seen,
};

// An operation that writes, or works with, this number.
fn work(kind: StepKind, area: Area, index: u64, written: u64, note: u64) -> Task
    ensures { result ≡ works kind area index written note }
{
    Task {
        kind,
        area,
        index,
        expected: 0,
        written,
        may_end: note,
    }
}

/// The page of the table that a walk has come to.
pub fn table_page(walk: &TableWalk) -> u64
    ensures { result ≡ table_page walk.now }
{
    match walk.level {
        4 => walk.root,
        3 => walk.third,
        2 => walk.second,
        _ => walk.first,
    }
}

/// The page that is owned, and 0 where none is.
pub fn page_owned(owned: Option<OwnedPage>) -> u64
    ensures { result ≡ page_owned owned }
{
    match owned {
        Some(owned) => owned.page,
        None => 0,
    }
}

/// How far the page that is owned is filled.
pub fn words_filled(owned: Option<OwnedPage>) -> u64
    ensures { result ≡ words_filled owned }
{
    match owned {
        Some(owned) => owned.filled,
        None => 0,
    }
}

/// What is to stand at the next place of the page that is owned, in a table that is linked in place
/// of the entry that the walk has loaded.
pub fn word_below(topics: &Topics) -> u64
    requires { words_filled topics.now.owned < 512 }
    ensures { result ≡ word_below topics.now.walk.level topics.now.walk.entry (words_filled topics.now.owned) }
{
    let entry = Spte::from_word(topics.walk.entry);
    let place = words_filled(topics.owned) as u32;
    entry.below(topics.walk.level, place).word()
}

// Fills the next word of the page.
fn fill(map: &WordMap, owned: Option<OwnedPage>, value: u64, note: u64) -> Task
    requires map { IsWordMap map.now }
    requires left { words_filled owned < 512 }
    requires page { (o : OwnedPage) → owned ≡ Some o → o.page < map.now.pool }
    requires owned { is_some owned ≡ true }
    ensures task { result ≡ works StepKind.Fill Area.Pool (pool_index (page_owned owned) (words_filled owned)) value note }
    ensures within { result.index < size_of map.now result.area }
{
    let Some(OwnedPage { page, filled, .. }) = owned else {
        unreachable!()
    };
    let index = map.pool_index(page, filled);
    work(StepKind::Fill, Area::Pool, index, value, note)
}

// Stores the role of the page.
fn role(map: &WordMap, owned: Option<OwnedPage>, value: u64, note: u64) -> Task
    requires map { IsWordMap map.now }
    requires page { (o : OwnedPage) → owned ≡ Some o → o.page < map.now.pool }
    requires filled { words_filled owned ≡ 512 }
    ensures task { result ≡ works StepKind.Fill Area.Role (page_owned owned) value note }
    ensures within { result.index < size_of map.now result.area }
{
    let Some(OwnedPage { page, .. }) = owned else {
        unreachable!()
    };
    work(StepKind::Fill, Area::Role, page, value, note)
}

// Gives the page back.
fn give(map: &WordMap, owned: Option<OwnedPage>, note: u64) -> Task
    requires page { (o : OwnedPage) → owned ≡ Some o → o.page < map.now.pool }
    requires owned { is_some owned ≡ true }
    ensures task { result ≡ works StepKind.Give Area.PoolMap (page_owned owned / 64) (2 ^ (page_owned owned % 64)) note }
    ensures within { result.index < size_of map.now result.area }
{
    let Some(OwnedPage { page, .. }) = owned else {
        unreachable!()
    };
    let bit = 1 << (page % 64);
    work(StepKind::Give, Area::PoolMap, page / 64, bit, note)
}

// Publishes the slot set in the page.
fn publish(owned: Option<OwnedPage>, note: u64) -> Task
    requires { is_some owned ≡ true }
    ensures { result ≡ works StepKind.Publish Area.Slots 0 (page_owned owned) note }
{
    let Some(OwnedPage { page, .. }) = owned else {
        unreachable!()
    };
    work(StepKind::Publish, Area::Slots, 0, page, note)
}

// Takes the role from the page that is retired, or gives it back.
fn drop_old(step: PartStep, map: &WordMap, retired: Option<u64>, note: u64) -> Task
    requires page { (k : ℕ) → retired ≡ Some k → k < map.now.pool }
    requires retired { is_some retired ≡ true }
    ensures clear { step ≡ Clear → result ≡ works StepKind.Fill Area.Role (page_retired retired) 0 note }
    ensures give { step ≢ Clear → result ≡ works StepKind.Give Area.PoolMap (page_retired retired / 64) (2 ^ (page_retired retired % 64)) note }
    ensures within { result.index < size_of map.now result.area }
{
    let Some(page) = retired else { unreachable!() };
    if let PartStep::Clear = step {
        return work(StepKind::Fill, Area::Role, page, 0, note);
    }
    let bit = 1 << (page % 64);
    work(StepKind::Give, Area::PoolMap, page / 64, bit, note)
}

// Loads the next word of the search.
fn slot(map: &WordMap, search: &SlotSearch, note: u64) -> Task
    requires map { IsWordMap map.now }
    requires page { (k : ℕ) → search.now.set ≡ Some k → k < map.now.pool }
    requires set { is_some search.now.set ≡ true }
    requires id { search.now.id ≤ 31 }
    ensures task { result ≡ loads StepKind.Slot Area.Pool (slot_index (set_held search.now.set) search.now.id search.now.next) note }
    ensures within { result.index < size_of map.now result.area }
{
    let Some(set) = search.set else {
        unreachable!()
    };
    Task::load(
        StepKind::Slot,
        Area::Pool,
        slot_word(map, set, search.id, search.next),
        note,
    )
}

/// Loads the guest frame's entry in the table that the walk has come to.
#[inline(always)]
pub fn walk_task(map: &WordMap, walk: &TableWalk, gfn: u64, note: u64) -> Task
    requires map { IsWordMap map.now }
    requires from { 1 ≤ walk.now.level }
    requires to { walk.now.level ≤ 4 }
    requires page { table_page walk.now < map.now.pool }
    ensures task { result ≡ loads StepKind.Walk Area.Pool (pool_index (table_page walk.now) (entry_index gfn walk.now.level)) note }
    ensures within { result.index < size_of map.now result.area }
{
    let index = map.pool_index(table_page(walk), entry_index(gfn, walk.level));
    Task::load(StepKind::Walk, Area::Pool, index, note)
}

// Loads it where a sweep goes on. (Few steps do: kept out of the way of the others.)
#[inline(never)]
fn sweep(map: &WordMap, from: &TableWalk, gfn: u64, note: u64) -> Task
    requires map { IsWordMap map.now }
    requires from { 1 ≤ (gone_up from.now).level }
    requires to { (gone_up from.now).level ≤ 4 }
    requires page { table_page (gone_up from.now) < map.now.pool }
    ensures task { result ≡ loads StepKind.Walk Area.Pool (pool_index (table_page (gone_up from.now)) (entry_index gfn (gone_up from.now).level)) note }
    ensures within { result.index < size_of map.now result.area }
{
    let mut at = *from;
    go_up(&mut at);
    walk_task(map, &at, gfn, note)
}

// Loads it where a walk begins anew at its root.
#[inline(never)]
fn walk_anew(map: &WordMap, from: &TableWalk, gfn: u64, note: u64) -> Task
    requires map { IsWordMap map.now }
    requires page { table_page (at_top from.now) < map.now.pool }
    ensures task { result ≡ loads StepKind.Walk Area.Pool (pool_index (table_page (at_top from.now)) (entry_index gfn 4)) note }
    ensures within { result.index < size_of map.now result.area }
{
    let mut at = *from;
    begin_anew(&mut at);
    walk_task(map, &at, gfn, note)
}

// Exchanges the guest frame's entry in the table that the walk has come to.
fn enter(map: &WordMap, walk: &TableWalk, gfn: u64, new: u64, note: u64) -> Task
    requires map { IsWordMap map.now }
    requires from { 1 ≤ walk.now.level }
    requires to { walk.now.level ≤ 4 }
    requires page { table_page walk.now < map.now.pool }
    ensures task { result ≡ entry_task gfn new walk.now note }
    ensures within { result.index < size_of map.now result.area }
{
    Task {
        kind: StepKind::Swap,
        area: Area::Pool,
        index: map.pool_index(table_page(walk), entry_index(gfn, walk.level)),
        expected: walk.entry,
        written: new,
        may_end: note,
    }
}

// A link to the owned page.
fn link(owned: Option<OwnedPage>) -> u64
    requires page { (o : OwnedPage) → owned ≡ Some o → o.page < 2 ^ 32 }
    requires owned { is_some owned ≡ true }
    ensures { result ≡ table_word (page_owned owned) }
{
    let Some(OwnedPage { page, .. }) = owned else {
        unreachable!()
    };
    Spte::table(page as u32).word()
}

// The leaf over the guest frame's run, by the page that was looked up.
fn leaf(topics: &Topics, gfn: u64, write: bool) -> u64
    requires from { 1 ≤ topics.now.walk.level }
    requires to { topics.now.walk.level ≤ 4 }
    requires frame { host_frame (word_looked topics.now.host) < 2 ^ 40 }
    requires looked { is_some topics.now.host ≡ true }
    ensures { result ≡ leaf_written gfn write topics.now }
{
    let Some(HostLook { word, .. }) = topics.host else {
        unreachable!()
    };
    let writes = write || !topics.search.logged;
    leaf_of(topics.walk.level, gfn, writes, &topics.search.slot, word)
}

// The leaf that was seen, which allows writes now.
fn fixed(topics: &Topics) -> u64
    ensures { result ≡ leaf_fixed topics.now }
{
    Spte::from_word(topics.walk.entry).with_write().word()
}

// Sets the bit of the page for which a mark is owed.
fn mark(topics: &Topics, note: u64) -> Task
    requires owes { is_some topics.now.owed ≡ true }
    requires small { page_owed topics.now < 2 ^ 64 }
    ensures { result ≡ works StepKind.Mark Area.Log (page_owed topics.now / 64) (2 ^ (page_owed topics.now % 64)) note }
{
    let Some(gfn) = topics.owed else {
        unreachable!()
    };
    let page = page_of(&topics.search.slot, gfn);
    let bit = 1 << (page % 64);
    work(StepKind::Mark, Area::Log, page / 64, bit, note)
}

// Swaps the guest frame's entry, in the table that the walk has come to, for an absent one.
fn zap(map: &WordMap, walk: &TableWalk, gfn: u64, note: u64) -> Task
    requires map { IsWordMap map.now }
    requires from { 1 ≤ walk.now.level }
    requires to { walk.now.level ≤ 4 }
    requires page { table_page walk.now < map.now.pool }
    ensures task { result ≡ works StepKind.Zap Area.Pool (pool_index (table_page walk.now) (entry_index gfn walk.now.level)) 0 note }
    ensures within { result.index < size_of map.now result.area }
{
    let index = map.pool_index(table_page(walk), entry_index(gfn, walk.level));
    work(StepKind::Zap, Area::Pool, index, 0, note)
}

// Forbids writes in the guest frame's leaf, in the table that the walk has come to.
fn protect(map: &WordMap, walk: &TableWalk, gfn: u64, note: u64) -> Task
    requires map { IsWordMap map.now }
    requires from { 1 ≤ walk.now.level }
    requires to { walk.now.level ≤ 4 }
    requires page { table_page walk.now < map.now.pool }
    ensures task { result ≡ works StepKind.Protect Area.Pool (pool_index (table_page walk.now) (entry_index gfn walk.now.level)) (all_but write_bit) note }
    ensures within { result.index < size_of map.now result.area }
{
    let index = map.pool_index(table_page(walk), entry_index(gfn, walk.level));
    work(StepKind::Protect, Area::Pool, index, !WRITE, note)
}

/// The host word that was looked up; 0 where none was.
pub fn word_looked(host: Option<HostLook>) -> u64
    ensures { result ≡ word_looked host }
{
    match host {
        Some(look) => look.word,
        None => 0,
    }
}

// The same, with the page in memory.
fn word_brought(host: Option<HostLook>) -> u64
    ensures { result ≡ with_presence true (word_looked host) }
{
    HostWord::from_word(word_looked(host))
        .with_presence(true)
        .word()
}

// Exchanges the host word that was looked up.
fn exchange_host(kind: StepKind, topics: &Topics, new: u64, note: u64) -> Task
    requires { is_some topics.now.host ≡ true }
    ensures { result ≡ exchanges_host kind new topics.now note }
{
    let Some(HostLook { page, word }) = topics.host else {
        unreachable!()
    };
    Task {
        kind,
        area: Area::Host,
        index: page,
        expected: word,
        written: new,
        may_end: note,
    }
}

// Exchanges the word of the next page of the run of several that is changed. (Few steps do: kept
// out of the way of the others.)
#[inline(never)]
fn change_next(pages: Option<PageRun>, note: u64) -> Task
    requires some { is_some pages ≡ true }
    requires run { (run : PageRun) → pages ≡ Some run → (2 ≤ run.level) × (run.level ≤ 3) × (run.first < 2 ^ 32) × (run.word < 2 ^ 52) }
    requires page { page_to_change pages < 2 ^ 32 }
    ensures { result ≡ changes_next pages note }
{
    let Some(run) = &pages else { unreachable!() };
    let page = page_next(run);
    Task {
        kind: StepKind::Change,
        area: Area::Host,
        index: page,
        expected: word_seen(run, page),
        written: word_given(run, page),
        may_end: note,
    }
}

// Stores an end of the range of open invalidations, into which this end of the own one went.
fn store_bound(area: Area, own: u64, gfn: u64, note: u64) -> Task
    ensures { result ≡ stores_bound area own gfn note }
{
    Task {
        kind: StepKind::Set,
        area,
        index: 0,
        expected: own,
        written: gfn,
        may_end: note,
    }
}

// Tries to take the lowest free page of those seen.
fn claim(claim: &MapClaim, note: u64) -> Task
    requires { 0 < claim.now.seen }
    ensures { result ≡ works StepKind.Claim Area.PoolMap claim.now.at (all_but (2 ^ tried_bit claim.now)) note }
{
    let bit = 1 << tried_bit(claim);
    work(StepKind::Claim, Area::PoolMap, claim.at, !bit, note)
}

// Tries to take the lowest free frame of those seen.
fn claim_frame(claim: &MapClaim, note: u64) -> Task
    requires { 0 < claim.now.seen }
    ensures { result ≡ works StepKind.Frame Area.FrameMap claim.now.at (all_but (2 ^ tried_bit claim.now)) note }
{
    let bit = 1 << tried_bit(claim);
    work(StepKind::Frame, Area::FrameMap, claim.at, !bit, note)
}

// Gives the frame back that is owned.
fn give_frame(owned: Option<OwnedFrame>, note: u64) -> Task
    ensures { result ≡ works StepKind.Unframe Area.FrameMap (frame_owned owned / 64) (2 ^ (frame_owned owned % 64)) note }
{
    let frame = frame_owned(owned);
    work(
        StepKind::Unframe,
        Area::FrameMap,
        frame / 64,
        1 << (frame % 64),
        note,
    )
}

/// What the step does with the actor's own state word.
#[inline(always)]
pub fn own_task(step: PartStep, own: u64, note: u64) -> Task
    requires of_state { is_own_state step ≡ true }
    ensures area { result.area ≡ Area.State }
    ensures index { result.index ≡ own }
    ensures enter { step ≡ Enter → result ≡ works StepKind.Enter Area.State own guest_bits note }
    ensures leave { step ≡ Leave → result ≡ works StepKind.Leave Area.State own (all_but guest_bits) note }
    ensures begin { step ≡ Begin → result ≡ works StepKind.Begin Area.State own section_bit note }
    ensures end { step ≡ End → result ≡ works StepKind.End Area.State own (all_but section_bit) note }
{
    match step {
        PartStep::Enter => work(StepKind::Enter, Area::State, own, GUEST_BITS, note),
        PartStep::Leave => work(StepKind::Leave, Area::State, own, !GUEST_BITS, note),
        PartStep::Begin => work(StepKind::Begin, Area::State, own, SECTION_BIT, note),
        _ => work(StepKind::End, Area::State, own, !SECTION_BIT, note),
    }
}

/// What the step does.
#[inline(always)]
pub fn part_task(hand: &Hand, step: PartStep, note: u64) -> Task
    requires rests { PartRests hand.now.core }
    requires needs { PartNeeds step hand.now.core }
    ensures task { result ≡ part_task step (own_index hand.now.core) hand.now.core.topics note }
    ensures within { result.index < size_of (map_of hand.now.core.state.sizes) result.area }
{
    let sizes = &hand.progress().sizes;
    let map = &map_of(sizes);
    let topics = hand.topics();
    let own = sizes.index_of(hand.progress().actor);
    match step {
        PartStep::Enter | PartStep::Leave | PartStep::Begin | PartStep::End => {
            own_task(step, own, note)
        }
        PartStep::Pause => Task::load(StepKind::Control, Area::Pause, 0, note),
        PartStep::Share => work(StepKind::Share, Area::Lock, 0, 1, note),
        PartStep::Unshare => work(StepKind::Unshare, Area::Lock, 0, 1, note),
        PartStep::Exclude => work(StepKind::Exclude, Area::Lock, 0, WRITER, note),
        PartStep::Release => work(StepKind::Release, Area::Lock, 0, !WRITER, note),
        PartStep::Map(word) => Task::load(StepKind::Control, Area::PoolMap, word, note),
        PartStep::Claim => claim(&topics.claim, note),
        PartStep::Fill(value) => fill(map, topics.owned, value, note),
        PartStep::Role(value) => role(map, topics.owned, value, note),
        PartStep::Give => give(map, topics.owned, note),
        PartStep::Slots => Task::load(StepKind::Control, Area::Slots, 0, note),
        PartStep::Slot => slot(map, &topics.search, note),
        PartStep::Seq => Task::load(StepKind::Control, Area::Seq, 0, note),
        PartStep::Count => Task::load(StepKind::Control, Area::Count, 0, note),
        PartStep::RangeStart => Task::load(StepKind::Control, Area::RangeStart, 0, note),
        PartStep::RangeEnd => Task::load(StepKind::Control, Area::RangeEnd, 0, note),
        PartStep::Root => Task::load(StepKind::Control, Area::Root, 0, note),
        PartStep::Walk(gfn) => walk_task(map, &topics.walk, gfn, note),
        PartStep::Sweep(gfn) => sweep(map, &topics.walk, gfn, note),
        PartStep::WalkAnew(gfn) => walk_anew(map, &topics.walk, gfn, note),
        PartStep::Link(gfn) => enter(map, &topics.walk, gfn, link(topics.owned), note),
        PartStep::Leaf { gfn, write } => enter(
            map,
            &topics.walk,
            gfn,
            leaf(topics, gfn, write),
            note,
        ),
        PartStep::Fix(gfn) => enter(map, &topics.walk, gfn, fixed(topics), note),
        PartStep::Mark => mark(topics, note),
        PartStep::Host(page) => Task::load(StepKind::Host, Area::Host, page, note),
        PartStep::HostOn(page) => work(StepKind::Host, Area::Host, page, 1, note),
        PartStep::Watch(index) => Task::load(StepKind::Watch, Area::State, index, note),
        PartStep::Publish => publish(topics.owned, note),
        PartStep::Clear | PartStep::GiveOld => drop_old(step, map, topics.retired, note),
        PartStep::SetStart { own, gfn } => store_bound(Area::RangeStart, own, gfn, note),
        PartStep::SetEnd { own, gfn } => store_bound(Area::RangeEnd, own, gfn, note),
        PartStep::SetCount(count) => work(StepKind::Set, Area::Count, 0, count, note),
        PartStep::SetSeq(seq) => work(StepKind::Set, Area::Seq, 0, seq, note),
        PartStep::Zap(gfn) => zap(map, &topics.walk, gfn, note),
        PartStep::Ask(index) => work(StepKind::Ask, Area::State, index, REQUEST_BIT, note),
        PartStep::Await(index) => Task::load(StepKind::Await, Area::State, index, note),
        PartStep::Bring => exchange_host(StepKind::Bring, topics, word_brought(topics.host), note),
        PartStep::Change(new) => exchange_host(StepKind::Change, topics, new, note),
        PartStep::ChangeNext => change_next(topics.invalidations.own.pages, note),
        PartStep::FrameMap(word) => Task::load(StepKind::Control, Area::FrameMap, word, note),
        PartStep::Frame => claim_frame(&topics.frames.claim, note),
        PartStep::Copy(index) => Task::load(StepKind::Copy, Area::Content, index, note),
        PartStep::Store(index) => {
            let word = word_held(topics.frames.owned);
            work(StepKind::Fill, Area::Content, index, word, note)
        }
        PartStep::GiveFrame => give_frame(topics.frames.owned, note),
        PartStep::Take { word, mask } => work(StepKind::Take, Area::Log, word, !mask, note),
        PartStep::Protect(gfn) => protect(map, &topics.walk, gfn, note),
        PartStep::Peek(word) => Task::load(StepKind::Peek, Area::Log, word, note),
        PartStep::Arm { word, bits } => work(StepKind::Arm, Area::Log, word, bits, note),
    }
}

/// The step of the part that this hand makes, as the words of the machine see it.
#[inline(always)]
pub fn part_kind(hand: &Hand, step: PartStep, note: u64) -> Kind
    requires rests { PartRests hand.now.core }
    requires needs { PartNeeds step hand.now.core }
    ensures { result ≡ part_kind hand.now.core step note }
{
    kind_of(&hand.progress().sizes, &part_task(hand, step, note))
}
