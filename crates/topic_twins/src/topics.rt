//! What a step changes of what an actor holds of each part of the machine.
ghost use Rattle.std.specs.Prelude.{◌≡◌, ◌≤◌, ◌<◌, ◌^◌, true, Some, is_some, if◌then◌else◌, ◌-◌, ◌==◌, ◌&&◌, ◌||◌, nat_le, nat_lt};
ghost use Rattle.core_views.specs.declared.topics.OwnedPage.{OwnedPage};
ghost use Rattle.core_views.specs.Kinds.{kind_named};
ghost use Rattle.core_views.specs.Sizes.{AreSizes};
ghost use Rattle.core_views.specs.declared.place.SlotField.TheVariants.{Flags};
ghost use Rattle.core_views.specs.declared.kind.StepKind.TheVariants.{Change, Walk, Swap};
ghost use Rattle.core_views.specs.declared.topics.PageRun.{PageRun};
ghost use Rattle.spte_words.specs.Areas.{number_of};
ghost use Rattle.spte_words.specs.Entries.{word_below};
ghost use Rattle.spte_words.specs.declared.area.Area.TheVariants as Area;
ghost use Rattle.part_steps.specs.ControlBits.{frames_begin, is_content, is_frame_map, is_pool_map, map_begins};
ghost use Rattle.part_steps.specs.StayTopics.{begun, let_go, may_search, may_walk};
ghost use Rattle.part_steps.specs.WalkTopics.{gone_down, is_in_table, owed_after, still_owned, swapped, walked};
ghost use Rattle.part_steps.specs.PageTopics.{claimed, filled_more, is_won, published, searched, tried, tried_bit};
ghost use Rattle.part_steps.specs.ControlTopics.{at_word, checked_after, controlled, count_checked, end_known, noted, range_checked, seq_checked};
ghost use Rattle.part_steps.specs.ControlTopics.{start_checked, start_known, stored, takes_snapshot};
ghost use Rattle.part_steps.specs.InvalidationRange.{run_aimed, run_searched};
ghost use Rattle.part_steps.specs.PageRuns.{covering, looked_on};
ghost use Rattle.part_steps.specs.SweepTopics.{walk_on};
ghost use Rattle.part_steps.specs.TopicSteps.{HasRoom, host_begins, host_changed, host_looked, index_in_page, log_begins, run_changed, topics_after};

use crate::control_words::{has_lock, has_to_flush, has_writer, in_section, is_word_of};
use crate::frames::{claim_frame, copy_word, give_frame, move_frame, store_word};
use crate::invalidations::run_aimed;
use crate::page_runs::{change_more, cover, is_several, looked_on, one_look};
use crate::sweep::{begin_anew, go_up, is_sweeping, walks_anew};
use core_views::{
    Checked, Flush, Hold, HostLook, Invalidations, Kind, MapClaim, OwnedPage, PageRun, Sizes,
    SlotField, SlotSearch, Stay, StepKind, TableWalk, Topics,
};
use part_steps::map_of;
use spte_words::{Area, ENTRIES, HostWord, SlotFlags, Spte, SpteKind};

fn may_walk(stay: Stay, hold: Hold) -> bool
    ensures { result ≡ may_walk stay hold }
{
    stay != Stay::Outside || has_lock(hold)
}

fn may_search(stay: Stay, hold: Hold) -> bool
    ensures { result ≡ may_search stay hold }
{
    stay == Stay::Section || hold == Hold::Exclusive
}

/// The actor is there from now on, and has nothing of tables, slots and look-ups.
pub fn begin_stay(topics: &mut Topics, stay: Stay)
    ensures { topics.new ≡ begun stay topics.old }
{
    topics.stay = stay;
    topics.walk.level = 0;
    topics.search.set = None;
    topics.search.whole = false;
    topics.host = None;
    topics.invalidations.snapshot = None;
    topics.invalidations.checked = Checked::Nothing;
}

// What is held without the lock.
fn let_go(topics: &mut Topics)
    ensures { topics.new ≡ let_go topics.old }
{
    topics.hold = Hold::Loose;
    topics.invalidations.checked = Checked::Nothing;
    if topics.stay == Stay::Outside {
        topics.walk.level = 0;
    }
    if topics.stay != Stay::Section {
        topics.search.set = None;
        topics.search.whole = false;
    }
}

// The walk goes down to the table in this page, by the entry at an index.
fn go_down(walk: &mut TableWalk, page: u64, index: u64, entry: u64)
    requires room { walk.old.prefix < 2 ^ 36 }
    requires index { index < 512 }
    ensures { walk.new ≡ gone_down (Some page) walk.old index entry }
{
    match walk.level {
        4 => walk.third = page,
        3 => walk.second = page,
        2 => walk.first = page,
        _ => {}
    }
    walk.level = walk.level.saturating_sub(1);
    walk.prefix = walk.prefix * ENTRIES + index;
    walk.index = ENTRIES;
    walk.entry = entry;
}

// The entry at an index was loaded: the walk goes down where it is a link.
pub(crate) fn walk(walk: &mut TableWalk, index: u64, found: u64)
    requires room { walk.old.prefix < 2 ^ 36 }
    requires index { index < 512 }
    ensures { walk.new ≡ walked walk.old index found }
{
    match Spte::from_word(found).kind(walk.level) {
        SpteKind::Table(page) => go_down(walk, page as u64, index, found),
        _ => {
            walk.index = index;
            walk.entry = found;
        }
    }
}

// The entry at an index was to be exchanged: where that was won, the walk goes
// down if the new one is a link.
fn swap_entry(at: &mut TableWalk, won: bool, index: u64, new: u64, found: u64)
    requires room { at.old.prefix < 2 ^ 36 }
    requires index { index < 512 }
    ensures { at.new ≡ swapped won at.old index new found }
{
    if won {
        walk(at, index, new);
    } else {
        at.index = index;
        at.entry = found;
    }
}

// Who owns a page that it has linked owns it no more.
fn keep_owned(owned: &mut Option<OwnedPage>, at: &TableWalk, won: bool, new: u64)
    ensures { owned.new ≡ still_owned won at.now new owned.old }
{
    if won && let SpteKind::Table(_) = Spte::from_word(new).kind(at.level) {
        *owned = None;
    }
}

// Where in its page a word of the pool stands.
fn index_in_page(sizes: &Sizes, word: u32) -> u64
    requires { AreSizes sizes.now }
    ensures is { result ≡ index_in_page sizes.now word }
    ensures below { result < 512 }
{
    word.saturating_sub(map_of(sizes).word_of(Area::Pool, 0)) as u64 % ENTRIES
}

// The walk from which the next entry is loaded.
fn walk_on(topics: &Topics) -> TableWalk
    ensures is { result ≡ walk_on topics.now }
    ensures less { result.prefix ≤ topics.now.walk.prefix }
{
    let mut at = topics.walk;
    if is_sweeping(topics) {
        go_up(&mut at);
    } else if walks_anew(topics) {
        begin_anew(&mut at);
    }
    at
}

// An entry was loaded, where the walk has come to a table.
fn load_entry(sizes: &Sizes, kind: Kind, topics: &mut Topics, found: u64)
    requires sizes { AreSizes sizes.now }
    requires named { kind_named kind.code ≡ Walk }
    requires room { HasRoom Walk topics.old }
    ensures { topics.new ≡ topics_after sizes.now kind topics.old found }
{
    if topics.walk.level >= 1 {
        let mut at = walk_on(topics);
        walk(&mut at, index_in_page(sizes, kind.word), found);
        topics.walk = at;
    }
}

// A mark is owed where a leaf that allows writes was put, in a slot with a dirty log.
fn owe_mark(owed: &mut Option<u64>, at: &TableWalk, won: bool, logged: bool, index: u64, new: u64)
    requires room { at.now.prefix < 2 ^ 36 }
    requires index { index < 512 }
    ensures { owed.new ≡ owed_after won logged at.now index new owed.old }
{
    if won && at.level == 1 && logged && Spte::from_word(new).is_writable() {
        *owed = Some(at.prefix * ENTRIES + index);
    }
}

// An entry was exchanged, where the walk has come to a table.
fn exchange_entry(sizes: &Sizes, kind: Kind, topics: &mut Topics, found: u64)
    requires sizes { AreSizes sizes.now }
    requires named { kind_named kind.code ≡ Swap }
    requires room { HasRoom Swap topics.old }
    ensures { topics.new ≡ topics_after sizes.now kind topics.old found }
{
    if topics.walk.level >= 1 {
        let won = found == kind.old;
        keep_owned(&mut topics.owned, &topics.walk, won, kind.new);
        let index = index_in_page(sizes, kind.word);
        let logged = topics.search.logged;
        owe_mark(&mut topics.owed, &topics.walk, won, logged, index, kind.new);
        swap_entry(&mut topics.walk, won, index, kind.new, found);
    }
}

/// A search goes on to its next word.
pub fn search(search: &mut SlotSearch, found: u64)
    requires { search.old.id ≤ 31 }
    ensures { search.new ≡ searched search.old found }
{
    match search.next {
        SlotField::Flags => {
            let flags = SlotFlags::from_word(found);
            search.slot.read_only = flags.is_read_only();
            search.logged = flags.is_logged();
            search.whole = false;
            if flags.is_live() {
                search.next = SlotField::Base;
            } else {
                search.id += 1;
            }
        }
        SlotField::Base => {
            search.slot.base = found;
            search.next = SlotField::Pages;
        }
        SlotField::Pages => {
            search.slot.pages = found;
            search.next = SlotField::Host;
        }
        SlotField::Host => {
            search.slot.host = found;
            search.next = SlotField::Flags;
            search.id += 1;
            search.whole = true;
        }
    }
}

/// The bit that a claim tries: the lowest of those seen.
pub fn tried_bit(claim: &MapClaim) -> u32
    requires { 0 < claim.now.seen }
    ensures is { result ≡ tried_bit claim.now }
    ensures below { result < 64 }
{
    claim.seen.trailing_zeros()
}

/// Whether a claim is won, which found this word: the bit that it tried was still
/// there.
pub fn is_won(claim: &MapClaim, found: u64) -> bool
    requires { 0 < claim.now.seen }
    ensures { result ≡ is_won claim.now found }
{
    (found >> tried_bit(claim)) % 2 == 1
}

// A claim has tried for a bit, and found this word: its page is to be filled for the entry that
// the walk has loaded.
fn claim(walk: &TableWalk, claim: &mut MapClaim, found: u64) -> Option<OwnedPage>
    requires seen { 0 < claim.old.seen }
    requires at { claim.old.at < 2 ^ 32 }
    ensures owned { result ≡ claimed walk.now claim.old found }
    ensures claim { claim.new ≡ tried claim.old found }
{
    if is_won(claim, found) {
        let page = 64 * claim.at + tried_bit(claim) as u64;
        *claim = MapClaim { at: 0, seen: 0 };
        Some(OwnedPage {
            page,
            filled: 0,
            entry: walk.entry,
            level: walk.level,
            below: true,
            role: 0,
        })
    } else {
        claim.seen = found;
        None
    }
}

// Whether the word is what is to stand at the next place of the page, in a table that is linked
// in place of the entry for which it was claimed.
fn is_next_below(page: &OwnedPage, word: u64) -> bool
    ensures { result ≡ (nat_le 512 page.now.filled || word == word_below page.now.level page.now.entry page.now.filled) }
{
    if page.filled >= ENTRIES {
        return true;
    }
    let below = Spte::from_word(page.entry).below(page.level, page.filled as u32);
    word == below.word()
}

// One more word of an owned page is filled.
fn fill(owned: &mut Option<OwnedPage>, found: u64)
    requires { (o : OwnedPage) → owned.old ≡ Some o → o.filled < 513 }
    ensures { owned.new ≡ filled_more owned.old found }
{
    if let Some(page) = owned {
        page.below = page.below && is_next_below(page, found);
        if page.filled == ENTRIES {
            page.role = found;
        }
        page.filled += 1;
    }
}

// A slot set was published in place of the one in this page.
fn publish(topics: &mut Topics, page: u64)
    ensures { topics.new ≡ published topics.old page }
{
    topics.search.set = None;
    topics.search.whole = false;
    topics.owned = None;
    topics.retired = Some(page);
    topics.watched = 0;
}

// How far the check has come after a load of the count, of the range's start, of
// its end, and of the sequence number.
fn count_checked(hold: Hold) -> Checked
    ensures { result ≡ count_checked hold }
{
    if has_lock(hold) {
        Checked::Count
    } else {
        Checked::Nothing
    }
}

fn start_checked(checked: Checked) -> Checked
    ensures { result ≡ start_checked checked }
{
    match checked {
        Checked::Count => Checked::Start,
        _ => Checked::Nothing,
    }
}

fn range_checked(checked: Checked) -> Checked
    ensures { result ≡ range_checked checked }
{
    match checked {
        Checked::Start => Checked::Range,
        _ => Checked::Nothing,
    }
}

fn seq_checked(locked: bool, count: u64, checked: Checked) -> Checked
    ensures { result ≡ seq_checked locked count checked }
{
    match checked {
        Checked::Count if count == 0 => Checked::All,
        Checked::Range => Checked::All,
        Checked::Nothing if locked => Checked::Seq,
        _ => Checked::Nothing,
    }
}

// How far the check has come after the load of a word of control.
fn checked_after(word: u32, hold: Hold, invalidations: &Invalidations) -> Checked
    ensures { result ≡ checked_after word hold invalidations.now }
{
    if is_word_of(Area::Count, word) {
        count_checked(hold)
    } else if is_word_of(Area::RangeStart, word) {
        start_checked(invalidations.checked)
    } else if is_word_of(Area::RangeEnd, word) {
        range_checked(invalidations.checked)
    } else if is_word_of(Area::Seq, word) {
        seq_checked(has_lock(hold), invalidations.count, invalidations.checked)
    } else {
        invalidations.checked
    }
}

// A word of the invalidations was loaded.
fn note(word: u32, hold: Hold, invalidations: &mut Invalidations, found: u64)
    ensures { invalidations.new ≡ noted word hold invalidations.old found }
{
    invalidations.checked = checked_after(word, hold, invalidations);
    if is_word_of(Area::Seq, word) {
        if hold == Hold::Loose {
            invalidations.snapshot = Some(found);
        } else {
            invalidations.seq = found;
        }
    } else if is_word_of(Area::Count, word) {
        invalidations.count = found;
    } else if is_word_of(Area::RangeStart, word) {
        invalidations.start = found;
    } else if is_word_of(Area::RangeEnd, word) {
        invalidations.end = found;
    }
}

// What is known of the words after the range's start was stored, and its end.
fn start_known(checked: Checked) -> Checked
    ensures { result ≡ start_known checked }
{
    match checked {
        Checked::Count => Checked::Start,
        other => other,
    }
}

fn end_known(checked: Checked) -> Checked
    ensures { result ≡ end_known checked }
{
    match checked {
        Checked::Start => Checked::Range,
        other => other,
    }
}

// A word of the invalidations was stored, with this end of the own one, which is of this run of
// host pages, if it is of one.
fn store(word: u32, own: u64, run: Option<PageRun>, invalidations: &mut Invalidations, written: u64)
    ensures { invalidations.new ≡ stored word own run invalidations.old written }
{
    if is_word_of(Area::Count, word) {
        invalidations.opened = invalidations.count < written;
        invalidations.count = written;
        invalidations.checked = Checked::Nothing;
        invalidations.raised = false;
    } else if is_word_of(Area::RangeStart, word) {
        invalidations.start = written;
        invalidations.checked = start_known(invalidations.checked);
        invalidations.own.pages = run;
        invalidations.own.start = own;
    } else if is_word_of(Area::RangeEnd, word) {
        invalidations.end = written;
        invalidations.checked = end_known(invalidations.checked);
        invalidations.own.end = own;
    } else if is_word_of(Area::Seq, word) {
        invalidations.seq = written;
        invalidations.checked = Checked::Nothing;
        invalidations.raised = true;
    }
}

// A leaf was zapped, or writes were forbidden there: this entry stands there now.
fn leave_entry(sizes: &Sizes, word: u32, walk: &mut TableWalk, entry: u64)
    requires { AreSizes sizes.now }
    ensures { walk.new ≡ (if is_in_table walk.old then gone_down None walk.old (index_in_page sizes.now word) entry else walk.old) }
{
    if walk.level >= 1 {
        walk.index = index_in_page(sizes, word);
        walk.entry = entry;
    }
}

// The place of the actor whose state word this is.
fn state_index(word: u32) -> u64
    ensures is { result ≡ word - number_of Area.State }
    ensures below { result < 2 ^ 32 }
{
    word.saturating_sub(Area::State.number()) as u64
}

// Which word of the dirty log this one is.
fn log_index(sizes: &Sizes, word: u32) -> u64
    requires { AreSizes sizes.now }
    ensures is { result ≡ word - log_begins sizes.now }
    ensures below { result < 2 ^ 32 }
{
    word.saturating_sub(map_of(sizes).word_of(Area::Log, 0)) as u64
}

// The page of a host word.
fn host_page(sizes: &Sizes, word: u32) -> u64
    requires { AreSizes sizes.now }
    ensures { result ≡ word - host_begins sizes.now }
{
    word.saturating_sub(map_of(sizes).word_of(Area::Host, 0)) as u64
}

// A host word was to be exchanged.
fn exchange_host(sizes: &Sizes, kind: Kind, found: u64) -> HostLook
    requires { AreSizes sizes.now }
    ensures { result ≡ record { page = kind.word - host_begins sizes.now; word = if found == kind.old then kind.new else found } }
{
    HostLook {
        page: host_page(sizes, kind.word),
        word: if found == kind.old { kind.new } else { found },
    }
}

// A word was loaded, which is one of a map from this place up to the other one, if it is.
fn look_at_map(begins: u32, ends: u32, word: u32, claim: &mut MapClaim, found: u64)
    ensures { claim.new ≡ at_word (nat_le begins word && nat_lt word ends) begins word claim.old found }
{
    if word >= begins && word < ends {
        claim.at = (word - begins) as u64 + if found == 0 { 1 } else { 0 };
        claim.seen = found;
    }
}

// A word was loaded, which is one of the pool's map or of the map of frames, if it is. The lone
// words of the machine's control stand before both.
#[inline(always)]
fn look_at_maps(sizes: &Sizes, word: u32, topics: &mut Topics, found: u64)
    requires { AreSizes sizes.now }
    ensures { topics.new ≡ record topics.old {
      claim = at_word (is_pool_map sizes.now word) (map_begins sizes.now) word topics.old.claim found;
      frames = record topics.old.frames { claim = at_word (is_frame_map sizes.now word) (frames_begin sizes.now) word topics.old.frames.claim found };
    } }
{
    if word < Area::State.number() {
        return;
    }
    let map = map_of(sizes);
    let pool_map = map.word_of(Area::PoolMap, 0);
    let frame_map = map.word_of(Area::FrameMap, 0);
    let log = map.word_of(Area::Log, 0);
    look_at_map(pool_map, frame_map, word, &mut topics.claim, found);
    look_at_map(frame_map, log, word, &mut topics.frames.claim, found);
}

// The load takes the snapshot of a look-up.
fn takes_snapshot(word: u32, hold: Hold) -> bool
    ensures { result ≡ takes_snapshot word hold }
{
    is_word_of(Area::Seq, word) && hold == Hold::Loose
}

// A word of the machine's control was loaded.
fn control(sizes: &Sizes, word: u32, topics: &mut Topics, found: u64)
    requires { AreSizes sizes.now }
    ensures { topics.new ≡ controlled sizes.now word topics.old found }
{
    if takes_snapshot(word, topics.hold) {
        topics.search.set = None;
        topics.search.whole = false;
        topics.host = None;
    }
    if is_word_of(Area::Root, word) {
        topics.walk.level = if may_walk(topics.stay, topics.hold) {
            4
        } else {
            0
        };
        topics.walk.prefix = 0;
        topics.walk.root = found;
        topics.walk.index = ENTRIES;
    }
    if is_word_of(Area::Slots, word) {
        let held = may_search(topics.stay, topics.hold);
        topics.search.set = if held { Some(found) } else { None };
        topics.search.id = 0;
        topics.search.next = SlotField::Flags;
        topics.search.whole = false;
        topics.row.start = 0;
        topics.row.end = 0;
    }
    if is_word_of(Area::Pause, word) {
        topics.pause = found;
    }
    note(word, topics.hold, &mut topics.invalidations, found);
    look_at_maps(sizes, word, topics, found);
}

// Whether the word is one of a frame.
fn is_content(sizes: &Sizes, word: u32) -> bool
    requires { AreSizes sizes.now }
    ensures { result ≡ is_content sizes.now word }
{
    word >= map_of(sizes).word_of(Area::Content, 0)
}

// A host page was looked at after those in a row with it. (Few steps are of such a page: kept out
// of the way of the others.)
#[inline(never)]
fn look_on(sizes: &Sizes, word: u32, topics: &mut Topics, found: u64)
    requires { AreSizes sizes.now }
    ensures { topics.new ≡ record topics.old { row = looked_on topics.old.host topics.old.row (word - host_begins sizes.now) found } }
{
    topics.row = looked_on(topics.host, &topics.row, host_page(sizes, word), found);
}

// A host page was looked at: for itself, or after those in a row with it.
fn look_at_host(sizes: &Sizes, kind: Kind, topics: &mut Topics, found: u64)
    requires { AreSizes sizes.now }
    ensures { topics.new ≡ host_looked sizes.now kind topics.old found }
{
    if kind.new != 0 {
        look_on(sizes, kind.word, topics, found);
        return;
    }
    topics.host = Some(HostLook {
        page: host_page(sizes, kind.word),
        word: found,
    });
    topics.row = one_look();
}

// Who searches the slots under the lock alone collects the guest frames of the run that it aims
// at. (Few searches are such: kept out of the way of the others.)
#[inline(never)]
fn cover_aimed(topics: &mut Topics)
    ensures { topics.new ≡ record topics.old { row = covering (run_aimed topics.old) topics.old.search topics.old.row } }
{
    let run = run_aimed(topics);
    cover(run, &topics.search, &mut topics.row);
}

// The next word of a search was loaded.
#[inline(always)]
fn load_slot(topics: &mut Topics, found: u64)
    requires { topics.old.search.id ≤ 31 }
    ensures search { topics.new.search ≡ searched topics.old.search found }
    ensures all { topics.new ≡ record topics.old { search = topics.new.search; row = covering (run_searched topics.old) topics.new.search topics.old.row } }
{
    search(&mut topics.search, found);
    if topics.hold == Hold::Exclusive {
        cover_aimed(topics);
    }
}

// The word of a page of the run that the own invalidation is of was to be exchanged.
fn change_run(won: bool, topics: &mut Topics)
    requires { (run : PageRun) → topics.old.invalidations.own.pages ≡ Some run → run.changed < 2 ^ 32 }
    ensures { topics.new ≡ run_changed won topics.old }
{
    topics.host = None;
    if let Some(run) = &mut topics.invalidations.own.pages {
        change_more(won, run);
    }
}

// A host word was to be exchanged by a line that changes the page.
fn change_host(sizes: &Sizes, kind: Kind, topics: &mut Topics, found: u64)
    requires sizes { AreSizes sizes.now }
    requires room { HasRoom Change topics.old }
    ensures { topics.new ≡ host_changed sizes.now kind topics.old found }
{
    if is_several(topics.invalidations.own.pages) {
        change_run(found == kind.old, topics);
        return;
    }
    topics.host = Some(exchange_host(sizes, kind, found));
    topics.row = one_look();
    topics.watched = 0;
    let old = HostWord::from_word(kind.old).frame();
    move_frame(found == kind.old, old, &mut topics.frames.owned);
}

/// What the actor holds after a step, which answered `found`.
#[inline(always)]
#[tactic(auto, unfolding(part_steps::specs::TopicSteps::topics_after))]
pub fn step_topics(sizes: &Sizes, kind: Kind, topics: &mut Topics, found: u64)
    requires sizes { AreSizes sizes.now }
    requires room { HasRoom (kind_named kind.code) topics.old }
    ensures { topics.new ≡ topics_after sizes.now kind topics.old found }
{
    match kind.named() {
        StepKind::Enter => begin_stay(topics, Stay::Guest),
        StepKind::Leave | StepKind::End => begin_stay(topics, Stay::Outside),
        StepKind::Begin => begin_stay(topics, Stay::Section),
        StepKind::Walk => load_entry(sizes, kind, topics, found),
        StepKind::Swap => exchange_entry(sizes, kind, topics, found),
        StepKind::Mark => topics.owed = None,
        StepKind::Control => control(sizes, kind.word, topics, found),
        StepKind::Slot => {
            if topics.search.set.is_some() {
                load_slot(topics, found);
            }
        }
        StepKind::Host => look_at_host(sizes, kind, topics, found),
        StepKind::Share => {
            topics.invalidations.checked = Checked::Nothing;
            topics.hold = if has_writer(found) {
                Hold::Owing(found)
            } else {
                Hold::Shared
            };
        }
        StepKind::Unshare | StepKind::Release => let_go(topics),
        StepKind::Exclude => {
            topics.invalidations.checked = Checked::Nothing;
            if found == 0 {
                topics.hold = Hold::Exclusive;
                if !topics.invalidations.opened {
                    topics.flush = Flush {
                        asked: 0,
                        awaited: 0,
                    };
                }
            }
        }
        StepKind::Claim => topics.owned = claim(&topics.walk, &mut topics.claim, found),
        StepKind::Fill if is_content(sizes, kind.word) => store_word(&mut topics.frames.owned),
        StepKind::Fill => fill(&mut topics.owned, found),
        StepKind::Give => {
            if topics.owned.is_none() {
                topics.retired = None;
            }
            topics.owned = None;
            topics.claim.seen = 0;
        }
        StepKind::Publish => publish(topics, found),
        StepKind::Set => {
            let run = run_aimed(topics);
            store(kind.word, kind.old, run, &mut topics.invalidations, found);
        }
        StepKind::Zap => leave_entry(sizes, kind.word, &mut topics.walk, 0),
        StepKind::Protect => {
            let left = Spte::from_word(topics.walk.entry).without_write().word();
            leave_entry(sizes, kind.word, &mut topics.walk, left);
        }
        StepKind::Ask => topics.flush.asked = state_index(kind.word) + 1,
        StepKind::Await => {
            topics.flush.awaited = state_index(kind.word) + if has_to_flush(found) { 0 } else { 1 };
        }
        StepKind::Bring => {
            topics.host = Some(exchange_host(sizes, kind, found));
            topics.row = one_look();
        }
        StepKind::Change => change_host(sizes, kind, topics, found),
        StepKind::Copy => copy_word(&mut topics.frames.owned, found),
        StepKind::Frame => {
            topics.frames.owned = claim_frame(&mut topics.frames.claim, found);
        }
        StepKind::Unframe => give_frame(&mut topics.frames),
        StepKind::Watch => {
            topics.watched = state_index(kind.word) + if in_section(found) { 0 } else { 1 };
        }
        StepKind::Read | StepKind::Write | StepKind::Add => {}
        StepKind::Take | StepKind::Peek | StepKind::Arm => {
            topics.next_log_word = log_index(sizes, kind.word) + 1;
        }
    }
}
