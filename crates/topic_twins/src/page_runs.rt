//! Runs of host pages that are changed as one (Linux's mmu.rst, "Large pages"): what is seen of
//! pages in a row, which run that tells, which guest frames slots give to it, and how its pages
//! are changed, one after another.
ghost use Rattle.std.specs.Prelude.{◌≡◌, ◌≤◌, ◌<◌, ◌+◌, ◌^◌, ◌==◌, true, Some};
ghost use Rattle.core_views.specs.declared.topics.PageRun.{PageRun};
ghost use Rattle.part_steps.specs.PageRuns.{capped, changed_more, continues_row, covering, has_part, makes_run, is_several, is_single, level_looked, level_put};
ghost use Rattle.part_steps.specs.PageRuns.{looked_on, one_look, page_next, part_end, part_start, run_looked, run_of, run_start, widened};
ghost use Rattle.part_steps.specs.PageRuns.{word_given, word_seen};
ghost use Rattle.part_steps.specs.PartTasks.{page_to_change, word_next};

use core_views::{HostLook, HostRow, PageRun, Slot, SlotSearch};
use spte_words::{HostWord, Spte};

// A frame, as it counts in a host word.
const FRAME: u64 = 1 << 12;

// ---- pages in a row

/// What is seen with a look at one page.
pub fn one_look() -> HostRow
    ensures { result ≡ one_look }
{
    HostRow {
        looked: 1,
        alike: true,
        start: 0,
        end: 0,
    }
}

// Whether the number is so far after the first one.
fn is_further(first: u64, by: u64, number: u64) -> bool
    ensures { result ≡ (number == first + by) }
{
    number >= first && number - first == by
}

// Whether the page comes after those in a row that were looked at, and has the word of this row.
#[tactic(auto, using(spte_words::proofs::Spans::spans))]
fn continues_row(look: HostLook, row: &HostRow, page: u64, found: u64) -> bool
    ensures { result ≡ continues_row look row.now page found }
{
    row.alike
        && HostWord::from_word(look.word).is_present()
        && row.looked < Spte::level_span(3)
        && is_further(look.page, row.looked, page)
        && is_further(look.word, FRAME * row.looked, found)
}

/// What was seen once one more page was looked at, which has this word.
pub fn looked_on(host: Option<HostLook>, row: &HostRow, page: u64, found: u64) -> HostRow
    ensures { result ≡ looked_on host row.now page found }
{
    let Some(look) = host else {
        return *row;
    };
    HostRow {
        looked: if row.looked < Spte::level_span(3) {
            row.looked + 1
        } else {
            row.looked
        },
        alike: continues_row(look, row, page, found),
        start: row.start,
        end: row.end,
    }
}

/// Whether so many present pages were looked at in a row as the run of a level has, and page and
/// frame of the first one are the first of such a run each.
#[tactic(auto, using(spte_words::proofs::Spans::span_positive))]
pub fn makes_run(level: u8, look: HostLook, row: &HostRow) -> bool
    requires from { 1 ≤ level }
    requires to { level ≤ 4 }
    ensures { result ≡ makes_run level look row.now }
{
    let span = Spte::level_span(level);
    let word = HostWord::from_word(look.word);
    row.alike
        && word.is_present()
        && row.looked == span
        && look.page % span == 0
        && word.frame() % span == 0
}

/// The level of the run that may be changed as one.
#[tactic(auto, unfolding(spte_words::specs::HostWords::host_level))]
pub fn level_looked(look: HostLook, row: &HostRow) -> u8
    ensures is { result ≡ level_looked look row.now }
    ensures from { 1 ≤ result }
    ensures to { result ≤ 3 }
{
    let level = HostWord::from_word(look.word).level();
    if level > 1 {
        level
    } else if makes_run(3, look, row) {
        3
    } else if makes_run(2, look, row) {
        2
    } else {
        1
    }
}

// ---- runs

// The run that is this one page.
fn run_of(page: u64) -> PageRun
    ensures { result ≡ run_of page }
{
    PageRun {
        first: page,
        level: 1,
        word: 0,
        changed: 0,
    }
}

/// The run of the page that was looked at, by what was seen of those in a row with it.
pub fn run_looked(look: HostLook, row: &HostRow) -> PageRun
    ensures is { result ≡ run_looked look row.now }
    ensures to { result.level ≤ 3 }
{
    let level = level_looked(look, row);
    if level <= 1 {
        return run_of(look.page);
    }
    PageRun {
        first: look.page,
        level,
        word: look.word,
        changed: 0,
    }
}

// Whether there is a run, of one page.
pub(crate) fn is_single(run: Option<PageRun>) -> bool
    ensures { result ≡ is_single run }
{
    match run {
        Some(run) => run.level <= 1,
        None => false,
    }
}

/// Whether there is one, of several pages.
pub fn is_several(run: Option<PageRun>) -> bool
    ensures { result ≡ is_several run }
{
    match run {
        Some(run) => run.level > 1,
        None => false,
    }
}

// Its first page.
#[tactic(auto, using(spte_words::proofs::Spans::span_positive))]
fn run_start(run: &PageRun) -> u64
    requires from { 1 ≤ run.now.level }
    requires to { run.now.level ≤ 4 }
    ensures { result ≡ run_start run.now }
{
    run.first - run.first % Spte::level_span(run.level)
}

// ---- the guest frames that slots give to its pages

// Whether the slot has one of them.
#[tactic(auto, using(spte_words::proofs::Spans::span_positive))]
fn has_part(run: &PageRun, slot: &Slot) -> bool
    requires from { 1 ≤ run.now.level }
    requires to { run.now.level ≤ 4 }
    ensures { result ≡ has_part run.now slot.now }
{
    let start = run_start(run);
    slot.host.saturating_sub(start) < Spte::level_span(run.level)
        && start.saturating_sub(slot.host) < slot.pages
}

// The first guest frame that the slot gives to one of its pages.
fn part_start(run: &PageRun, slot: &Slot) -> u64
    requires from { 1 ≤ run.now.level }
    requires to { run.now.level ≤ 4 }
    ensures { result ≡ capped (part_start run.now slot.now) }
{
    let before = run_start(run).saturating_sub(slot.host);
    slot.base.saturating_add(before)
}

// The guest frame after the last of these. (The page after the run's last may be no number of 64
// bits: so what is left of the run after the slot's first page is counted without it.)
fn part_end(run: &PageRun, slot: &Slot) -> u64
    requires from { 1 ≤ run.now.level }
    requires to { run.now.level ≤ 4 }
    ensures { result ≡ capped (part_end run.now slot.now) }
{
    let start = run_start(run);
    let left = Spte::level_span(run.level).saturating_sub(slot.host.saturating_sub(start));
    let pages = start.saturating_sub(slot.host).saturating_add(left);
    slot.base.saturating_add(pages.min(slot.pages))
}

// The frames of the run that the search has come across, with these.
fn widen(row: &mut HostRow, start: u64, end: u64)
    ensures { row.new ≡ widened true start end row.old }
{
    row.start = if row.start < row.end {
        row.start.min(start)
    } else {
        start
    };
    row.end = row.end.max(end);
}

// The same, with those of the slot that the search has loaded whole.
pub(crate) fn cover(run: Option<PageRun>, search: &SlotSearch, row: &mut HostRow)
    requires { (r : PageRun) → run ≡ Some r → r.level ≤ 3 }
    ensures { row.new ≡ covering run search.now row.old }
{
    if let Some(run) = &run
        && search.whole
        && run.level > 1
        && has_part(run, &search.slot)
    {
        let start = part_start(run, &search.slot);
        widen(row, start, part_end(run, &search.slot));
    }
}

// ---- its changes

// The level that its pages are given.
fn level_put(run: &PageRun) -> u8
    ensures { result ≡ level_put run.now }
{
    if HostWord::from_word(run.word).level() == 1 {
        run.level
    } else {
        1
    }
}

/// The page of the run that is changed next.
pub fn page_next(run: &PageRun) -> u64
    requires from { 1 ≤ run.now.level }
    requires to { run.now.level ≤ 4 }
    requires small { page_next run.now < 2 ^ 64 }
    ensures { result ≡ page_next run.now }
{
    run_start(run) + run.changed
}

/// The word of this page of the run as it was seen.
pub fn word_seen(run: &PageRun, page: u64) -> u64
    requires first { run.now.first < 2 ^ 32 }
    requires page { page < 2 ^ 32 }
    requires word { run.now.word < 2 ^ 52 }
    ensures { result ≡ word_seen run.now page }
{
    (run.word + FRAME * page).saturating_sub(FRAME * run.first)
}

/// Of the run whose pages are changed, the word of the next one as it was seen; 0 where there is
/// no run.
pub fn word_next(pages: Option<PageRun>) -> u64
    requires run { (run : PageRun) → pages ≡ Some run → (2 ≤ run.level) × (run.level ≤ 3) × (run.first < 2 ^ 32) × (run.word < 2 ^ 52) }
    requires page { page_to_change pages < 2 ^ 32 }
    ensures { result ≡ word_next pages }
{
    match &pages {
        Some(run) => word_seen(run, page_next(run)),
        None => 0,
    }
}

/// The word that is put in its place.
pub fn word_given(run: &PageRun, page: u64) -> u64
    requires first { run.now.first < 2 ^ 32 }
    requires page { page < 2 ^ 32 }
    requires word { run.now.word < 2 ^ 52 }
    requires to { run.now.level ≤ 3 }
    ensures { result ≡ word_given run.now page }
{
    HostWord::from_word(word_seen(run, page))
        .with_level(level_put(run))
        .word()
}

// One more of its pages is changed, where the exchange was won.
pub(crate) fn change_more(won: bool, run: &mut PageRun)
    requires { run.old.changed < 2 ^ 32 }
    ensures { Some run.new ≡ changed_more won (Some run.old) }
{
    if won {
        run.changed += 1;
    }
}
