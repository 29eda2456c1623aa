//! The steps of a line that maps a run of host pages as one large page, or the pages of one by
//! themselves (Linux's mmu.rst, "Large pages").
ghost use Rattle.std.specs.Prelude.{◌≡◌, ◌≤◌, ◌<◌, ◌^◌, Some, true};
ghost use Rattle.core_views.specs.HostRuns.{owns_run, run_count, run_first};
ghost use Rattle.core_views.specs.Sizes.{AreSizes};
ghost use Rattle.core_views.specs.Traces.{IsRunChange};
ghost use Rattle.core_views.specs.declared.place.HostRunPlace.TheVariants.{Look};
ghost use Rattle.core_views.specs.declared.topics.PageRun.{PageRun};
ghost use Rattle.mmu_core.specs.forms.host.HostSteps.{entry_of, maps_large};
ghost use Rattle.mmu_core.specs.forms.host_run.HostRunSteps.{after_next_look, after_page, after_run_begin, after_run_change, after_run_end, after_run_look};
ghost use Rattle.mmu_core.specs.forms.host_run.HostRunSteps.{as_it_is, fits, host_run_note, host_run_outcome, host_run_part, other_page, page_after};
ghost use Rattle.mmu_core.specs.forms.host_run.HostRunSteps.{run_target, wants_small};
ghost use Rattle.part_steps.specs.InvalidationHoldings.{MayChangeNext};
ghost use Rattle.part_steps.specs.InvalidationRange.{IsSmall};
ghost use Rattle.part_steps.specs.PageRuns.{is_several};
ghost use Rattle.part_steps.specs.PartBounds.{PartRests};
ghost use Rattle.part_steps.specs.PartSteps.{PartNeeds};

use core_views::{
    Answer, BeginPlace, EndPlace, HostLook, HostRow, HostRunPlace, PageRun, Place, Progress,
    Refusal, RunChange, Topics, run_pages,
};
use mmu_core::{BeginNext, EndNext, Outcome};
use order_twins::{begin_next, begin_part, end_next, end_part};
use part_steps::{PartStep, Target};
use part_twins::{
    Hand, is_several, level_looked, looked_on, makes_run, one_look, run_looked, word_looked,
    word_next,
};
use spte_words::{HostWord, Spte};

// ---- the pages of the run

// Whether the pages that the line names are the actor's own.
#[tactic(auto, using(mmu_core::proofs::forms::host::HostNeeds::own_low))]
fn owns_run(progress: &Progress, page: u64, change: RunChange) -> bool
    requires { AreSizes progress.now.sizes }
    ensures { result ≡ owns_run progress.now.sizes progress.now.actor page change }
{
    progress.owns(page)
        && match change {
            RunChange::Huge(level) => progress.owns(page + (run_pages(level) - 1)),
            RunChange::Small => true,
        }
}

// The first page that the line sets, where the host word of its own page is this one.
fn run_first(change: RunChange, page: u64, word: u64) -> u64
    ensures { result ≡ run_first change page (entry_of word) }
{
    match change {
        RunChange::Huge(_) => page,
        RunChange::Small => {
            let pages = run_pages(HostWord::from_word(word).level());
            page / pages * pages
        }
    }
}

// How many pages it sets.
fn run_count(change: RunChange, word: u64) -> u64
    ensures { result ≡ run_count change (entry_of word) }
{
    run_pages(match change {
        RunChange::Huge(level) => level,
        RunChange::Small => HostWord::from_word(word).level(),
    })
}

// ---- the looks

// The page that is looked at next, where so many were: the line's own page was the first.
fn other_page(first: u64, page: u64, looked: u64) -> u64
    requires { other_page first page looked < 2 ^ 64 }
    ensures { result ≡ other_page first page looked }
{
    let before = first + looked.saturating_sub(1);
    if before < page {
        before
    } else {
        first + looked
    }
}

// The same, by what was seen of the line's own page.
fn page_after(page: u64, change: RunChange, topics: &Topics) -> u64
    requires { page_after page change topics.now < 2 ^ 64 }
    ensures { result ≡ page_after page change topics.now }
{
    let first = run_first(change, page, word_looked(topics.host));
    other_page(first, page, topics.row.looked)
}

// A run is made large of small pages alone.
fn wants_small(change: RunChange) -> bool
    ensures { result ≡ wants_small change }
{
    matches!(change, RunChange::Huge(_))
}

// Whether the word maps its page as part of a large one.
fn maps_large(word: u64) -> bool
    ensures { result ≡ maps_large word }
{
    HostWord::from_word(word).level() > 1
}

// Whether its pages may be mapped so, by what was seen of them.
fn fits(change: RunChange, look: HostLook, row: &HostRow) -> bool
    requires { IsRunChange change }
    ensures { result ≡ fits change look row.now }
{
    match change {
        RunChange::Huge(level) => makes_run(level, look, row),
        RunChange::Small => true,
    }
}

// After a look that found this word, where the line's own page was seen so, and so much of the
// run.
fn after_look(change: RunChange, look: HostLook, row: &HostRow, found: u64) -> Outcome
    requires { IsRunChange change }
    ensures { result ≡ after_run_look change look row.now found }
{
    if wants_small(change) && maps_large(found) {
        Outcome::Ends(Answer::Refused(Refusal::IsHuge))
    } else if row.looked < run_count(change, look.word) {
        Outcome::Goes(Place::HostRun(HostRunPlace::LookOn))
    } else if fits(change, look, row) {
        Outcome::Goes(Place::HostRun(HostRunPlace::Begin(BeginPlace::Exclude)))
    } else {
        Outcome::Ends(Answer::Refused(Refusal::NotAligned))
    }
}

// After the look at a further page.
fn after_next_look(page: u64, change: RunChange, topics: &Topics, found: u64) -> Outcome
    requires change { IsRunChange change }
    requires page { page_after page change topics.now < 2 ^ 64 }
    ensures { result ≡ after_next_look change topics.now.host topics.now.row (page_after page change topics.now) found }
{
    let Some(look) = topics.host else {
        return Outcome::Ends(Answer::Refused(Refusal::OutOfRange));
    };
    let next = page_after(page, change, topics);
    let row = looked_on(Some(look), &topics.row, next, found);
    after_look(change, look, &row, found)
}

// ---- the invalidation, and the changes

// What the invalidation is of: the page that was looked at, or the run of several.
fn run_target(page: u64, topics: &Topics) -> Target
    ensures is { result ≡ run_target page topics.now }
    ensures small { IsSmall result }
{
    match topics.host {
        Some(look) if level_looked(look, &topics.row) > 1 => {
            Target::Run(run_looked(look, &topics.row))
        }
        _ => Target::Page(page),
    }
}

// The word that a small page has once it is mapped by itself.
fn as_it_is(word: u64) -> u64
    ensures { result ≡ as_it_is word }
{
    let word = HostWord::from_word(word);
    word.with_writes(word.is_writable()).word()
}

// After the change of a page of a run: the next one's, or the end.
#[tactic(auto, using(spte_words::proofs::Spans::span_positive))]
fn after_page(pages: Option<PageRun>) -> HostRunPlace
    requires { (run : PageRun) → pages ≡ Some run → (2 ≤ run.level) × (run.level ≤ 3) }
    ensures { result ≡ after_page pages }
{
    match &pages {
        Some(run) if run.changed < Spte::level_span(run.level) - 1 => HostRunPlace::Change,
        _ => HostRunPlace::End(EndPlace::Exclude),
    }
}

// After the exchange of a page's word.
fn after_change(hand: &Hand, found: u64) -> HostRunPlace
    requires rests { PartRests hand.now.core }
    requires needs { is_several hand.now.core.topics.invalidations.own.pages ≡ true → MayChangeNext hand.now.core }
    ensures { result ≡ after_run_change hand.now.core.topics found }
{
    let topics = hand.topics();
    let pages = topics.invalidations.own.pages;
    if is_several(pages) {
        if found == word_next(pages) {
            after_page(pages)
        } else {
            HostRunPlace::Change
        }
    } else if found == word_looked(topics.host) {
        HostRunPlace::End(EndPlace::Exclude)
    } else {
        HostRunPlace::Change
    }
}

// After a step of the invalidation's begin.
fn after_begin(next: BeginNext) -> HostRunPlace
    ensures { result ≡ after_run_begin next }
{
    match next {
        BeginNext::Goes(place) => HostRunPlace::Begin(place),
        BeginNext::Begun => HostRunPlace::Change,
    }
}

// After a step of its end.
fn after_end(next: EndNext) -> Outcome
    ensures { result ≡ after_run_end next }
{
    match next {
        EndNext::Goes(place) => Outcome::Goes(Place::HostRun(HostRunPlace::End(place))),
        EndNext::Ended => Outcome::Ends(Answer::Done),
    }
}

// ---- the order

/// The step of this place, for a line that changes the run at the page.
pub fn part(place: HostRunPlace, page: u64, change: RunChange, hand: &Hand) -> PartStep
    requires part { PartRests hand.now.core }
    requires needs { PartNeeds (host_run_part place page change hand.now.core) hand.now.core }
    ensures { result ≡ host_run_part place page change hand.now.core }
{
    let topics = hand.topics();
    match place {
        HostRunPlace::Look if owns_run(hand.progress(), page, change) => PartStep::Host(page),
        HostRunPlace::Look => PartStep::Seq,
        HostRunPlace::LookOn => PartStep::HostOn(page_after(page, change, topics)),
        HostRunPlace::Begin(place) => begin_part(place, &run_target(page, topics), topics),
        HostRunPlace::Change if is_several(topics.invalidations.own.pages) => PartStep::ChangeNext,
        HostRunPlace::Change => PartStep::Change(as_it_is(word_looked(topics.host))),
        HostRunPlace::End(place) => end_part(place, topics),
    }
}

/// 1 where the line may end with the step of this place, else 0.
pub fn note(place: HostRunPlace, change: RunChange) -> u64
    ensures { result ≡ host_run_note place change }
{
    let may_end = match place {
        HostRunPlace::Look | HostRunPlace::End(EndPlace::Release) => true,
        HostRunPlace::LookOn => wants_small(change),
        _ => false,
    };
    if may_end { 1 } else { 0 }
}

// After the look at the line's own page, which found this word; or the line is refused, where the
// run isn't the actor's own.
fn after_own_look(page: u64, change: RunChange, hand: &Hand, found: u64) -> Outcome
    requires change { IsRunChange change }
    requires rests { PartRests hand.now.core }
    ensures { result ≡ host_run_outcome Look page change hand.now.core found }
{
    if owns_run(hand.progress(), page, change) {
        let look = HostLook { page, word: found };
        after_look(change, look, &one_look(), found)
    } else {
        Outcome::Ends(Answer::Refused(Refusal::OutOfRange))
    }
}

/// Where the line stands after the step of this place, which answered `found`.
pub fn outcome(
    place: HostRunPlace,
    page: u64,
    change: RunChange,
    hand: &Hand,
    found: u64,
) -> Outcome
    requires change { IsRunChange change }
    requires rests { PartRests hand.now.core }
    requires needs { PartNeeds (host_run_part place page change hand.now.core) hand.now.core }
    ensures { result ≡ host_run_outcome place page change hand.now.core found }
{
    let topics = hand.topics();
    let next = match place {
        HostRunPlace::Look => return after_own_look(page, change, hand, found),
        HostRunPlace::LookOn => return after_next_look(page, change, topics, found),
        HostRunPlace::Begin(place) => {
            let sizes = &hand.progress().sizes;
            let target = run_target(page, topics);
            after_begin(begin_next(place, sizes, &target, topics, found))
        }
        HostRunPlace::Change => after_change(hand, found),
        HostRunPlace::End(place) => return after_end(end_next(place, found)),
    };
    Outcome::Goes(Place::HostRun(next))
}
