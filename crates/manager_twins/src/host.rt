//! The steps of a line that changes a host page.
ghost use Rattle.std.specs.Prelude.{◌≡◌, ◌<◌, ◌^◌, Some, true};
ghost use Rattle.core_views.specs.HostChanges.{changes_host, moves_page};
ghost use Rattle.core_views.specs.declared.place.HostPlace.TheVariants as host;
ghost use Rattle.core_views.specs.declared.topics.OwnedFrame.{OwnedFrame};
ghost use Rattle.core_views.specs.declared.place.Place.TheVariants as place;
ghost use Rattle.mmu_core.specs.forms.host.HostSteps.{after_begin, after_end, after_frame_claim, after_frame_watch, after_look, host_note, host_outcome};
ghost use Rattle.mmu_core.specs.forms.host.HostSteps.{host_part};
ghost use Rattle.mmu_core.specs.forms.host.HostSteps.{moves, revised, word_put, word_to_copy, word_to_store};
ghost use Rattle.mmu_core.specs.lines.Rests.{Rests};
ghost use Rattle.mmu_core.specs.machine.Steps.{place_at};
ghost use Rattle.mmu_core.specs.machine.Turns.{line_of};
ghost use Rattle.part_steps.specs.PartBounds.{PartRests};
ghost use Rattle.part_steps.specs.PartSteps.{PartNeeds};
ghost use Rattle.part_steps.specs.PartTasks.{own_index, part_task, word_looked};
ghost use Rattle.part_steps.specs.Tasks.{map_of};
ghost use Rattle.spte_words.specs.Areas.{size_of};

use core_views::{
    Answer, BeginPlace, Command, EndPlace, HostChange, HostPlace, Place, Refusal, Topics,
};
use mmu_core::{BeginNext, ClaimNext, EndNext, FreeMap, Outcome, WatchNext};
use order_twins::{
    begin_next, begin_part, claim_next, claim_part, end_next, end_part, loads_last_word, looked_at,
    watch_next,
};
use part_steps::{PartStep, Target};
use part_twins::{Hand, frame_owned, word_looked, words_moved};
use spte_words::HostWord;

// The host word that the change puts in place of another one, where this frame is owned.
fn revised(change: HostChange, frame: u64, word: u64) -> u64
    requires { frame < 2 ^ 52 }
    ensures { result ≡ revised change frame word }
{
    let word = HostWord::from_word(word);
    match change {
        HostChange::Move => word.with_frame(frame).word(),
        HostChange::Evict => word.with_presence(false).word(),
        HostChange::Allow => word.with_writes(true).word(),
        HostChange::Protect => word.with_writes(false).word(),
    }
}

/// The host word that the line puts in place of the one that it looked at.
pub(crate) fn word_put(change: HostChange, topics: &Topics) -> u64
    requires { (o : OwnedFrame) → topics.now.frames.owned ≡ Some o → o.frame < 2 ^ 52 }
    ensures { result ≡ word_put change topics.now }
{
    let frame = frame_owned(topics.frames.owned);
    revised(change, frame, word_looked(topics.host))
}

/// The content word that a move copies next.
#[tactic(auto, unfolding(spte_words::specs::HostWords::host_frame))]
pub(crate) fn word_to_copy(hand: &Hand) -> u64
    requires { PartRests hand.now.core }
    ensures { result ≡ word_to_copy hand.now.core }
{
    let topics = hand.topics();
    let old = HostWord::from_word(word_looked(topics.host)).frame();
    hand.progress().sizes.words * old + words_moved(topics.frames.owned)
}

/// The content word in which it stores it.
pub(crate) fn word_to_store(hand: &Hand) -> u64
    requires { PartRests hand.now.core }
    ensures { result ≡ word_to_store hand.now.core }
{
    let owned = hand.topics().frames.owned;
    hand.progress().sizes.words * frame_owned(owned) + words_moved(owned)
}

// The line moves its page.
fn moves(topics: &Topics) -> bool
    ensures { result ≡ moves topics.now }
{
    topics.frames.owned.is_some()
}

/// Where the line begins.
pub fn first(command: &Command) -> HostPlace
    ensures { result ≡ host.Look (moves_page command.now) }
{
    let moves = match command {
        Command::ChangeHost { change, .. } => *change == HostChange::Move,
        _ => false,
    };
    HostPlace::Look { moves }
}

/// The step of this place, for a line that changes the page.
pub fn part(place: HostPlace, page: u64, change: HostChange, hand: &Hand) -> PartStep
    requires part { PartRests hand.now.core }
    requires needs { PartNeeds (host_part place page change hand.now.core) hand.now.core }
    ensures { result ≡ host_part place page change hand.now.core }
{
    let topics = hand.topics();
    match place {
        HostPlace::Look { .. } if hand.progress().owns(page) => PartStep::Host(page),
        HostPlace::Look { .. } => PartStep::Seq,
        HostPlace::Claim { begun } => claim_part(FreeMap::Frames, begun, &topics.frames.claim),
        HostPlace::Begin(place) => begin_part(place, &Target::Page(page), topics),
        HostPlace::Copy => PartStep::Copy(word_to_copy(hand)),
        HostPlace::Store => PartStep::Store(word_to_store(hand)),
        HostPlace::Change => PartStep::Change(word_put(change, topics)),
        HostPlace::End(place) => end_part(place, topics),
        HostPlace::Watch => PartStep::Watch(looked_at(hand)),
        HostPlace::Free => PartStep::GiveFrame,
    }
}

/// 1 where the line may end with the step of this place, else 0.
pub fn note(place: HostPlace, page: u64, hand: &Hand) -> u64
    requires { PartRests hand.now.core }
    ensures { result ≡ host_note place page hand.now.core }
{
    let topics = hand.topics();
    let may_end = match place {
        HostPlace::Look { .. } => true,
        HostPlace::Claim { begun } => {
            let sizes = &hand.progress().sizes;
            loads_last_word(FreeMap::Frames, begun, sizes, &topics.frames.claim)
        }
        HostPlace::End(EndPlace::Release) => !moves(topics),
        HostPlace::Free => true,
        _ => false,
    };
    if may_end { 1 } else { 0 }
}

// After the look at its own page.
fn after_look(moves: bool, found: u64) -> Outcome
    ensures { result ≡ after_look moves found }
{
    if HostWord::from_word(found).level() > 1 {
        return Outcome::Ends(Answer::Refused(Refusal::IsHuge));
    }
    Outcome::Goes(Place::Host(if moves {
        HostPlace::Claim { begun: false }
    } else {
        HostPlace::Begin(BeginPlace::Exclude)
    }))
}

// After a step of its claim.
fn after_frame_claim(next: ClaimNext) -> Outcome
    ensures { result ≡ after_frame_claim next }
{
    Outcome::Goes(Place::Host(match next {
        ClaimNext::Goes => HostPlace::Claim { begun: true },
        ClaimNext::Got => HostPlace::Begin(BeginPlace::Exclude),
        ClaimNext::Empty => return Outcome::Ends(Answer::Refused(Refusal::NoFrame)),
    }))
}

// After a step of the invalidation's begin.
fn after_begin(moves: bool, next: BeginNext) -> HostPlace
    ensures { result ≡ after_begin moves next }
{
    match next {
        BeginNext::Goes(place) => HostPlace::Begin(place),
        BeginNext::Begun if moves => HostPlace::Copy,
        BeginNext::Begun => HostPlace::Change,
    }
}

// After a step of its end.
fn after_end(moves: bool, next: EndNext) -> Outcome
    ensures { result ≡ after_end moves next }
{
    match next {
        EndNext::Goes(place) => Outcome::Goes(Place::Host(HostPlace::End(place))),
        EndNext::Ended if moves => Outcome::Goes(Place::Host(HostPlace::Watch)),
        EndNext::Ended => Outcome::Ends(Answer::Done),
    }
}

// After a look of its watch.
fn after_watch(next: WatchNext) -> HostPlace
    ensures { result ≡ after_frame_watch next }
{
    match next {
        WatchNext::Last => HostPlace::Free,
        WatchNext::Again | WatchNext::Next => HostPlace::Watch,
    }
}

/// Where the line stands after the step of this place, which answered `found`.
pub fn outcome(place: HostPlace, page: u64, change: HostChange, hand: &Hand, found: u64) -> Outcome
    requires rests { PartRests hand.now.core }
    requires needs { PartNeeds (host_part place page change hand.now.core) hand.now.core }
    ensures { result ≡ host_outcome place page hand.now.core found }
{
    let topics = hand.topics();
    let sizes = &hand.progress().sizes;
    let frames = &topics.frames;
    let next = match place {
        HostPlace::Look { .. } if !hand.progress().owns(page) => {
            return Outcome::Ends(Answer::Refused(Refusal::OutOfRange));
        }
        HostPlace::Look { moves } => return after_look(moves, found),
        HostPlace::Claim { begun } => {
            let next = claim_next(FreeMap::Frames, begun, sizes, &frames.claim, found);
            return after_frame_claim(next);
        }
        HostPlace::Begin(place) => {
            after_begin(
                moves(topics),
                begin_next(place, sizes, &Target::Page(page), topics, found),
            )
        }
        HostPlace::Copy => HostPlace::Store,
        HostPlace::Store if words_moved(frames.owned) + 1 < sizes.words => HostPlace::Copy,
        HostPlace::Store => HostPlace::Change,
        HostPlace::Change if found == word_looked(topics.host) => HostPlace::End(EndPlace::Exclude),
        HostPlace::Change => HostPlace::Change,
        HostPlace::End(place) => return after_end(moves(topics), end_next(place, found)),
        HostPlace::Watch => after_watch(watch_next(hand, found)),
        HostPlace::Free => {
            let word = HostWord::from_word(word_looked(topics.host));
            return Outcome::Ends(Answer::Moved(word.frame()));
        }
    };
    Outcome::Goes(Place::Host(next))
}
