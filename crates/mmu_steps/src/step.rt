//! The step that a hand allows, and the hand after it.
ghost use Rattle.std.specs.Prelude.{◌≡◌, ◌≢◌, ◌<◌, ◌+◌, Some, length, true, false};
ghost use Rattle.core_views.specs.declared.place.AccessPlace.{AccessPlace};
ghost use Rattle.core_views.specs.declared.place.AccessPlace.TheVariants as stay;
ghost use Rattle.core_views.specs.declared.place.LogPlace.{LogPlace};
ghost use Rattle.core_views.specs.declared.place.Place.TheVariants as at;
ghost use Rattle.core_views.specs.Sizes.{AreSizes};
ghost use Rattle.core_views.specs.Traces.{IsCommandFor};
ghost use Rattle.mmu_core.specs.lines.Forms.{AcceptsAt, RestsAt, first_place, note_at, outcome_at, part_at, records_at};
ghost use Rattle.mmu_core.specs.lines.Delays.{line_waits};
ghost use Rattle.mmu_core.specs.lines.Rests.{IsUnderWay, Rests};
ghost use Rattle.mmu_core.specs.machine.Enabled.{Enabled};
ghost use Rattle.mmu_core.specs.machine.Steps.{has_line, line_after, line_at, next, next_line, place_at, standing, task_at, task_of};
ghost use Rattle.mmu_core.specs.forms.access.Cached.{flushed};
ghost use Rattle.part_steps.specs.declared.part_step.PartStep.TheVariants.{Claim, Frame};
ghost use Rattle.part_steps.specs.PartBounds.{PartRests};
ghost use Rattle.core_views.specs.Kinds.{kind_named};
ghost use Rattle.part_steps.specs.Tasks.{map_of};
ghost use Rattle.part_steps.specs.TopicSteps.{HasRoom, topics_after};
ghost use Rattle.spte_words.specs.Areas.{size_of};

use crate::delays::{delays_behind, is_delay, steps_behind};
use crate::stay::step_access;
use crate::waits::Waiting;
use access_twins::{access_note, access_part, fault_part, flush, touch};
use core_views::{
    AccessPlace, Answer, AnsweredLine, Command, FaultPlace, HostPlace, HostRunPlace, Kind, Leaving,
    Line, LogPlace, Place, SplitPlace, Stay, StepKind,
};
use manager_twins::{
    host_first, host_note, host_outcome, host_part, host_run_note, host_run_outcome, host_run_part,
    log_first, log_next, log_note, log_reads, log_step, record_change, slot_change_first,
    slot_change_note, slot_change_outcome, slot_change_part, split_note, split_outcome, split_part,
};
use mmu_core::{LogNext, Outcome};
use part_steps::{PartStep, Task, map_of};
use part_twins::{Hand, begin_stay, kind_of, own_task, part_task, step_topics, walk_task};
use spte_words::Area;

// Where a line begins. (Few steps begin one: kept out of the way of the others.)
#[inline(never)]
fn first(hand: &Hand, line: &Line) -> Place
    ensures { result ≡ first_place hand.now.core.state.sizes hand.now.core.slots line.now.command }
{
    match &line.command {
        Command::Access { .. } => Place::Access(AccessPlace::Enter { again: false }),
        Command::ChangeHost { .. } => Place::Host(host_first(&line.command)),
        Command::ChangeRun { .. } => Place::HostRun(HostRunPlace::Look),
        Command::GetLog { id } | Command::ClearLog { id, .. } => {
            let sizes = &hand.progress().sizes;
            Place::Log(log_first(sizes, hand.slots(), &line.command, *id))
        }
        Command::Split { .. } => Place::Split(SplitPlace::Begin),
        command => {
            let sizes = &hand.progress().sizes;
            Place::SlotChange(slot_change_first(sizes, hand.slots(), command))
        }
    }
}

// Where the line of the hand's next step stands.
#[inline(always)]
fn place_of(hand: &Hand, line: &Line) -> Place
    ensures { result ≡ standing hand.now.core.state.place hand.now.core.state.sizes hand.now.core.slots line.now.command }
{
    match hand.progress().place {
        Place::Between => {
            let begun = first(hand, line);
            begun
        }
        place => place,
    }
}

// 1 where the line may end with the step of this place, else 0.
fn note(place: Place, hand: &Hand, line: &Line) -> u64
    requires part { PartRests hand.now.core }
    ensures { result ≡ note_at place line.now.command hand.now.core }
{
    match (place, &line.command) {
        (Place::Access(place), Command::Access { .. }) => access_note(place),
        (Place::SlotChange(place), _) => slot_change_note(place, hand),
        (Place::Host(place), Command::ChangeHost { page, .. }) => host_note(place, *page, hand),
        (Place::HostRun(place), Command::ChangeRun { change, .. }) => host_run_note(place, *change),
        (Place::Log(place), command) => log_note(place, hand, command),
        (Place::Split(place), Command::Split { .. }) => split_note(place),
        _ => 0,
    }
}

// What the step of a place is to do.
#[inline(always)]
fn task(place: Place, hand: &Hand, line: &Line) -> Task
    requires part { PartRests hand.now.core }
    requires line { IsCommandFor hand.now.core.state.sizes line.now.actor line.now.command }
    requires rests { RestsAt place line.now.command hand.now.core }
    ensures task { result ≡ task_at place line.now.command hand.now.core }
    ensures within { result.index < size_of (map_of hand.now.core.state.sizes) result.area }
{
    if let Some(step) = part_of(place, line, hand) {
        return part_task(hand, step, note(place, hand, line));
    }
    match &line.command {
        Command::Access { gfn, word, op } => touch(hand, *gfn, *word, *op),
        _ => unreachable!(),
    }
}

// This step, which is the next one of the hand's line.
#[inline(always)]
#[tactic(auto, unfolding(mmu_core::specs::machine::Enabled::Enabled))]
fn kind_made(task: &Task, hand: &Hand) -> Kind
    requires left { length hand.now.core.answers < length hand.now.core.lines }
    requires rests { Rests hand.now.core }
    requires task { task.now ≡ task_of hand.now.core }
    requires within { task.now.index < size_of (map_of hand.now.core.state.sizes) task.now.area }
    ensures { Enabled hand.now.core result }
{
    kind_of(&hand.progress().sizes, task)
}

// The next step of a line, whatever its form.
#[inline(never)]
fn kind_of_form(hand: &Hand, line: &Line) -> Kind
    requires left { length hand.now.core.answers < length hand.now.core.lines }
    requires rests { Rests hand.now.core }
    requires line { line.now ≡ line_at hand.now.core.state.place hand.now.core }
    ensures { Enabled hand.now.core result }
{
    let task = task(place_of(hand, line), hand, line);
    kind_made(&task, hand)
}

// The next step of a line that changes a host page, and stands here.
#[inline(never)]
fn host_kind(place: HostPlace, hand: &Hand, line: &Line) -> Kind
    requires left { length hand.now.core.answers < length hand.now.core.lines }
    requires rests { Rests hand.now.core }
    requires line { line.now ≡ line_at hand.now.core.state.place hand.now.core }
    requires place { at.Host place ≡ place_at hand.now.core.state.place hand.now.core }
    ensures { Enabled hand.now.core result }
{
    let Command::ChangeHost { page, change } = &line.command else {
        unreachable!()
    };
    let step = host_part(place, *page, *change, hand);
    let note = host_note(place, *page, hand);
    kind_made(&part_task(hand, step, note), hand)
}

// The next step of a fault that stands here.
#[inline(never)]
fn fault_kind(place: FaultPlace, hand: &Hand, line: &Line) -> Kind
    requires left { length hand.now.core.answers < length hand.now.core.lines }
    requires rests { Rests hand.now.core }
    requires line { line.now ≡ line_at hand.now.core.state.place hand.now.core }
    requires place { at.Access (stay.Fault place) ≡ place_at hand.now.core.state.place hand.now.core }
    ensures { Enabled hand.now.core result }
{
    let Command::Access { gfn, .. } = &line.command else {
        unreachable!()
    };
    let step = fault_part(place, *gfn, hand.topics());
    let note = access_note(AccessPlace::Fault(place));
    kind_made(&part_task(hand, step, note), hand)
}

// The next step of an access that stands here, in the guest or before it.
#[inline(always)]
fn stay_kind(place: AccessPlace, hand: &Hand, line: &Line) -> Kind
    requires left { length hand.now.core.answers < length hand.now.core.lines }
    requires rests { Rests hand.now.core }
    requires line { line.now ≡ line_at hand.now.core.state.place hand.now.core }
    requires place { at.Access place ≡ place_at hand.now.core.state.place hand.now.core }
    ensures { Enabled hand.now.core result }
{
    let Command::Access { gfn, word, op } = &line.command else {
        unreachable!()
    };
    let state = hand.progress();
    let own = state.sizes.index_of(state.actor);
    match place {
        AccessPlace::Enter { .. } => kind_made(&own_task(PartStep::Enter, own, 0), hand),
        AccessPlace::Pause { .. } => {
            kind_made(&Task::load(StepKind::Control, Area::Pause, 0, 0), hand)
        }
        AccessPlace::Root { .. } => {
            kind_made(&Task::load(StepKind::Control, Area::Root, 0, 0), hand)
        }
        AccessPlace::Walk { .. } => {
            let map = map_of(&state.sizes);
            kind_made(&walk_task(&map, &hand.topics().walk, *gfn, 0), hand)
        }
        AccessPlace::Touch => kind_made(&touch(hand, *gfn, *word, *op), hand),
        AccessPlace::Leave(Leaving::Reached { .. }) => {
            kind_made(&own_task(PartStep::Leave, own, 1), hand)
        }
        AccessPlace::Leave(Leaving::Faults { .. }) => {
            kind_made(&own_task(PartStep::Leave, own, 0), hand)
        }
        AccessPlace::Fault(place) => fault_kind(place, hand, line),
    }
}

/// The one step that the hand allows: the next one of its line, in the order
/// of the line's steps.
#[inline(always)]
pub fn next_kind(hand: &Hand) -> Kind
    requires left { length hand.now.core.answers < length hand.now.core.lines }
    requires rests { Rests hand.now.core }
    ensures { Enabled hand.now.core result }
{
    let line = hand.line();
    match (hand.progress().place, &line.command) {
        (Place::Access(place), Command::Access { .. }) => stay_kind(place, hand, line),
        (Place::Between, Command::Access { .. }) => {
            stay_kind(AccessPlace::Enter { again: false }, hand, line)
        }
        (Place::Host(place), _) => host_kind(place, hand, line),
        _ => kind_of_form(hand, line),
    }
}

/// The step of a part that a line makes at this place; `None` where the guest
/// touches a content word.
#[tactic(auto, using(mmu_core::proofs::forms::access::UsedTranslations::part_needs, mmu_core::proofs::lines::LineWaits::claims_seen))]
pub(crate) fn part_of(place: Place, line: &Line, hand: &Hand) -> Option<PartStep>
    requires part { PartRests hand.now.core }
    requires rests { RestsAt place line.now.command hand.now.core }
    ensures step { result ≡ part_at place line.now.command hand.now.core }
    ensures seen { result ≡ Some Claim → 0 < hand.now.core.topics.claim.seen }
    ensures frame_seen { result ≡ Some Frame → 0 < hand.now.core.topics.frames.claim.seen }
{
    match (place, &line.command) {
        (Place::Access(place), Command::Access { gfn, .. }) => access_part(place, *gfn, hand),
        (Place::SlotChange(place), command) => Some(slot_change_part(place, hand, command)),
        (Place::Host(place), Command::ChangeHost { page, change }) => {
            Some(host_part(place, *page, *change, hand))
        }
        (Place::HostRun(place), Command::ChangeRun { page, change }) => {
            Some(host_run_part(place, *page, *change, hand))
        }
        (Place::Log(place), command) => Some(log_step(place, hand, command)),
        (Place::Split(place), Command::Split { gfn }) => Some(split_part(place, *gfn, hand)),
        _ => Some(PartStep::Seq),
    }
}

/// The step of a part that the hand's next step is, in the order of its line's
/// steps; `None` where the guest touches a content word.
pub fn next_step(hand: &Hand) -> Option<PartStep>
    requires left { length hand.now.core.answers < length hand.now.core.lines }
    requires rests { Rests hand.now.core }
    ensures step { result ≡ part_at (place_at hand.now.core.state.place hand.now.core) (line_at hand.now.core.state.place hand.now.core).command hand.now.core }
    ensures seen { result ≡ Some Claim → 0 < hand.now.core.topics.claim.seen }
    ensures frame_seen { result ≡ Some Frame → 0 < hand.now.core.topics.frames.claim.seen }
{
    let line = hand.line();
    part_of(place_of(hand, line), line, hand)
}

// The manager's own record of the slots after the step of a place.
fn record_step(place: Place, hand: &mut Hand)
    requires left { length hand.old.core.answers < length hand.old.core.lines }
    requires line { IsCommandFor hand.old.core.state.sizes (next_line hand.old.core).actor (next_line hand.old.core).command }
    requires accepts { AcceptsAt place (next_line hand.old.core).command hand.old.core.state.sizes hand.old.core.slots }
    ensures core { hand.new.core ≡ record hand.old.core { slots = records_at place (next_line hand.old.core).command hand.old.core.slots } }
    ensures room { hand.new.room ≡ hand.old.room }
{
    if let Place::SlotChange(place) = place {
        record_change(place, hand);
    }
}

// Where the line stands after the step of a place, which is none of an access, reads no log and
// changes no host page.
fn outcome(place: Place, line: &Line, hand: &Hand, found: u64) -> Outcome
    requires part { PartRests hand.now.core }
    requires line { IsCommandFor hand.now.core.state.sizes line.now.actor line.now.command }
    requires rests { RestsAt place line.now.command hand.now.core }
    requires other { (p : LogPlace) → place ≢ at.Log p }
    requires no_host { (p : HostPlace) → place ≢ at.Host p }
    requires no_access { (p : AccessPlace) → place ≢ at.Access p }
    ensures { result ≡ outcome_at place line.now.command hand.now.core found }
{
    match (place, &line.command) {
        (Place::SlotChange(place), command) => slot_change_outcome(place, command, hand, found),
        (Place::HostRun(place), Command::ChangeRun { page, change }) => {
            host_run_outcome(place, *page, *change, hand, found)
        }
        (Place::Split(place), Command::Split { gfn }) => split_outcome(place, *gfn, hand, found),
        (Place::Access(_), _) | (Place::Host(_), _) | (Place::Log(_), _) => unreachable!(),
        _ => Outcome::Goes(place),
    }
}

// The effect on the hand of a step of a line that is no access, reads no log and changes no host
// page, but for its topics and for a flush.
#[inline(never)]
fn advance_line(hand: &mut Hand, place: Place, waits: bool, found: u64)
    requires left { length hand.old.core.answers < length hand.old.core.lines }
    requires part { PartRests hand.old.core }
    requires line { IsCommandFor hand.old.core.state.sizes (next_line hand.old.core).actor (next_line hand.old.core).command }
    requires rests { RestsAt place (next_line hand.old.core).command hand.old.core }
    requires begun { IsUnderWay place }
    requires accepts { AcceptsAt place (next_line hand.old.core).command hand.old.core.state.sizes hand.old.core.slots }
    requires other { (p : LogPlace) → place ≢ at.Log p }
    requires no_host { (p : HostPlace) → place ≢ at.Host p }
    requires no_access { (p : AccessPlace) → place ≢ at.Access p }
    requires waits { waits ≡ line_waits place (next_line hand.old.core).command hand.old.core found }
    requires room { 0 < hand.old.room }
    ensures core { hand.new.core ≡ line_after (next_line hand.old.core) place hand.old.core found }
    ensures room { length hand.new.core.answers + hand.new.room ≡ length hand.old.core.answers + hand.old.room }
{
    let line = hand.line();
    let (number, actor) = (line.number, line.actor);
    let outcome = outcome(place, line, hand, found);
    let used = hand.progress().used;
    let delay = is_delay(waits, place, &outcome);
    let steps = steps_behind(delay, hand);
    let delays = delays_behind(delay, hand);
    record_step(place, hand);
    match outcome {
        Outcome::Goes(place) => hand.go_on(place, used, steps, delays),
        Outcome::Ends(answer) => {
            hand.go_on(Place::Between, used, steps, delays);
            hand.answer(AnsweredLine {
                number,
                actor,
                answer,
            });
        }
    }
}

// The effect on the hand of a step of a line that changes a host page, but for its topics.
#[inline(never)]
fn advance_host(hand: &mut Hand, place: HostPlace, waits: bool, found: u64)
    requires left { length hand.old.core.answers < length hand.old.core.lines }
    requires part { PartRests hand.old.core }
    requires rests { RestsAt (at.Host place) (next_line hand.old.core).command hand.old.core }
    requires waits { waits ≡ line_waits (at.Host place) (next_line hand.old.core).command hand.old.core found }
    requires room { 0 < hand.old.room }
    ensures core { hand.new.core ≡ line_after (next_line hand.old.core) (at.Host place) hand.old.core found }
    ensures room { length hand.new.core.answers + hand.new.room ≡ length hand.old.core.answers + hand.old.room }
{
    let line = hand.line();
    let (number, actor) = (line.number, line.actor);
    let Command::ChangeHost { page, change } = &line.command else {
        unreachable!()
    };
    let outcome = host_outcome(place, *page, *change, hand, found);
    let steps = steps_behind(waits, hand);
    let delays = delays_behind(waits, hand);
    let used = hand.progress().used;
    match outcome {
        Outcome::Goes(place) => hand.go_on(place, used, steps, delays),
        Outcome::Ends(answer) => {
            hand.go_on(Place::Between, used, steps, delays);
            hand.answer(AnsweredLine {
                number,
                actor,
                answer,
            });
        }
    }
}

// The effect on the hand of a step of a line that reads a log, but for its topics.
#[inline(never)]
fn advance_log(hand: &mut Hand, place: LogPlace, waits: bool, found: u64)
    requires left { length hand.old.core.answers < length hand.old.core.lines }
    requires part { PartRests hand.old.core }
    requires rests { RestsAt (at.Log place) (next_line hand.old.core).command hand.old.core }
    requires waits { waits ≡ line_waits (at.Log place) (next_line hand.old.core).command hand.old.core found }
    requires room { 0 < hand.old.room }
    ensures core { hand.new.core ≡ line_after (next_line hand.old.core) (at.Log place) hand.old.core found }
    ensures room { length hand.new.core.answers + hand.new.room ≡ length hand.old.core.answers + hand.old.room }
{
    let line = hand.line();
    let (number, actor) = (line.number, line.actor);
    let next = log_next(place, &line.command, hand, found);
    let steps = steps_behind(waits, hand);
    let delays = delays_behind(waits, hand);
    let used = hand.progress().used;
    log_reads(place, hand, found);
    match next {
        LogNext::Goes(place) => hand.go_on(Place::Log(place), used, steps, delays),
        LogNext::Refused(refusal) => {
            hand.clear_harvest();
            hand.go_on(Place::Between, used, steps, delays);
            hand.answer(AnsweredLine {
                number,
                actor,
                answer: Answer::Refused(refusal),
            });
        }
        LogNext::Reads => {
            hand.go_on(Place::Between, used, steps, delays);
            hand.answer_harvest(number, actor);
        }
    }
}

// The first step of a line that begins at this place, which is none of an access.
#[inline(never)]
fn step_first(hand: &mut Hand, place: Place, waits: bool, found: u64)
    requires left { length hand.old.core.answers < length hand.old.core.lines }
    requires part { PartRests hand.old.core }
    requires line { IsCommandFor hand.old.core.state.sizes (next_line hand.old.core).actor (next_line hand.old.core).command }
    requires rests { RestsAt place (next_line hand.old.core).command hand.old.core }
    requires begun { IsUnderWay place }
    requires accepts { AcceptsAt place (next_line hand.old.core).command hand.old.core.state.sizes hand.old.core.slots }
    requires no_access { (p : AccessPlace) → place ≢ at.Access p }
    requires waits { waits ≡ line_waits place (next_line hand.old.core).command hand.old.core found }
    requires room { 0 < hand.old.room }
    ensures core { hand.new.core ≡ line_after (next_line hand.old.core) place hand.old.core found }
    ensures room { length hand.new.core.answers + hand.new.room ≡ length hand.old.core.answers + hand.old.room }
{
    match place {
        Place::Log(place) => advance_log(hand, place, waits, found),
        Place::Host(place) => advance_host(hand, place, waits, found),
        Place::Access(_) => unreachable!(),
        _ => advance_line(hand, place, waits, found),
    }
}

// The step of the hand's line, which stands at no place of an access.
#[inline(never)]
fn step_form(hand: &mut Hand, waits: bool, found: u64)
    requires left { length hand.old.core.answers < length hand.old.core.lines }
    requires rests { Rests hand.old.core }
    requires waits { waits ≡ line_waits (place_at hand.old.core.state.place hand.old.core) (line_at hand.old.core.state.place hand.old.core).command
        hand.old.core found }
    requires no_access { (p : AccessPlace) → place_at hand.old.core.state.place hand.old.core ≢ at.Access p }
    requires room { 0 < hand.old.room }
    ensures line { hand.new.core
        ≡ line_after (line_at hand.old.core.state.place hand.old.core) (place_at hand.old.core.state.place hand.old.core) hand.old.core found }
    ensures room { length hand.new.core.answers + hand.new.room ≡ length hand.old.core.answers + hand.old.room }
{
    let line = hand.line();
    match hand.progress().place {
        Place::Between => {
            let place = first(hand, line);
            step_first(hand, place, waits, found);
        }
        Place::Log(place) => advance_log(hand, place, waits, found),
        Place::Host(place) => advance_host(hand, place, waits, found),
        Place::Access(_) => unreachable!(),
        place => advance_line(hand, place, waits, found),
    }
}

// The step of the hand's line, where it has one left.
#[inline(always)]
fn step_line(hand: &mut Hand, kind: Kind, found: u64)
    requires enabled { Enabled hand.old.core kind }
    requires room { 0 < hand.old.room }
    ensures line { has_line hand.old.core ≡ true → hand.new.core
        ≡ line_after (line_at hand.old.core.state.place hand.old.core) (place_at hand.old.core.state.place hand.old.core) hand.old.core found }
    ensures none { has_line hand.old.core ≡ false → hand.new.core ≡ hand.old.core }
    ensures room { length hand.new.core.answers + hand.new.room ≡ length hand.old.core.answers + hand.old.room }
{
    if hand.has_line() && !step_access(hand, kind, found) {
        let waits = Waiting::of(kind, hand).waits(found);
        step_form(hand, waits, found);
    }
}

// The effect of a step on the topics of the hand, where it may ask for the sizes.
#[inline(never)]
fn step_with_sizes(hand: &mut Hand, kind: &Kind, found: u64)
    requires sizes { AreSizes hand.old.core.state.sizes }
    requires room { HasRoom (kind_named kind.now.code) hand.old.core.topics }
    ensures core { hand.new.core ≡ record hand.old.core { topics = topics_after hand.old.core.state.sizes kind.now hand.old.core.topics found } }
    ensures room { hand.new.room ≡ hand.old.room }
{
    let sizes = hand.progress().sizes;
    step_topics(&sizes, *kind, hand.topics_mut(), found);
}

// The effect of a step on the topics of the hand. Those steps of an access that ask for no sizes
// copy none.
#[inline(always)]
#[tactic(auto, unfolding(part_steps::specs::TopicSteps::topics_after))]
fn advance_topics(hand: &mut Hand, kind: Kind, found: u64)
    requires sizes { AreSizes hand.old.core.state.sizes }
    requires room { HasRoom (kind_named kind.code) hand.old.core.topics }
    ensures core { hand.new.core ≡ record hand.old.core { topics = topics_after hand.old.core.state.sizes kind hand.old.core.topics found } }
    ensures room { hand.new.room ≡ hand.old.room }
{
    match kind.named() {
        StepKind::Enter => begin_stay(hand.topics_mut(), Stay::Guest),
        StepKind::Leave => begin_stay(hand.topics_mut(), Stay::Outside),
        StepKind::Control if kind.word == Area::Pause.number() => hand.topics_mut().pause = found,
        StepKind::Read | StepKind::Write | StepKind::Add => {}
        _ => step_with_sizes(hand, &kind, found),
    }
}

/// Makes the effect of a step on the hand, where the step answered `found`.
#[inline(always)]
#[tactic(auto, unfolding(mmu_core::specs::machine::Steps::next))]
pub fn advance(hand: &mut Hand, kind: Kind, found: u64)
    requires enabled { Enabled hand.old.core kind }
    requires room { 0 < hand.old.room }
    ensures core { hand.new.core ≡ next hand.old.core kind found }
    ensures room { length hand.new.core.answers + hand.new.room ≡ length hand.old.core.answers + hand.old.room }
{
    step_line(hand, kind, found);
    flush(hand, kind, found);
    advance_topics(hand, kind, found);
}
