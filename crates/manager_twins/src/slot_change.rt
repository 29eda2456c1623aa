//! The steps of a line that changes a slot.
ghost use Rattle.std.specs.Prelude.{◌≡◌, ◌+◌, ◌^◌, ◌<◌, ◌≤◌, Some, length, true};
ghost use Rattle.core_views.specs.declared.place.Place.TheVariants as place;
ghost use Rattle.core_views.specs.declared.place.SlotChangePlace.TheVariants as change_at;
ghost use Rattle.core_views.specs.SlotCommands.{change_at_once, changes_slot};
ghost use Rattle.core_views.specs.Traces.{IsCommandFor};
ghost use Rattle.part_steps.specs.PartBounds.{PartRests};
ghost use Rattle.part_steps.specs.PartSteps.{PartNeeds};
ghost use Rattle.mmu_core.specs.forms.slot_change.SlotChangeKnows.{IsInLog, RecordAccepts, SlotChangeRests};
ghost use Rattle.mmu_core.specs.lines.Rests.{Rests};
ghost use Rattle.mmu_core.specs.forms.slot_change.SlotChangeSteps.{after_arm, after_grace, after_protect, after_role, after_set_begin, after_set_claim};
ghost use Rattle.mmu_core.specs.forms.slot_change.SlotChangeSteps.{after_set_end};
ghost use Rattle.mmu_core.specs.forms.slot_change.SlotChangeSteps.{after_watch, arm_bits, arm_part, arm_word, log_target, slot_change_first};
ghost use Rattle.part_steps.specs.LogHoldings.{log_begin, log_end};
ghost use Rattle.mmu_core.specs.forms.slot_change.SlotChangeSteps.{slot_change_note, slot_change_outcome, slot_change_part};
ghost use Rattle.mmu_core.specs.forms.slot_change.SlotChangeSteps.{slot_change_records, slot_change_task, slot_or_none, slot_target};
ghost use Rattle.mmu_core.specs.machine.Steps.{next_line, place_at};
ghost use Rattle.part_steps.specs.Tasks.{map_of};
ghost use Rattle.mmu_core.specs.machine.Turns.{line_of};
ghost use Rattle.spte_words.specs.Areas.{size_of};

use core_views::{
    Answer, BeginPlace, Command, EndPlace, FrameRange, LogMode, Place, Sizes, Slot,
    SlotChangePlace, Topics, WriteProtectPlace,
};
use mmu_core::{BeginNext, ClaimNext, EndNext, FreeMap, Outcome, WatchNext, WriteProtectNext};
use order_twins::{
    begin_next, begin_part, claim_next, claim_part, end_next, end_part, loads_last_word, looked_at,
    own_open, protect_next, protect_part, watch_next,
};
use part_steps::{PartStep, Target};
use part_twins::{Hand, SLOT_SET_ROLE, SlotSet, set_word, words_filled};
use spte_words::ENTRIES;

/// Where the line begins, by the manager's own record of the slots.
pub fn first(sizes: &Sizes, slots: &SlotSet, command: &Command) -> SlotChangePlace
    ensures { result ≡ slot_change_first (change_at_once sizes.now command.now slots.now) }
{
    match slots.at_once(command, sizes) {
        Some(refusal) => SlotChangePlace::AtOnce(refusal),
        None => SlotChangePlace::Claim { begun: false },
    }
}

/// This slot, or one without pages.
pub(crate) fn slot_or_none(slot: Option<Slot>) -> Slot
    ensures { result ≡ slot_or_none slot }
{
    slot.unwrap_or(Slot {
        base: 0,
        pages: 0,
        host: 0,
        read_only: false,
    })
}

// The slot whose dirty log begins, or no slot.
fn log_target(hand: &Hand, command: &Command) -> Slot
    ensures { result ≡ log_target hand.now.core command.now }
{
    slot_or_none(hand.slots().armed(command))
}

/// The first word of a slot's log.
pub(crate) fn log_begin(slot: &Slot) -> u64
    ensures is { result ≡ log_begin slot.now }
    ensures small { result < 2 ^ 58 }
{
    slot.host / 64
}

// The word of its log that is set next.
fn arm_word(begun: bool, slot: &Slot, topics: &Topics) -> u64
    ensures { result ≡ arm_word begun slot.now topics.now }
{
    if begun {
        topics.next_log_word
    } else {
        log_begin(slot)
    }
}

// The bits of this word of its log: each of its pages has one, or none.
fn arm_bits(all: bool, slot: &Slot, word: u64) -> u64
    requires within { IsInLog slot.now word }
    requires few { slot.now.pages < 2 ^ 63 }
    ensures { result ≡ arm_bits all slot.now word }
{
    let before = 64 * (word - log_begin(slot));
    if !all {
        0
    } else if before + 63 < slot.pages {
        u64::MAX
    } else {
        (1 << (slot.pages - before)) - 1
    }
}

// The step that sets it.
fn arm_part(begun: bool, sizes: &Sizes, slot: &Slot, topics: &Topics) -> PartStep
    requires within { IsInLog slot.now (arm_word begun slot.now topics.now) }
    requires few { slot.now.pages < 2 ^ 63 }
    ensures { result ≡ arm_part begun sizes.now slot.now topics.now }
{
    let word = arm_word(begun, slot, topics);
    PartStep::Arm {
        word,
        bits: arm_bits(sizes.mode == LogMode::ManualAllSet, slot, word),
    }
}

/// The step that sets the next word of the dirty log that the line begins.
pub(crate) fn arm_step(begun: bool, hand: &Hand, command: &Command) -> PartStep
    requires rests { SlotChangeRests (change_at.Arm begun) command.now hand.now.core }
    ensures { result ≡ slot_change_part (change_at.Arm begun) hand.now.core command.now }
{
    arm_part(
        begun,
        &hand.progress().sizes,
        &log_target(hand, command),
        hand.topics(),
    )
}

// What the line invalidates: the slot that it moves or deletes.
fn target(hand: &Hand, command: &Command) -> Target
    ensures { result ≡ slot_target hand.now.core command.now }
{
    Target::Slot(slot_or_none(hand.slots().invalidated(command)))
}

/// The step of this place.
pub fn part(place: SlotChangePlace, hand: &Hand, command: &Command) -> PartStep
    requires part { PartRests hand.now.core }
    requires needs { PartNeeds (slot_change_part place hand.now.core command.now) hand.now.core }
    requires rests { SlotChangeRests place command.now hand.now.core }
    ensures { result ≡ slot_change_part place hand.now.core command.now }
{
    let topics = hand.topics();
    match place {
        SlotChangePlace::AtOnce(_) => PartStep::Seq,
        SlotChangePlace::Claim { begun } => claim_part(FreeMap::Pages, begun, &topics.claim),
        SlotChangePlace::Fill => {
            PartStep::Fill(set_word(hand.slots(), command, words_filled(topics.owned)))
        }
        SlotChangePlace::Role => PartStep::Role(SLOT_SET_ROLE),
        SlotChangePlace::Arm { begun } => arm_step(begun, hand, command),
        SlotChangePlace::Begin(place) => begin_part(place, &target(hand, command), topics),
        SlotChangePlace::Exclude => PartStep::Exclude,
        SlotChangePlace::Count => PartStep::Count,
        SlotChangePlace::Close | SlotChangePlace::Release => PartStep::Release,
        SlotChangePlace::Publish => PartStep::Publish,
        SlotChangePlace::End(place) => end_part(place, topics),
        SlotChangePlace::Watch => PartStep::Watch(looked_at(hand)),
        SlotChangePlace::WriteProtect { frames, place } => protect_part(place, frames, topics),
        SlotChangePlace::Clear => PartStep::Clear,
        SlotChangePlace::Give => PartStep::GiveOld,
    }
}

/// 1 where the line may end with the step of this place, else 0.
pub fn note(place: SlotChangePlace, hand: &Hand) -> u64
    requires { PartRests hand.now.core }
    ensures { result ≡ slot_change_note place hand.now.core }
{
    match place {
        SlotChangePlace::AtOnce(_) | SlotChangePlace::Give => 1,
        SlotChangePlace::Claim { begun } => {
            let last = loads_last_word(
                FreeMap::Pages,
                begun,
                &hand.progress().sizes,
                &hand.topics().claim,
            );
            if last { 1 } else { 0 }
        }
        _ => 0,
    }
}

/// Makes in the manager's own record what the step of this place changes there.
pub fn record_change(place: SlotChangePlace, hand: &mut Hand)
    requires left { length hand.old.core.answers < length hand.old.core.lines }
    requires line { IsCommandFor hand.old.core.state.sizes (next_line hand.old.core).actor (next_line hand.old.core).command }
    requires accepts { RecordAccepts place hand.old.core.state.sizes (next_line hand.old.core).command hand.old.core.slots }
    ensures core { hand.new.core ≡ record hand.old.core { slots = slot_change_records place (next_line hand.old.core).command hand.old.core.slots } }
    ensures room { hand.new.room ≡ hand.old.room }
{
    if let SlotChangePlace::Publish = place {
        hand.change_slots();
    }
}

// After a step of its claim.
fn after_set_claim(next: ClaimNext) -> Outcome
    ensures { result ≡ after_set_claim next }
{
    match next {
        ClaimNext::Goes => Outcome::Goes(Place::SlotChange(SlotChangePlace::Claim { begun: true })),
        ClaimNext::Got => Outcome::Goes(Place::SlotChange(SlotChangePlace::Fill)),
        ClaimNext::Empty => Outcome::Ends(Answer::Starved),
    }
}

// After the new set is filled.
fn after_role(invalidated: Option<Slot>, armed: Option<Slot>) -> SlotChangePlace
    ensures { result ≡ after_role invalidated armed }
{
    match (invalidated, armed) {
        (Some(_), _) => SlotChangePlace::Begin(BeginPlace::Exclude),
        (None, Some(_)) => SlotChangePlace::Arm { begun: false },
        (None, None) => SlotChangePlace::Exclude,
    }
}

// After this word of a dirty log is set.
fn after_arm(slot: &Slot, word: u64) -> SlotChangePlace
    requires { word < 2 ^ 63 }
    ensures { result ≡ after_arm slot.now word }
{
    if word + 1 < log_begin(slot) + slot.pages.div_ceil(64) {
        SlotChangePlace::Arm { begun: true }
    } else {
        SlotChangePlace::Exclude
    }
}

// After a step of the invalidation's begin.
fn after_set_begin(next: BeginNext) -> SlotChangePlace
    ensures { result ≡ after_set_begin next }
{
    match next {
        BeginNext::Goes(place) => SlotChangePlace::Begin(place),
        BeginNext::Begun => SlotChangePlace::Exclude,
    }
}

// After a step of its end.
fn after_set_end(next: EndNext) -> SlotChangePlace
    ensures { result ≡ after_set_end next }
{
    match next {
        EndNext::Goes(place) => SlotChangePlace::End(place),
        EndNext::Ended => SlotChangePlace::Watch,
    }
}

// After its watch: writes to a slot are forbidden whose dirty log is to begin, unless each page
// is dirty then.
fn after_grace(sizes: &Sizes, armed: Option<Slot>) -> SlotChangePlace
    requires small { (slot : Slot) → armed ≡ Some slot → slot.base + slot.pages < 2 ^ 64 }
    ensures { result ≡ after_grace sizes.now armed }
{
    match armed {
        Some(slot) if sizes.mode != LogMode::ManualAllSet => SlotChangePlace::WriteProtect {
            frames: FrameRange {
                start: slot.base,
                end: slot.base + slot.pages,
            },
            place: WriteProtectPlace::Exclude,
        },
        Some(_) | None => SlotChangePlace::Clear,
    }
}

// After a step that forbids writes.
fn after_protect(frames: FrameRange, next: WriteProtectNext) -> SlotChangePlace
    ensures { result ≡ after_protect frames next }
{
    match next {
        WriteProtectNext::Goes(place) => SlotChangePlace::WriteProtect { frames, place },
        WriteProtectNext::Over => SlotChangePlace::Clear,
    }
}

// After a look of its watch.
fn after_watch(sizes: &Sizes, armed: Option<Slot>, next: WatchNext) -> SlotChangePlace
    requires small { (slot : Slot) → armed ≡ Some slot → slot.base + slot.pages < 2 ^ 64 }
    ensures { result ≡ after_watch sizes.now armed next }
{
    match next {
        WatchNext::Last => after_grace(sizes, armed),
        WatchNext::Again | WatchNext::Next => SlotChangePlace::Watch,
    }
}

/// Where the line stands after the step of this place, which answered `found`.
pub fn outcome(place: SlotChangePlace, command: &Command, hand: &Hand, found: u64) -> Outcome
    requires part { PartRests hand.now.core }
    requires needs { PartNeeds (slot_change_part place hand.now.core command.now) hand.now.core }
    requires rests { SlotChangeRests place command.now hand.now.core }
    ensures { result ≡ slot_change_outcome place command.now hand.now.core found }
{
    let topics = hand.topics();
    let sizes = &hand.progress().sizes;
    Outcome::Goes(Place::SlotChange(match place {
        SlotChangePlace::AtOnce(refusal) => return Outcome::Ends(Answer::at_once(refusal)),
        SlotChangePlace::Claim { begun } => {
            return after_set_claim(claim_next(FreeMap::Pages, begun, sizes, &topics.claim, found));
        }
        SlotChangePlace::Fill if words_filled(topics.owned) + 1 < ENTRIES => SlotChangePlace::Fill,
        SlotChangePlace::Fill => SlotChangePlace::Role,
        SlotChangePlace::Role => {
            after_role(
                hand.slots().invalidated(command),
                hand.slots().armed(command),
            )
        }
        SlotChangePlace::Arm { begun } => {
            let slot = log_target(hand, command);
            after_arm(&slot, arm_word(begun, &slot, topics))
        }
        SlotChangePlace::Begin(place) => {
            let target = target(hand, command);
            after_set_begin(begin_next(place, sizes, &target, topics, found))
        }
        SlotChangePlace::Close => SlotChangePlace::Exclude,
        SlotChangePlace::Exclude if found == 0 => SlotChangePlace::Count,
        SlotChangePlace::Exclude => SlotChangePlace::Exclude,
        SlotChangePlace::Count if found == own_open(&topics.invalidations) => {
            SlotChangePlace::Publish
        }
        SlotChangePlace::Count => SlotChangePlace::Close,
        SlotChangePlace::Publish => SlotChangePlace::Release,
        SlotChangePlace::Release if topics.invalidations.opened => {
            SlotChangePlace::End(EndPlace::Exclude)
        }
        SlotChangePlace::Release => SlotChangePlace::Watch,
        SlotChangePlace::End(place) => after_set_end(end_next(place, found)),
        SlotChangePlace::Watch => {
            after_watch(sizes, hand.slots().armed(command), watch_next(hand, found))
        }
        SlotChangePlace::WriteProtect { frames, place } => {
            after_protect(frames, protect_next(place, sizes, frames, topics, found))
        }
        SlotChangePlace::Clear => SlotChangePlace::Give,
        SlotChangePlace::Give => return Outcome::Ends(Answer::Done),
    }))
}
