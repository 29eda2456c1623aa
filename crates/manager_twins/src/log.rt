//! The steps of a line that reads a dirty log.
ghost use Rattle.std.specs.Prelude.{◌≡◌, ◌<◌, ◌^◌, Some, is_some, length, true, if◌then◌else◌};
ghost use Rattle.core_views.specs.declared.place.LogPlace.TheVariants as log;
ghost use Rattle.core_views.specs.declared.place.Place.TheVariants as place;
ghost use Rattle.core_views.specs.LogCommands.{log_read, read_refusal, takes_out, words_asked};
ghost use Rattle.mmu_core.specs.declared.log_next.LogNext.TheVariants.{Goes};
ghost use Rattle.mmu_core.specs.forms.log.LogKnows.{HasRoomFor, LogRests};
ghost use Rattle.mmu_core.specs.forms.log.LogSteps.{after_page, awaits_last, first_word, frame_asked, log_first, log_next, log_note, log_part, log_reads};
ghost use Rattle.mmu_core.specs.forms.log.LogSteps.{mask_read, next_page, read_more, reads_last, slot_asked, word_read};
ghost use Rattle.mmu_core.specs.lines.Rests.{Rests};
ghost use Rattle.mmu_core.specs.machine.Steps.{next_line, place_at};
ghost use Rattle.mmu_core.specs.machine.Turns.{line_of};
ghost use Rattle.part_steps.specs.PartBounds.{PartRests};
ghost use Rattle.part_steps.specs.PartSteps.{PartNeeds};
ghost use Rattle.part_steps.specs.PartTasks.{own_index, part_task};
ghost use Rattle.part_steps.specs.Tasks.{map_of};
ghost use Rattle.part_steps.specs.SweepTopics.{has_entry};
ghost use Rattle.part_steps.specs.declared.part_step.PartStep.TheVariants.{Walk, WalkAnew};
ghost use Rattle.spte_words.specs.Areas.{size_of};

use crate::dirty_pages::first_dirty;
use crate::slot_change::{log_begin, slot_or_none};
use core_views::{Command, LogPlace, Sizes, Slot, TableWalk, Topics};
use mmu_core::LogNext;
use part_steps::PartStep;
use part_twins::{Hand, SlotSet, has_entry, has_to_flush};
use spte_words::{Spte, SpteKind};

/// Where the line begins, by the manager's own record of the slots.
pub fn first(sizes: &Sizes, slots: &SlotSet, command: &Command, id: u64) -> LogPlace
    requires { log_read command.now ≡ Some id }
    ensures { result ≡ log_first (read_refusal command.now slots.now) (takes_out sizes.now.mode command.now) }
{
    match slots.to_read(command, id) {
        Err(refusal) => LogPlace::AtOnce(refusal),
        Ok(_) => {
            if command.takes_out(sizes.mode) {
                LogPlace::Exclude
            } else {
                LogPlace::Peek { begun: false }
            }
        }
    }
}

// The slot whose log it reads, or no slot.
fn slot_asked(hand: &Hand, command: &Command) -> Slot
    ensures { result ≡ slot_asked hand.now.core command.now }
{
    let found = match command.log_read() {
        Some(id) => hand.slots().get(id),
        None => None,
    };
    slot_or_none(found.map(|found| found.slot))
}

// The first word of the log that it reads.
fn first_word(slot: &Slot, command: &Command) -> u64
    ensures is { result ≡ first_word slot.now command.now }
    ensures small { result < 2 ^ 60 }
{
    log_begin(slot) + command.first_asked() / 64
}

// How many words it reads.
fn words_asked(slot: &Slot, command: &Command) -> u64
    ensures is { result ≡ words_asked command.now slot.now }
    ensures small { result < 2 ^ 60 }
{
    command.count_asked(slot).div_ceil(64)
}

// The word that comes next.
fn word_read(begun: bool, slot: &Slot, command: &Command, topics: &Topics) -> u64
    ensures { result ≡ word_read begun slot.now command.now topics.now }
{
    if begun {
        topics.next_log_word
    } else {
        first_word(slot, command)
    }
}

// The bits for which it asks of this word.
fn mask_read(slot: &Slot, command: &Command, word: u64) -> u64
    ensures { result ≡ mask_read slot.now command.now word }
{
    command.mask_asked(slot, word.saturating_sub(first_word(slot, command)))
}

// Whether it has read the last word with the next one.
fn reads_last(begun: bool, slot: &Slot, command: &Command, topics: &Topics) -> bool
    ensures { result ≡ reads_last begun slot.now command.now topics.now }
{
    let end = first_word(slot, command) + words_asked(slot, command);
    end.saturating_sub(1) <= word_read(begun, slot, command, topics)
}

/// The guest frame of a page, counted from the first one for which it asks.
pub(crate) fn log_frame(page: u64, hand: &Hand, command: &Command) -> u64
    requires { frame_asked (slot_asked hand.now.core command.now) command.now page < 2 ^ 64 }
    ensures { result ≡ frame_asked (slot_asked hand.now.core command.now) command.now page }
{
    slot_asked(hand, command).base + (command.first_asked() + page)
}

// ---- its steps

// The step on the way to the leaf of this guest frame.
fn walk_part(walk: &TableWalk, gfn: u64) -> PartStep
    ensures { result ≡ (if has_entry walk.now then WalkAnew gfn else Walk gfn) }
{
    if has_entry(walk) {
        PartStep::WalkAnew(gfn)
    } else {
        PartStep::Walk(gfn)
    }
}

/// The step of this place.
pub fn log_step(place: LogPlace, hand: &Hand, command: &Command) -> PartStep
    requires needs { PartNeeds (log_part place hand.now.core command.now) hand.now.core }
    ensures { result ≡ log_part place hand.now.core command.now }
{
    let topics = hand.topics();
    let slot = slot_asked(hand, command);
    match place {
        LogPlace::AtOnce(_) => PartStep::Seq,
        LogPlace::Exclude => PartStep::Exclude,
        LogPlace::Take { begun } => {
            let word = word_read(begun, &slot, command, topics);
            PartStep::Take {
                word,
                mask: mask_read(&slot, command, word),
            }
        }
        LogPlace::Root => PartStep::Root,
        LogPlace::Walk { page } => walk_part(&topics.walk, log_frame(page, hand, command)),
        LogPlace::Protect { page } => PartStep::Protect(log_frame(page, hand, command)),
        LogPlace::Release => PartStep::Release,
        LogPlace::Ask => PartStep::Ask(topics.flush.asked),
        LogPlace::Await => PartStep::Await(topics.flush.awaited),
        LogPlace::Peek { begun } => PartStep::Peek(word_read(begun, &slot, command, topics)),
    }
}

// Whether it awaits the last virtual processor.
fn awaits_last(hand: &Hand) -> bool
    ensures { result ≡ awaits_last hand.now.core }
{
    hand.progress().sizes.vcpus.saturating_sub(1) <= hand.topics().flush.awaited
}

/// 1 where the line may end with the step of this place, else 0.
pub fn note(place: LogPlace, hand: &Hand, command: &Command) -> u64
    ensures { result ≡ log_note place hand.now.core command.now }
{
    let may_end = match place {
        LogPlace::AtOnce(_) => true,
        LogPlace::Await => awaits_last(hand),
        LogPlace::Peek { begun } => {
            reads_last(begun, &slot_asked(hand, command), command, hand.topics())
        }
        _ => false,
    };
    if may_end { 1 } else { 0 }
}

// From this page on: to the next leaf, or the lock is given back.
fn page_from(hand: &Hand, command: &Command, from: u64) -> LogPlace
    requires { from < 2 ^ 63 }
    ensures { result ≡ after_page (next_page (slot_asked hand.now.core command.now) command.now hand.now.core.harvest from) }
{
    let count = command.count_asked(&slot_asked(hand, command));
    match first_dirty(hand.harvest(), from, count) {
        Some(page) => LogPlace::Walk { page },
        None => LogPlace::Release,
    }
}

// The level of the table from which the next entry on the way to a leaf is loaded.
fn level_read(walk: &TableWalk) -> u8
    ensures { result ≡ (if has_entry walk.now then 4 else walk.now.level) }
{
    if has_entry(walk) { 4 } else { walk.level }
}

// After an entry on the way to the leaf of a page.
fn after_entry(page: u64, hand: &Hand, command: &Command, found: u64) -> LogPlace
    requires needs { PartNeeds (log_part (log.Walk page) hand.now.core command.now) hand.now.core }
    ensures { Goes result ≡ log_next (log.Walk page) command.now hand.now.core found }
{
    let entry = Spte::from_word(found);
    match entry.kind(level_read(&hand.topics().walk)) {
        SpteKind::Table(_) => LogPlace::Walk { page },
        SpteKind::Leaf if entry.is_writable() => LogPlace::Protect { page },
        _ => page_from(hand, command, page + 1),
    }
}

/// What the line comes to with the step of this place, which answered `found`.
pub fn next(place: LogPlace, command: &Command, hand: &Hand, found: u64) -> LogNext
    requires part { PartRests hand.now.core }
    requires needs { PartNeeds (log_part place hand.now.core command.now) hand.now.core }
    ensures { result ≡ log_next place command.now hand.now.core found }
{
    let topics = hand.topics();
    LogNext::Goes(match place {
        LogPlace::AtOnce(refusal) => return LogNext::Refused(refusal),
        LogPlace::Exclude if found != 0 => LogPlace::Exclude,
        LogPlace::Exclude if words_asked(&slot_asked(hand, command), command) > 0 => {
            LogPlace::Take { begun: false }
        }
        LogPlace::Exclude => LogPlace::Root,
        LogPlace::Take { begun } => {
            if reads_last(begun, &slot_asked(hand, command), command, topics) {
                LogPlace::Root
            } else {
                LogPlace::Take { begun: true }
            }
        }
        LogPlace::Root => page_from(hand, command, 0),
        LogPlace::Walk { page } => after_entry(page, hand, command, found),
        LogPlace::Protect { page } => page_from(hand, command, page + 1),
        LogPlace::Release => LogPlace::Ask,
        LogPlace::Ask if topics.flush.asked + 1 < hand.progress().sizes.vcpus => LogPlace::Ask,
        LogPlace::Ask => LogPlace::Await,
        LogPlace::Await if has_to_flush(found) || !awaits_last(hand) => LogPlace::Await,
        LogPlace::Await => return LogNext::Reads,
        LogPlace::Peek { begun } => {
            if reads_last(begun, &slot_asked(hand, command), command, topics) {
                return LogNext::Reads;
            }
            LogPlace::Peek { begun: true }
        }
    })
}

// ---- what it reads

// It has read one more word, which was this.
fn read_more(begun: bool, hand: &mut Hand, found: u64)
    requires left { length hand.old.core.answers < length hand.old.core.lines }
    requires reads { is_some (log_read (next_line hand.old.core).command) ≡ true }
    requires more { begun ≡ true → HasRoomFor (next_line hand.old.core).command hand.old.core }
    requires room { 0 < hand.old.room }
    ensures core { hand.new.core ≡ record hand.old.core {
      harvest = read_more begun (slot_asked hand.old.core (next_line hand.old.core).command) (next_line hand.old.core).command hand.old.core found;
    } }
    ensures room { hand.new.room ≡ hand.old.room }
{
    let command = &hand.line().command;
    let slot = slot_asked(hand, command);
    let word = word_read(begun, &slot, command, hand.topics());
    let bits = found & mask_read(&slot, command, word);
    if !begun {
        hand.clear_harvest();
    }
    hand.add_word(bits);
}

/// The line has read what the step of this place, which answered `found`, reads of the log.
pub fn read(place: LogPlace, hand: &mut Hand, found: u64)
    requires left { length hand.old.core.answers < length hand.old.core.lines }
    requires reads { is_some (log_read (next_line hand.old.core).command) ≡ true }
    requires rests { LogRests place (next_line hand.old.core).command hand.old.core }
    requires room { 0 < hand.old.room }
    ensures core { hand.new.core ≡ record hand.old.core { harvest = log_reads place (next_line hand.old.core).command hand.old.core found } }
    ensures room { hand.new.room ≡ hand.old.room }
{
    match place {
        LogPlace::Exclude => hand.clear_harvest(),
        LogPlace::Take { begun } | LogPlace::Peek { begun } => read_more(begun, hand, found),
        _ => {}
    }
}
