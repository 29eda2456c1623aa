ghost use Rattle.std.specs.Prelude.{◌≡◌, ◌≤◌, ◌<◌, ◌^◌};
ghost use Rattle.part_steps.specs.PartHoldings.{is_fixable};
ghost use Rattle.part_steps.specs.SlotWords.{field_number, leaf_of, page_of, slot_index};
ghost use Rattle.part_steps.specs.SetWords.{set_word, word_of_slot};
ghost use Rattle.core_views.specs.Refusals.{after_set};
ghost use Rattle.core_views.specs.SlotCommands.{slots_after};
ghost use Rattle.core_views.specs.declared.trace.Command.TheVariants.{SetLog};
ghost use Rattle.core_views.specs.SlotSets.{slot_of_id, without_slot_at};
ghost use Rattle.spte_words.specs.HostWords.{host_frame};
ghost use Rattle.spte_words.specs.Areas.{IsWordMap, size_of};
ghost use Rattle.spte_words.specs.declared.area.Area.TheVariants as Area;

use core_views::{Command, MemorySlot, Slot, SlotField};
use hands::SlotSet;
use spte_words::{HostWord, SlotFlags, Spte, WordMap};

fn field_number(field: SlotField) -> u64
    ensures { result ≡ field_number field }
{
    match field {
        SlotField::Base => 0,
        SlotField::Pages => 1,
        SlotField::Host => 2,
        SlotField::Flags => 3,
    }
}

/// The pool's word that holds a field of the slot with this ID, in the slot
/// set of a pool page.
pub(crate) fn slot_word(map: &WordMap, set: u64, id: u64, field: SlotField) -> u64
    requires map { IsWordMap map.now }
    requires set { set < map.now.pool }
    requires id { id ≤ 31 }
    ensures index { result ≡ slot_index set id field }
    ensures within { result < size_of map.now Area.Pool }
{
    map.pool_index(set, 4 * id + field_number(field))
}

/// The role of a slot set's page.
pub const SLOT_SET_ROLE: u64 = 5;

// Word i of a slot in its slot set; 0 where there is none.
fn word_of_slot(slot: &Option<MemorySlot>, i: u64) -> u64
    ensures { result ≡ word_of_slot slot.now i }
{
    let Some(MemorySlot { slot, logged }) = slot else {
        return 0;
    };
    match i {
        0 => slot.base,
        1 => slot.pages,
        2 => slot.host,
        _ => SlotFlags::new(true, slot.read_only, *logged).word(),
    }
}

// The slot with the ID `here`, after one was set.
#[tactic(auto, using(part_steps::proofs::SetWords::set_at))]
fn slot_after_set(slots: &SlotSet, id: u64, slot: &Slot, here: u64) -> Option<MemorySlot>
    ensures { result ≡ slot_of_id here (after_set id slot.now slots.now) }
{
    let was = slots.get(here);
    if here != id {
        return was;
    }
    let logged = was.is_some_and(|was| was.logged);
    Some(MemorySlot {
        slot: *slot,
        logged,
    })
}

// The slot with the ID `here`, after one was deleted.
#[tactic(auto, using(core_views::proofs::SlotLines::taken_at))]
fn slot_after_deletion(slots: &SlotSet, id: u64, here: u64) -> Option<MemorySlot>
    ensures { result ≡ slot_of_id here (without_slot_at id slots.now) }
{
    if here == id { None } else { slots.get(here) }
}

// The slot with the ID `here`, after one was given a dirty log, or lost it.
#[tactic(auto, using(part_steps::proofs::SetWords::log_at))]
fn slot_after_log(slots: &SlotSet, id: u64, on: bool, here: u64) -> Option<MemorySlot>
    ensures { result ≡ slot_of_id here (slots_after (SetLog id on) slots.now) }
{
    let was = slots.get(here)?;
    let logged = if here == id { on } else { was.logged };
    Some(MemorySlot {
        slot: was.slot,
        logged,
    })
}

// The slot with the ID `here`, after the line has changed its slot.
fn slot_after(slots: &SlotSet, command: &Command, here: u64) -> Option<MemorySlot>
    ensures { result ≡ slot_of_id here (slots_after command.now slots.now) }
{
    match command {
        Command::SetSlot { id, slot } => slot_after_set(slots, *id, slot, here),
        Command::DeleteSlot { id } => slot_after_deletion(slots, *id, here),
        Command::SetLog { id, on } => slot_after_log(slots, *id, *on, here),
        Command::Access { .. } | Command::ChangeHost { .. } => slots.get(here),
        Command::ChangeRun { .. } | Command::Split { .. } => slots.get(here),
        Command::GetLog { .. } | Command::ClearLog { .. } | Command::Migrate { .. } => slots.get(
            here,
        ),
    }
}

/// Word j of the page of the slot set that has these slots, after the line has
/// changed its slot.
pub fn set_word(slots: &SlotSet, command: &Command, j: u64) -> u64
    ensures { result ≡ set_word (slots_after command.now slots.now) j }
{
    let slot = slot_after(slots, command, j / 4);
    word_of_slot(&slot, j % 4)
}

/// The host page behind a guest frame of the slot.
pub fn page_of(slot: &Slot, gfn: u64) -> u64
    requires { page_of slot.now gfn < 2 ^ 64 }
    ensures { result ≡ page_of slot.now gfn }
{
    slot.host + gfn.saturating_sub(slot.base)
}

/// Whether the leaf forbids writes, which slot and host allow.
pub fn is_fixable(leaf: Spte) -> bool
    ensures { result ≡ is_fixable leaf }
{
    !leaf.is_writable() && leaf.is_host_writable() && leaf.is_mmu_writable()
}

/// The leaf of a level over the run of a guest frame, from the host word of the guest
/// frame's page: with write permission, if it is asked for, where host and slot allow it.
#[tactic(auto, using(spte_words::proofs::Spans::span_positive))]
pub(crate) fn leaf_of(level: u8, gfn: u64, writes: bool, slot: &Slot, host: u64) -> u64
    requires frame { host_frame host < 2 ^ 40 }
    requires from { 1 ≤ level }
    requires to { level ≤ 4 }
    ensures { result ≡ leaf_of level gfn writes slot.now host }
{
    let host = HostWord::from_word(host);
    let writable = host.is_writable() && !slot.read_only;
    let host_allows = host.is_writable();
    let first = host.frame().saturating_sub(gfn % Spte::level_span(level));
    Spte::leaf(level, first, writes && writable, host_allows, writable).word()
}
