//! Which guest frames a migration copies, and the image that it has made.
ghost use Rattle.std.specs.Prelude.{◌≡◌, ◌+◌, ◌*◌, ◌-◌, ◌^◌, ◌≤◌, ◌<◌, ◌++◌, ℕ, All, IfOk, OnOk, filter};
ghost use Rattle.core_views.specs.Migrations.{frames_in, frames_to_copy, image_words, page_words, slot_words};
ghost use Rattle.core_views.specs.SlotSets.{IsSlotSet};
ghost use Rattle.flat_model.specs.Copying.{FitsIn, IsBelow, is_either, is_printed};
ghost use Rattle.flat_model.specs.Kept.{memory_of};

use crate::dirty_frames::DirtyFrames;
use core_views::{Image, ImageWord, MemorySlot, NoMemory, SLOTS, Slot};
use hands::SlotSet;
use std::alloc::Global;
use std::collections::HashMap;

/// The slots of the set, each with its ID, by rising ID.
pub fn slots_by_id(alloc: Global, slots: &SlotSet) -> Result<Vec<(u64, MemorySlot)>, NoMemory>
    ensures slots { IfOk result (λ found. found.items ≡ slots.now) }
    ensures below { IfOk result (λ found. All IsBelow found.items) }
    ensures sound { OnOk result (IsSlotSet slots.now) }
{
    let mut found = Vec::new(alloc);
    for id in 0..SLOTS {
        if let Some(slot) = slots.get(id) {
            found.push((id, slot))?;
        }
    }
    Ok(found)
}

/// The guest frames of the slots that are in one of these sets, slot by slot.
pub fn frames_to_copy(
    alloc: Global,
    slots: &[(u64, MemorySlot)],
    dirty: &DirtyFrames,
    to_copy: &DirtyFrames,
) -> Result<Vec<u64>, NoMemory>
    requires { All IsBelow slots.now }
    ensures { IfOk result (λ frames. frames.items ≡ frames_to_copy (is_either dirty.now to_copy.now) slots.now) }
{
    let mut frames = Vec::new(alloc);
    let mut rest = slots;
    while let Some((entry, more)) = rest.split_first() {
        push_frames(&mut frames, entry, dirty, to_copy)?;
        rest = more;
    }
    Ok(frames)
}

// Puts the guest frames of the slot that are in one of these sets after those that are there.
fn push_frames(
    frames: &mut Vec<u64>,
    entry: &(u64, MemorySlot),
    dirty: &DirtyFrames,
    to_copy: &DirtyFrames,
) -> Result<(), NoMemory>
    requires { IsBelow entry.now }
    ensures { OnOk result (frames.new.items ≡ frames.old.items ++ frames_in (is_either dirty.now to_copy.now) entry.now.1) }
{
    let slot = entry.1.slot;
    for gfn in slot.base..slot.base + slot.pages {
        if dirty.contains(gfn) || to_copy.contains(gfn) {
            frames.push(gfn)?;
        }
    }
    Ok(())
}

/// The words of the image that aren't 0, in the order of slots, pages and words.
pub fn image_words(
    alloc: Global,
    slots: &[(u64, MemorySlot)],
    words: u8,
    image: &HashMap<(u64, u8), u64>,
) -> Result<Image, NoMemory>
    requires { All (FitsIn (2 ^ 64 - 1)) slots.now }
    ensures { IfOk result (λ found. found ≡ image_words words (memory_of image.now.entries) slots.now) }
{
    let mut found = Vec::new(alloc);
    let mut rest = slots;
    while let Some((entry, more)) = rest.split_first() {
        push_slot(&mut found, entry, words, image)?;
        rest = more;
    }
    Ok(Image::from_vec(found))
}

// Puts the words of the slot that aren't 0 after those that are there.
fn push_slot(
    found: &mut Vec<ImageWord>,
    entry: &(u64, MemorySlot),
    words: u8,
    image: &HashMap<(u64, u8), u64>,
) -> Result<(), NoMemory>
    requires { FitsIn (2 ^ 64 - 1) entry.now }
    ensures { OnOk result (found.new.items
        ≡ found.old.items ++ filter is_printed (slot_words words (memory_of image.now.entries) entry.now.0 entry.now.1.slot)) }
{
    let (id, MemorySlot { slot, .. }) = *entry;
    for page in 0..slot.pages {
        push_page(found, (id, page), slot.host + page, words, image)?;
    }
    Ok(())
}

// Puts the words of the page of a slot that aren't 0 after those that are there.
fn push_page(
    found: &mut Vec<ImageWord>,
    place: (u64, u64),
    host_page: u64,
    words: u8,
    image: &HashMap<(u64, u8), u64>,
) -> Result<(), NoMemory>
    ensures { OnOk result (found.new.items
        ≡ found.old.items ++ filter is_printed (page_words words place.0 place.1 (memory_of image.now.entries host_page))) }
{
    let (id, page) = place;
    for word in 0..words {
        let value = image.get(&(host_page, word)).copied().unwrap_or(0);
        if value != 0 {
            found.push(ImageWord {
                id,
                page,
                word,
                value,
            })?;
        }
    }
    Ok(())
}
