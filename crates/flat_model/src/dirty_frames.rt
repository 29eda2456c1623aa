ghost use Rattle.std.specs.Prelude.{◌≡◌, ◌+◌, ◌*◌, ◌^◌, ◌≤◌, ◌==◌, ◌&&◌, ◌||◌, ℕ, nat_le, nat_lt, not, [], All, IfOk, IfSome, OnOk, OnErr, Some, true};
ghost use Rattle.std.specs.BTreeMap.{is_at};
ghost use Rattle.std.specs.Bool.{OnFalse, OnTrue};
ghost use Rattle.std.specs.Ordering.{nat_cmp};
ghost use Rattle.std.specs.Set.{remove_key};
ghost use Rattle.core_views.specs.Events.{unlogged};
ghost use Rattle.core_views.specs.LogCommands.{IsReadOf, asked_frames, bits_for};
ghost use Rattle.core_views.specs.Past.{has_gfn};
ghost use Rattle.flat_model.specs.Copying.{IsBelow, is_held};
ghost use Rattle.flat_model.specs.Dirty.{dirty_by, is_bit_set, is_dirty, left_dirty, with_slot_dirty, word_of};

use core_views::{Command, MemorySlot, NoMemory, Words};
use hands::SlotSet;
use std::alloc::Global;
use std::collections::BTreeSet;
use std::marker::Model;

/// The guest frames that are dirty: each was written while its slot had a dirty log, or was dirty as
/// this log began, and was not taken out of the log since.
#[derive(Drop)]
pub struct DirtyFrames {
    frames: BTreeSet<u64>,
}

impl Model for DirtyFrames {
    ghost use Rattle.std.specs.Prelude.{List, ℕ};

    ghost Value = { List ℕ };

    ghost view = { λ d. d.frames.keys };
}

// Whether there is a slot, and it has the guest frame.
fn has_gfn(slot: &Option<MemorySlot>, gfn: u64) -> bool
    ensures { result ≡ has_gfn slot.now gfn }
{
    match slot {
        Some(found) => found.slot.contains(gfn),
        None => false,
    }
}

// Puts so many frames into the set, from the first on.
fn insert_range(frames: &mut BTreeSet<u64>, first: u64, count: u64) -> Result<(), NoMemory>
    requires { first + count ≤ 2 ^ 36 }
    ensures { OnOk result ((gfn : ℕ) →
        is_dirty frames.new.keys gfn ≡ ((nat_le first gfn && nat_lt gfn (first + count)) || is_dirty frames.old.keys gfn)) }
{
    for gfn in first..first + count {
        frames.insert(gfn)?;
    }
    Ok(())
}

impl DirtyFrames {
    /// No frame is dirty.
    pub fn none(alloc: Global) -> Self
        ensures { result ≡ [] }
    {
        DirtyFrames {
            frames: BTreeSet::new(alloc),
        }
    }

    /// Makes this frame dirty, if its writes are logged, and says whether that has changed it.
    /// Where memory is refused, nothing has changed.
    pub fn add(&mut self, gfn: u64, logged: bool) -> Result<bool, NoMemory>
        ensures dirty { OnOk result ((other : ℕ) → is_dirty self.new other ≡ ((logged && (gfn == other)) || is_dirty self.old other)) }
        ensures undone { IfOk result (λ added. OnTrue added (remove_key (is_at (nat_cmp gfn)) self.new ≡ self.old)) }
        ensures unchanged { IfOk result (λ added. OnFalse added (self.new ≡ self.old)) }
        ensures kept { OnErr result (self.new ≡ self.old) }
    {
        if !logged {
            return Ok(false);
        }
        Ok(self.frames.insert(gfn)?)
    }

    /// Makes this frame clean.
    pub fn remove(&mut self, gfn: u64)
        ensures { self.new ≡ remove_key (is_at (nat_cmp gfn)) self.old }
    {
        self.frames.remove(&gfn);
    }

    /// Follows a change of a slot that was there, if one was, to the one that is there now, if
    /// one is: their frames are clean then, or, with `all`, those of the new slot are dirty.
    /// Where memory is refused, nothing has changed.
    pub fn change_slot(
        &mut self,
        all: bool,
        was: &Option<MemorySlot>,
        now: &Option<MemorySlot>,
    ) -> Result<(), NoMemory>
        requires { IfSome now.now (λ found. found.slot.base + found.slot.pages ≤ 2 ^ 36) }
        ensures dirty { OnOk result ((gfn : ℕ) → is_dirty self.new gfn ≡ dirty_by all was.now now.now (is_dirty self.old) gfn) }
        ensures kept { OnErr result (self.new ≡ self.old) }
    {
        if all {
            self.add_slot(now)
        } else {
            self.forget(was, now);
            Ok(())
        }
    }

    // Makes all frames of the slot dirty. Where memory is refused, nothing has changed.
    fn add_slot(&mut self, slot: &Option<MemorySlot>) -> Result<(), NoMemory>
        requires { IfSome slot.now (λ found. found.slot.base + found.slot.pages ≤ 2 ^ 36) }
        ensures dirty { OnOk result ((gfn : ℕ) → is_dirty self.new gfn ≡ with_slot_dirty slot.now (is_dirty self.old) gfn) }
        ensures kept { OnErr result (self.new ≡ self.old) }
    {
        match slot {
            Some(found) => self.add_frames(found.slot.base, found.slot.pages),
            None => Ok(()),
        }
    }

    /// All frames of these slots.
    pub fn of_slots(alloc: Global, slots: &[(u64, MemorySlot)]) -> Result<Self, NoMemory>
        requires { All IsBelow slots.now }
        ensures { IfOk result (λ frames. (gfn : ℕ) → is_dirty frames gfn ≡ is_held slots.now gfn) }
    {
        let mut frames = BTreeSet::new(alloc);
        let mut rest = slots;
        while let Some((entry, more)) = rest.split_first() {
            insert_range(&mut frames, entry.1.slot.base, entry.1.slot.pages)?;
            rest = more;
        }
        Ok(DirtyFrames { frames })
    }

    /// Whether this frame is dirty.
    pub fn contains(&self, gfn: u64) -> bool
        ensures { result ≡ is_dirty self.now gfn }
    {
        self.frames.contains(&gfn)
    }

    /// Makes all frames of these slots clean.
    pub fn leave(&mut self, slots: &SlotSet)
        ensures { (gfn : ℕ) → is_dirty self.new gfn ≡ (not (is_held slots.now gfn) && is_dirty self.old gfn) }
    {
        self.frames.retain(|gfn| slots.slot_of(*gfn).is_none());
    }

    // Makes so many frames dirty, from the first on. Where memory is refused, nothing has
    // changed.
    fn add_frames(&mut self, first: u64, count: u64) -> Result<(), NoMemory>
        requires { first + count ≤ 2 ^ 36 }
        ensures dirty { OnOk result ((gfn : ℕ) → is_dirty self.new gfn ≡ ((nat_le first gfn && nat_lt gfn (first + count)) || is_dirty self.old gfn)) }
        ensures kept { OnErr result (self.new ≡ self.old) }
    {
        let mut frames = self.frames.clone()?;
        insert_range(&mut frames, first, count)?;
        self.frames = frames;
        Ok(())
    }

    // Makes the frames clean of the slot that was there, and of the one that is there now.
    fn forget(&mut self, was: &Option<MemorySlot>, now: &Option<MemorySlot>)
        ensures { (gfn : ℕ) → is_dirty self.new gfn ≡ unlogged was.now now.now (is_dirty self.old) gfn }
    {
        self.frames
            .retain(|gfn| !(has_gfn(was, *gfn) || has_gfn(now, *gfn)));
    }

    /// Makes those frames of the slot clean for which the line asks.
    pub fn take_out(&mut self, command: &Command, slot: &MemorySlot)
        ensures { (gfn : ℕ) → is_dirty self.new gfn ≡ left_dirty true (asked_frames (is_dirty self.old) command.now (Some slot.now)) (is_dirty self.old) gfn }
    {
        let slot = slot.slot;
        self.frames.retain(|gfn| !(slot.contains(*gfn) && command.asks_for(*gfn - slot.base)));
    }

    /// The dirty frames of the slot for which the line asks, as words of its log.
    pub fn words(
        &self,
        alloc: Global,
        command: &Command,
        slot: &MemorySlot,
    ) -> Result<Words, NoMemory>
        requires { IsReadOf command.now slot.now.slot }
        ensures { IfOk result (λ words. words ≡ bits_for command.now (Some slot.now) (asked_frames (is_dirty self.now) command.now (Some slot.now))) }
    {
        let count = (command.count_asked(&slot.slot) + 63) / 64;
        let mut words = Vec::with_capacity(alloc, count as usize)?;
        for word in 0..count {
            words.push(self.word(command, slot, 64 * word))?;
        }
        Ok(Words::from_vec(words))
    }

    // The word of the log with the 64 bits from this one on.
    fn word(&self, command: &Command, slot: &MemorySlot, first: u64) -> u64
        requires fits { IsReadOf command.now slot.now.slot }
        requires small { first ≤ 2 ^ 37 }
        ensures { result ≡ word_of (λ bit. is_bit_set (is_dirty self.now) command.now slot.now (first + bit)) }
    {
        let mut number = 0;
        for done in 0..64 {
            let bit = first + (63 - done);
            number = 2 * number + u64::from(self.is_bit_set(command, slot, bit));
        }
        number
    }

    // Whether this bit of the log is asked for, and its frame dirty.
    fn is_bit_set(&self, command: &Command, slot: &MemorySlot, bit: u64) -> bool
        requires { IsReadOf command.now slot.now.slot }
        ensures { result ≡ is_bit_set (is_dirty self.now) command.now slot.now bit }
    {
        if bit >= command.count_asked(&slot.slot) {
            return false;
        }
        let page = command.first_asked() + bit;
        command.asks_for(page) && self.frames.contains(&(slot.slot.base + page))
    }
}
