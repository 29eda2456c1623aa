ghost use Rattle.std.specs.Prelude.{◌≡◌, ◌+◌, ◌≤◌, [], ℕ, true, OnOk, OnErr, Some, nat_lt};
ghost use Rattle.std.specs.Option.{option_map};
ghost use Rattle.std.specs.Result.{result_err};
ghost use Rattle.core_views.specs.Slots.{changes_fixed, contains, is_some_and, meets_guest_frames, meets_host_pages, resizes};
ghost use Rattle.core_views.specs.Slots.{share_guest_frames, share_host_pages, slot_of, slot_with_id, with_slot};
ghost use Rattle.core_views.specs.SlotSets.{IsSlotSet, flat_slots, slot_of_id, slot_holding, without_slot_at};
ghost use Rattle.core_views.specs.Refusals.{after_log, after_set, delete_refusal, is_logged, log_refusal, moves_logged, set_refusal, slot_from};
ghost use Rattle.core_views.specs.SlotCommands.{stays};
ghost use Rattle.core_views.specs.Migrations.{are_logged, has_no_slot};
ghost use Rattle.core_views.specs.declared.memory_slot.MemorySlot.{MemorySlot};

use core_views::{MemorySlot, Refusal, SLOTS, Slot};
use std::marker::Model;

/// How many guest frames there are.
const GUEST_FRAMES: u64 = 1 << 36;

/// A set of memory slots (KVM's api.rst, `KVM_SET_USER_MEMORY_REGION`), each
/// with its ID, 0 to 31. No two of them have a guest frame in common, or a host
/// page.
#[derive(Clone, Copy, PartialEq, Eq, Drop)]
pub struct SlotSet {
    places: [Option<MemorySlot>; 32],
}

impl Model for SlotSet {
    ghost use Rattle.std.specs.Prelude.{◌≡◌, length};
    ghost use Rattle.core_views.specs.SlotSets.{MemorySlots, IsSlotSet};
    ghost use Rattle.core_views.specs.Places.{places_of, slots_from};

    ghost Value = { MemorySlots };

    ghost view = { λ s. slots_from 0 s.places };

    ghost invariant = { λ s. (length s.places ≡ 32) × IsSlotSet (slots_from 0 s.places) };

    ghost inverse = { λ slots. record { places = places_of slots } };

    ghost use Rattle.std.proofs.Common.{ap};
    ghost use Rattle.core_views.specs.Places.{places_back};

    ghost inverse_ok = { λ a h. ap (λ places. record { places = places }) (places_back a.places h.0) };
}

// Whether so many from the first on reach past the end.
fn reaches_past(end: u64, first: u64, count: u64) -> bool
    ensures { result ≡ nat_lt end (first + count) }
{
    count > end || first > end - count
}

// Whether two slots have a guest frame in common.
fn share_guest_frames(a: &Slot, b: &Slot) -> bool
    ensures { result ≡ share_guest_frames a.now b.now }
{
    b.contains(a.base) || a.contains(b.base)
}

// Whether two slots have a host page in common.
fn share_host_pages(a: &Slot, b: &Slot) -> bool
    ensures { result ≡ share_host_pages a.now b.now }
{
    b.has_host_page(a.host) || a.has_host_page(b.host)
}

// Whether a slot was there, with another number of pages.
fn resizes(slot: &Slot, was: Option<MemorySlot>) -> bool
    ensures { result ≡ is_some_and (resizes slot.now) (option_map (λ was. was.slot) was) }
{
    was.is_some_and(|was| was.slot.pages != slot.pages)
}

// Whether a slot was there, with other host pages, or other rights.
fn changes_fixed(slot: &Slot, was: Option<MemorySlot>) -> bool
    ensures { result ≡ is_some_and (changes_fixed slot.now) (option_map (λ was. was.slot) was) }
{
    was.is_some_and(|was| was.slot.host != slot.host || was.slot.read_only != slot.read_only)
}

// Whether a slot with a dirty log was there, with another first guest frame.
fn moves_logged(slot: &Slot, was: Option<MemorySlot>) -> bool
    ensures { result ≡ is_some_and (moves_logged slot.now) was }
{
    was.is_some_and(|was| was.logged && was.slot.base != slot.base)
}

impl SlotSet {
    /// A set with no slot.
    pub fn empty() -> Self
        ensures { result ≡ [] }
    {
        SlotSet { places: [None; 32] }
    }

    /// The slot with this ID, which may be any number. Every set is sound: no
    /// two of its slots meet, and each lies below 2^36.
    pub fn get(&self, id: u64) -> Option<MemorySlot>
        ensures is { result ≡ slot_of_id id self.now }
        ensures flat { option_map (λ m. m.slot) result ≡ slot_with_id id (flat_slots self.now) }
        ensures sound { IsSlotSet self.now }
    {
        *self.places.get(id as usize)?
    }

    /// The slot that contains the guest frame, with its ID.
    pub fn slot_of(&self, gfn: u64) -> Option<(u64, MemorySlot)>
        ensures is { result ≡ slot_holding gfn self.now }
        ensures only { (id : ℕ) (m : MemorySlot) → slot_of_id id self.now ≡ Some m → contains gfn m.slot ≡ true → result ≡ Some (id, m) }
        ensures flat { option_map (λ found. found.1.slot) result ≡ slot_of (flat_slots self.now) gfn }
    {
        for (id, place) in self.places.iter().enumerate() {
            if let Some(found) = place
                && found.slot.contains(gfn)
            {
                return Some((id as u64, *found));
            }
        }
        None
    }

    /// Sets the slot with this ID: guest frames `base` up to `base + pages` are
    /// the host pages from `host` on, of `total` that the machine has; with `ro`
    /// guest writes leave the guest (`KVM_MEM_READONLY`). `pages` is at least 1,
    /// the other numbers may be any.
    ///
    /// A slot that was there may be moved to another `base`, and keeps its dirty
    /// log. Refused, with the set as it was, for the first of these that holds:
    /// `BadId` where the ID is above 31; `TooLarge` where the slot reaches past
    /// 2^36 guest frames or past the host pages; `Resize`, `Fixed` or `Logged`
    /// where a slot was there with other `pages`, with another `host` or `ro`,
    /// or with a dirty log at another `base`; `Overlap` and `HostOverlap` where
    /// another slot has a guest frame or a host page of it.
    pub fn set(
        &mut self,
        id: u64,
        base: u64,
        pages: u64,
        host: u64,
        ro: bool,
        total: u64,
    ) -> Result<(), Refusal>
        requires { 1 ≤ pages }
        ensures refusal { result_err result ≡ set_refusal total id (slot_from base pages host ro) self.old }
        ensures refused { OnErr result (self.new ≡ self.old) }
        ensures set { OnOk result (self.new ≡ after_set id (slot_from base pages host ro) self.old) }
        ensures flat { OnOk result (flat_slots self.new ≡ with_slot id (slot_from base pages host ro) (flat_slots self.old)) }
    {
        let slot = Slot {
            base,
            pages,
            host,
            read_only: ro,
        };
        self.check_set(id, &slot, total)?;
        let logged = self.is_logged(id);
        self.places[id as usize] = Some(MemorySlot { slot, logged });
        Ok(())
    }

    /// Deletes the slot with this ID. Refused, with the set as it was: `BadId`
    /// where the ID is above 31, else `Missing` where no slot has it, else
    /// `Logged` where the slot has a dirty log.
    pub fn delete(&mut self, id: u64) -> Result<(), Refusal>
        ensures refusal { result_err result ≡ delete_refusal id self.old }
        ensures refused { OnErr result (self.new ≡ self.old) }
        ensures deleted { OnOk result (self.new ≡ without_slot_at id self.old) }
    {
        self.check_delete(id)?;
        self.places[id as usize] = None;
        Ok(())
    }

    /// Gives the slot with this ID a dirty log, or takes it away
    /// (`KVM_MEM_LOG_DIRTY_PAGES`). Refused, with the set as it was: `Missing`
    /// where no slot has the ID, else `Logged` or `NoLog` where the slot has a
    /// dirty log, or has none, already.
    pub fn with_log(&mut self, id: u64, on: bool) -> Result<(), Refusal>
        ensures refusal { result_err result ≡ log_refusal on id self.old }
        ensures refused { OnErr result (self.new ≡ self.old) }
        ensures set { OnOk result (self.new ≡ after_log on id self.old) }
        ensures flat { flat_slots self.new ≡ flat_slots self.old }
    {
        self.check_log(id, on)?;
        if let Some(slot) = self.get(id) {
            self.places[id as usize] = Some(MemorySlot {
                slot: slot.slot,
                logged: on,
            });
        }
        Ok(())
    }

    /// What `set` would refuse this slot for, and nothing where it would set it.
    pub fn check_set(&self, id: u64, slot: &Slot, total: u64) -> Result<(), Refusal>
        ensures { result_err result ≡ set_refusal total id slot.now self.now }
    {
        if id >= SLOTS {
            return Err(Refusal::BadId);
        }
        if reaches_past(GUEST_FRAMES, slot.base, slot.pages)
            || reaches_past(total, slot.host, slot.pages)
        {
            return Err(Refusal::TooLarge);
        }
        let was = self.get(id);
        if resizes(slot, was) {
            return Err(Refusal::Resize);
        }
        if changes_fixed(slot, was) {
            return Err(Refusal::Fixed);
        }
        if moves_logged(slot, was) {
            return Err(Refusal::Logged);
        }
        if self.meets_guest_frames(id, slot) {
            return Err(Refusal::Overlap);
        }
        if self.meets_host_pages(id, slot) {
            return Err(Refusal::HostOverlap);
        }
        Ok(())
    }

    /// What `delete` would refuse, and nothing where it would delete the slot.
    pub fn check_delete(&self, id: u64) -> Result<(), Refusal>
        ensures { result_err result ≡ delete_refusal id self.now }
    {
        if id >= SLOTS {
            return Err(Refusal::BadId);
        }
        let Some(slot) = self.get(id) else {
            return Err(Refusal::Missing);
        };
        if slot.logged {
            return Err(Refusal::Logged);
        }
        Ok(())
    }

    /// What `with_log` would refuse, and nothing where it would change the slot's log.
    pub fn check_log(&self, id: u64, on: bool) -> Result<(), Refusal>
        ensures { result_err result ≡ log_refusal on id self.now }
    {
        let Some(slot) = self.get(id) else {
            return Err(Refusal::Missing);
        };
        if slot.logged == on {
            return Err(if on { Refusal::Logged } else { Refusal::NoLog });
        }
        Ok(())
    }

    /// Whether each slot has a dirty log.
    pub fn are_logged(&self) -> bool
        ensures { result ≡ are_logged self.now }
    {
        for (at, place) in self.places.iter().enumerate() {
            if let Some(slot) = place
                && !slot.logged
            {
                return false;
            }
        }
        true
    }

    /// Whether there is no slot.
    pub fn is_empty(&self) -> bool
        ensures { result ≡ has_no_slot self.now }
    {
        for (at, place) in self.places.iter().enumerate() {
            if place.is_some() {
                return false;
            }
        }
        true
    }

    /// Whether a slot with this ID is there, with the same first guest frame.
    pub fn stays(&self, id: u64, slot: &Slot) -> bool
        ensures { result ≡ is_some_and (stays slot.now) (slot_with_id id (flat_slots self.now)) }
    {
        self.get(id).is_some_and(|was| was.slot.base == slot.base)
    }

    // Whether the slot with this ID, if there is one, has a dirty log.
    fn is_logged(&self, id: u64) -> bool
        ensures { result ≡ is_logged id self.now }
    {
        self.get(id).is_some_and(|slot| slot.logged)
    }

    // Whether a slot with another ID has a guest frame of this one.
    fn meets_guest_frames(&self, id: u64, slot: &Slot) -> bool
        ensures { result ≡ meets_guest_frames id slot.now (flat_slots self.now) }
    {
        for (at, place) in self.places.iter().enumerate() {
            if let Some(other) = place
                && at as u64 != id
                && share_guest_frames(slot, &other.slot)
            {
                return true;
            }
        }
        false
    }

    // Whether a slot with another ID has a host page of this one.
    fn meets_host_pages(&self, id: u64, slot: &Slot) -> bool
        ensures { result ≡ meets_host_pages id slot.now (flat_slots self.now) }
    {
        for (at, place) in self.places.iter().enumerate() {
            if let Some(other) = place
                && at as u64 != id
                && share_host_pages(slot, &other.slot)
            {
                return true;
            }
        }
        false
    }
}
