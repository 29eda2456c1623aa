ghost use Rattle.std.specs.Prelude.{◌≡◌, ◌&&◌, ℕ, not, [], All, IfOk, OnErr, OnOk};
ghost use Rattle.core_views.specs.declared.migration.Migration.TheVariants.{Running, Unstarted};
ghost use Rattle.flat_model.specs.Copying.{IsBelow, is_held};
ghost use Rattle.flat_model.specs.Dirty.{is_dirty};

use crate::dirty_frames::DirtyFrames;
use core_views::{MemorySlot, Migration, NoMemory};
use hands::SlotSet;
use std::alloc::Global;
use std::collections::HashMap;
use std::marker::Model;

/// How far the migration of the guest has come: the content words that it has copied, by host
/// page and word, and the guest frames that are yet to be copied.
#[derive(Drop)]
pub struct Copies {
    state: Migration,
    image: HashMap<(u64, u8), u64>,
    to_copy: DirtyFrames,
}

impl Model for Copies {
    ghost use Rattle.flat_model.specs.Kept.{CopiesKept};

    ghost Value = { CopiesKept };

    ghost view = { λ c. record { state = c.state; image = c.image.entries; to_copy = c.to_copy } };
}

impl Copies {
    /// No migration was started.
    pub fn none(alloc: Global) -> Self
        ensures { result ≡ record { state = Unstarted; image = []; to_copy = [] } }
    {
        Copies {
            state: Migration::Unstarted,
            image: HashMap::new(alloc),
            to_copy: DirtyFrames::none(alloc),
        }
    }

    /// How far the migration has come.
    pub fn state(&self) -> Migration
        ensures { result ≡ self.now.state }
    {
        self.state
    }

    /// The words that were copied.
    pub fn image(&self) -> &HashMap<(u64, u8), u64>
        ensures { result.now.entries ≡ self.now.image }
    {
        &self.image
    }

    /// The guest frames that are yet to be copied.
    pub fn to_copy(&self) -> &DirtyFrames
        ensures { result.now ≡ self.now.to_copy }
    {
        &self.to_copy
    }

    /// Starts the migration: each frame of these slots is to be copied. Where memory is
    /// refused, nothing has changed.
    pub fn start(&mut self, alloc: Global, slots: &[(u64, MemorySlot)]) -> Result<(), NoMemory>
        requires { All IsBelow slots.now }
        ensures state { OnOk result (self.new.state ≡ Running) }
        ensures image { self.new.image ≡ self.old.image }
        ensures to_copy { OnOk result ((gfn : ℕ) → is_dirty self.new.to_copy gfn ≡ is_held slots.now gfn) }
        ensures kept { OnErr result (self.new ≡ self.old) }
    {
        self.to_copy = DirtyFrames::of_slots(alloc, slots)?;
        self.state = Migration::Running;
        Ok(())
    }

    /// Ends the migration.
    pub fn resume(&mut self)
        ensures { self.new ≡ record self.old { state = Unstarted } }
    {
        self.state = Migration::Unstarted;
    }

    /// The frames of the slots are copied, into this image, and the migration has come so far.
    pub fn copied(&mut self, state: Migration, image: HashMap<(u64, u8), u64>, slots: &SlotSet)
        ensures state { self.new.state ≡ state }
        ensures image { self.new.image ≡ image.entries }
        ensures to_copy { (gfn : ℕ) → is_dirty self.new.to_copy gfn ≡ (not (is_held slots.now gfn) && is_dirty self.old.to_copy gfn) }
    {
        self.state = state;
        self.image = image;
        self.to_copy.leave(slots);
    }
}
