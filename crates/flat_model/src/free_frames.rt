ghost use Rattle.std.specs.Prelude.{◌≡◌, ◌<◌, ◌≤◌, ◌==◌, ◌&&◌, ◌||◌, ℕ, not, [], true, false, OnOk, OnErr};
ghost use Rattle.flat_model.specs.Frames.{is_spare};

use core_views::NoMemory;
use std::alloc::Global;
use std::collections::BTreeSet;
use std::marker::Model;

/// The frames that no host page names. What its methods cost grows with the
/// logarithm of the frames that were given up.
#[derive(Drop)]
pub struct FreeFrames {
    /// Those below `unused`.
    given_up: BTreeSet<u64>,
    /// The first frame that no page has named yet: all from it on are free.
    unused: u64,
}

impl Model for FreeFrames {
    ghost use Rattle.std.specs.Prelude.{◌<◌, All};
    ghost use Rattle.flat_model.specs.Frames.{Frames};

    ghost Value = { Frames };

    ghost view = { λ f. record { given_up = f.given_up.keys; unused = f.unused } };

    ghost invariant = { λ f. All (λ frame. frame < f.unused) f.given_up.keys };
}

impl FreeFrames {
    /// All numbers from this one on.
    pub fn starting_at(alloc: Global, unused: u64) -> Self
        ensures { result ≡ record { given_up = []; unused = unused } }
    {
        FreeFrames {
            given_up: BTreeSet::new(alloc),
            unused,
        }
    }

    /// The lowest free one.
    pub fn lowest(&self) -> u64
        ensures free { is_spare self.now result ≡ true }
        ensures lowest { (frame : ℕ) → frame < result → is_spare self.now frame ≡ false }
        ensures bound { result ≤ self.now.unused }
    {
        match self.given_up.first() {
            Some(frame) => *frame,
            None => self.unused,
        }
    }

    /// Makes this one free, which some page named. Where memory is refused,
    /// nothing has changed.
    pub fn give(&mut self, frame: u64) -> Result<(), NoMemory>
        requires { frame < self.old.unused }
        ensures free { OnOk result ((other : ℕ) → is_spare self.new other ≡ ((other == frame) || is_spare self.old other)) }
        ensures unused { self.new.unused ≡ self.old.unused }
        ensures kept { OnErr result (self.new ≡ self.old) }
    {
        self.given_up.insert(frame)?;
        Ok(())
    }

    /// Takes this one, which is free.
    pub fn take(&mut self, frame: u64)
        requires free { is_spare self.old frame ≡ true }
        requires bound { frame ≤ self.old.unused }
        requires room { frame < u64.MAX }
        ensures { (other : ℕ) → is_spare self.new other ≡ (not (other == frame) && is_spare self.old other) }
    {
        if !self.given_up.remove(&frame) {
            self.unused += 1;
        }
    }
}
