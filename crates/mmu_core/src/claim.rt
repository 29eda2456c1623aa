//! What is claimed, and what a claim of it comes to: the steps of a claim are those of
//! several kinds of line.
ghost use Rattle.std.specs.Prelude.{◌≡◌, ◌<◌, ◌^◌};
ghost use Rattle.core_views.specs.Sizes.{AreSizes};
ghost use Rattle.mmu_core.specs.orders.ClaimSteps.{claim_over, load_part, map_area, map_words, try_part};

use core_views::{MapClaim, Sizes, Topics};
use part_steps::{PartStep, map_of};
use spte_words::Area;

/// A map of bits, one for each thing that may be claimed, set where this is free.
#[derive(Clone, Copy)]
pub enum FreeMap {
    /// That of the pages of the pool.
    Pages,
    /// That of the frames of the host.
    Frames,
}

impl FreeMap {
    /// The area of its words.
    pub fn area(self) -> Area
        ensures { result ≡ map_area self }
    {
        match self {
            FreeMap::Pages => Area::PoolMap,
            FreeMap::Frames => Area::FrameMap,
        }
    }

    /// How many words it has.
    pub fn words(self, sizes: &Sizes) -> u64
        requires { AreSizes sizes.now }
        ensures is { result ≡ map_words self sizes.now }
        ensures few { result < 2 ^ 32 }
    {
        map_of(sizes).size_of(self.area()) as u64
    }

    /// What an actor holds of its claim in it.
    pub fn claim_of(self, topics: &Topics) -> MapClaim
        ensures { result ≡ claim_over self topics.now }
    {
        match self {
            FreeMap::Pages => topics.claim,
            FreeMap::Frames => topics.frames.claim,
        }
    }

    /// The step that loads this word of it.
    pub fn load_part(self, word: u64) -> PartStep
        ensures { result ≡ load_part self word }
    {
        match self {
            FreeMap::Pages => PartStep::Map(word),
            FreeMap::Frames => PartStep::FrameMap(word),
        }
    }

    /// The step that tries one of those seen free in the word loaded last.
    pub fn try_part(self) -> PartStep
        ensures { result ≡ try_part self }
    {
        match self {
            FreeMap::Pages => PartStep::Claim,
            FreeMap::Frames => PartStep::Frame,
        }
    }
}

/// What a claim comes to with one of its steps.
#[derive(Clone, Copy)]
pub enum ClaimNext {
    /// It goes on.
    Goes,
    /// It has got a page or a frame, which is to be filled.
    Got,
    /// No word of the map had one free.
    Empty,
}
