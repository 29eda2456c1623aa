ghost use Rattle.std.specs.Prelude.{◌≡◌};
ghost use Rattle.core_views.specs.Sizes.{AreSizes};
ghost use Rattle.part_steps.specs.Tasks.{loads, map_of};
ghost use Rattle.spte_words.specs.Areas.{IsWordMap};

use core_views::{Sizes, StepKind};
use spte_words::{Area, WordMap};

/// Where the words of a machine of these sizes stand.
#[inline(always)]
pub fn map_of(sizes: &Sizes) -> WordMap
    requires { AreSizes sizes.now }
    ensures is { result ≡ map_of sizes.now }
    ensures bounds { IsWordMap result }
{
    WordMap::new(
        sizes.pages,
        sizes.frames,
        sizes.words,
        sizes.pool,
        sizes.actors(),
    )
}

/// What a step is: its kind, its word (an area and an index there), what the
/// word is to hold before it where that matters, what is written, and whether a
/// line may end with it (1) or not (0).
#[derive(Clone, Copy)]
pub struct Task {
    pub kind: StepKind,
    pub area: Area,
    pub index: u64,
    pub expected: u64,
    pub written: u64,
    pub may_end: u64,
}

impl Task {
    /// A load of a word.
    #[inline(always)]
    pub fn load(kind: StepKind, area: Area, index: u64, may_end: u64) -> Self
        ensures { result ≡ loads kind area index may_end }
    {
        Task {
            kind,
            area,
            index,
            expected: 0,
            written: 0,
            may_end,
        }
    }
}
