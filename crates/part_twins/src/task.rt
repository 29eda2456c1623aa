ghost use Rattle.std.specs.Prelude.{◌≡◌, ◌<◌};
ghost use Rattle.core_views.specs.Sizes.{AreSizes};
ghost use Rattle.part_steps.specs.Tasks.{kind_of_task, map_of};
ghost use Rattle.spte_words.specs.Areas.{size_of, total};

use core_views::{Kind, Sizes};
use part_steps::{Task, map_of};

/// The step as the words of the machine see it.
#[inline(always)]
pub fn kind_of(sizes: &Sizes, task: &Task) -> Kind
    requires sizes { AreSizes sizes.now }
    requires within { task.now.index < size_of (map_of sizes.now) task.now.area }
    ensures is { result ≡ kind_of_task sizes.now task.now }
    ensures inside { result.word < total (map_of sizes.now) }
{
    Kind {
        code: task.kind.code(),
        word: map_of(sizes).word_of(task.area, task.index),
        old: task.expected,
        new: task.written,
        note: task.may_end,
    }
}
