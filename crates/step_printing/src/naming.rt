//! Which word of the machine a name is of.
ghost use Rattle.std.specs.Prelude.{◌≡◌, IfOk};
ghost use Rattle.core_views.specs.Sizes.{AreSizes};
ghost use Rattle.step_printing.specs.Naming.{IsWordNamed};

use crate::row::place_in;
use core_views::{NoMemory, Sizes};
use part_steps::map_of;
use std::alloc::Global;
use step_text::{WordPlace, push_words};

/// The word of the machine that has this name, if one has.
pub fn word_named(alloc: Global, sizes: &Sizes, name: &str) -> Result<Option<WordPlace>, NoMemory>
    requires { AreSizes sizes.now }
    ensures { IfOk result (λ place. IsWordNamed sizes.now name.now place) }
{
    let map = map_of(sizes);
    let mut text = String::new(alloc);
    for word in 0..map.total() {
        let place = place_in(&map, word);
        text.clear();
        push_words(&mut text, sizes, place, 1)?;
        if text.as_str() == name {
            return Ok(Some(place));
        }
    }
    Ok(None)
}
