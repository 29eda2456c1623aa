ghost use Rattle.std.specs.Prelude.{◌≡◌, ◌++◌, OnOk, string_bytes};
ghost use Rattle.step_text.specs.Rows.{item_text, rounds_text};

use core_views::{Item, NoMemory, Until};
use trace_reader::kind_name;

/// Puts the line of a schedule item after a text, as a trace has it, with its LF.
pub fn push_item(text: &mut String, item: &Item) -> Result<(), NoMemory>
    ensures { OnOk result (string_bytes text.new ≡ string_bytes text.old ++ item_text item.now) }
{
    let actor = item.actor;
    match item.until {
        Until::Turns(count) => write!(text, "> {actor} {count}\n")?,
        Until::Answered => write!(text, "> {actor} end\n")?,
        Until::Made(code) => {
            let kind = kind_name(code);
            write!(text, "> {actor} {kind}\n")?
        }
    }
    Ok(())
}

/// Puts the line after a text that says that the rounds begin.
pub fn push_rounds(text: &mut String) -> Result<(), NoMemory>
    ensures { OnOk result (string_bytes text.new ≡ string_bytes text.old ++ rounds_text) }
{
    write!(text, "rounds\n")?;
    Ok(())
}
