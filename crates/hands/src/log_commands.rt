//! What a line reads of a dirty log, and why it may not.
ghost use Rattle.std.specs.Prelude.{◌≡◌, IfOk, Some};
ghost use Rattle.std.specs.Result.{result_err};
ghost use Rattle.core_views.specs.LogCommands.{IsReadOf, is_bad_range, log_read};
ghost use Rattle.core_views.specs.LogCommands.{read_refusal};
ghost use Rattle.core_views.specs.SlotSets.{slot_of_id};

use crate::SlotSet;
use core_views::{Command, MemorySlot, Refusal, WORD_PAGES};

// Whether these pages aren't whole words of the log of a slot with so many pages.
fn is_bad_range(pages: u64, first: u64, count: u64) -> bool
    ensures { result ≡ is_bad_range pages first count }
{
    first % WORD_PAGES != 0
        || count > pages
        || first > pages - count
        || (count % WORD_PAGES != 0 && first + count != pages)
}

impl SlotSet {
    /// The slot with this ID, whose log the line reads. Refused: `Missing` where no slot has the
    /// ID, else `NoLog` where the slot has no dirty log, else `BadRange` where a clear is of pages
    /// that aren't whole words of the log.
    pub fn to_read(&self, command: &Command, id: u64) -> Result<MemorySlot, Refusal>
        requires { log_read command.now ≡ Some id }
        ensures refusal { result_err result ≡ read_refusal command.now self.now }
        ensures slot { IfOk result (λ slot. slot_of_id id self.now ≡ Some slot) }
        ensures fits { IfOk result (λ slot. IsReadOf command.now slot.slot) }
    {
        let Some(found) = self.get(id) else {
            return Err(Refusal::Missing);
        };
        if !found.logged {
            return Err(Refusal::NoLog);
        }
        if let Command::ClearLog { first, count, .. } = command
            && is_bad_range(found.slot.pages, *first, *count)
        {
            return Err(Refusal::BadRange);
        }
        Ok(found)
    }
}
