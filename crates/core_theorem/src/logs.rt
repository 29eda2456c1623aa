//! Dirty logs and their readings in every run.
ghost use Rattle.core_theorem.specs.FastFaults.{FixedFaultsHaveAllowed, OtherFastFaultsSawWhy};
ghost use Rattle.core_theorem.specs.Logs.{DirtyLogsAreKept};
ghost use Rattle.core_theorem.specs.Readings.{ReadingsTellWrites};

use log_laws::{logged_writes_are_kept, readings_tell_what_was_written};

/// What dirty logs and their readings tell, in every run: a page that was written while writes of its
/// slot are logged is dirty, or in a reading answered since, until that logging ends (kvm_main.c).
///
/// `logs`: each guest frame that is dirty in flat memory is of a slot of which writes are logged, and
/// its page's bit is set or an actor owes a mark for it; so it is of each linked leaf, and each
/// translation that may be used, which allows writes in such a slot; and each bit that is set has a
/// cause. `readings`: the manager alone manages the guest, and so it alone reads logs; a reading has
/// each frame for which its line asks that was dirty as it began, unless a line was under way then that
/// writes the frame, and no other frame than one with a cause; and what is written while writes of its
/// slot are logged is dirty from then on, or in a reading that is answered after the write, with its
/// bit, or a line has taken the slot's dirty log away since. Nothing else makes it clean: no other
/// change of the slot, and no log that begins. `fixed`: a fast fault that is about to end with its
/// write allowed has allowed it in this section, in the very word that it had read, by an exchange of
/// its own, and it has marked the page where it says so. `not_fast`: one that is about to give up
/// has come after the last slot, and this one isn't the guest frame's (that it passed over no other slot
/// with the frame isn't said), or it has loaded the frame's entry, in which a fast fault can't allow the
/// write.
pub fn every_run_logs()
    ensures logs { DirtyLogsAreKept }
    ensures readings { ReadingsTellWrites }
    ensures fixed { FixedFaultsHaveAllowed }
    ensures not_fast { OtherFastFaultsSawWhy }
{
    readings_tell_what_was_written();
    logged_writes_are_kept();
}
