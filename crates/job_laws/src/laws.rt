ghost use Rattle.job_laws.specs.Begun.{BegunFramesAreEmpty, DoneHasBegun};
ghost use Rattle.job_laws.specs.Ended.{EndsRaiseOnce};
ghost use Rattle.job_laws.specs.OneChange.{HostJobsChangeOnce, HostRunJobsTell, SlotJobsChangeOnce};
ghost use Rattle.job_laws.specs.ReadOut.{AfterReadingsWritesAreCovered, ReadingsHaveFlushes};
ghost use Rattle.job_laws.specs.Splits.{SplitsTellWhatTheyFound};

/// A law about `BeginJob`. A turn that answers `Done` leaves the hand with its own invalidation open,
/// each virtual processor asked for a flush and awaited, and the lock given back (`begun`). Then no
/// links lead from the root to a leaf of a guest frame of the target, and no virtual processor that may
/// use what it has cached has anything cached of one; and so it stays, whatever steps are made by
/// whomever, until the actor counts one less at its own end or, where the target is a slot, publishes
/// a slot set (`empty`) (mmu_notifier.rst; vcpu-requests.rst).
pub fn begins_leave_nothing()
    ensures begun { DoneHasBegun }
    ensures empty { BegunFramesAreEmpty }
{}

/// A law about `EndJob`. A turn that answers `Done` leaves the hand without an open invalidation of its
/// own, and with the lock given back. Since the world in which the end got the lock the sequence number
/// was raised by one, and the count of open invalidations lowered by one, whatever steps all actors made
/// in between (kvm_main.c, `kvm_mmu_invalidate_end`).
pub fn ends_raise_once()
    ensures { EndsRaiseOnce }
{}

/// A law about `LogJob`. A turn that answers a line with what it has taken out of the log has each
/// flush: by its hand each virtual processor was asked for one since the line got the lock, and awaited,
/// and the lock is given back; the last await, with this turn, saw one that is outside of the guest or has
/// none to make (`flushes`). And after each turn that answers a line which reads a log, a linked leaf that
/// allows writes to a guest frame of a slot with a log, and a translation that does and may be used, is
/// of a page whose bit is set or for which a mark is owed (`told`): so nothing that allows writes is left
/// of a page that the line has taken, and that is neither (kvm_main.c, `kvm_get_dirty_log_protect`).
pub fn readings_leave_no_silent_write()
    ensures flushes { ReadingsHaveFlushes }
    ensures told { AfterReadingsWritesAreCovered }
{}

/// A law about `SlotJob`. Whatever steps led to the world in which a turn answers a line, these and the
/// turn tell the line's begin, its events and its answer. A line that is answered done has changed its
/// slot in between, once and as it asks, or has nothing to do; one that is refused, or starved, has
/// changed none.
pub fn slot_lines_change_once()
    ensures { SlotJobsChangeOnce }
{}

/// A law about `HostJob`. So do they of a host line: it has changed its host page in between, once and as
/// it asks, and is answered so; or it is refused, and has changed none.
pub fn host_lines_change_once()
    ensures { HostJobsChangeOnce }
{}

/// A law about `HostJob`. So do they of a line that sets a run of host pages: it has set each page of its
/// run in between, once and in rising order, with all else of the page's entry kept, where right before the
/// first change the run isn't to be refused, and is answered done; or it is refused, and has changed none.
pub fn run_lines_set_their_run()
    ensures { HostRunJobsTell }
{}

/// A law about `SplitJob`. Whatever steps led to the world in which a turn answers a line, its answer tells
/// what these came to: `Split` that one of them, made in this line, exchanged the large leaf that the line had
/// loaded for a link; `Changed` that this exchange was lost, for it found this word in place of the leaf;
/// `Nothing` that the guest frame's entry was seen as this word, at which no walk goes on and which is no large
/// leaf; `Starved` that the line's claim has come to the end of the pool's map.
pub fn splits_tell_what_they_found()
    ensures { SplitsTellWhatTheyFound }
{}
