ghost use Rattle.slot_laws.specs.DoneLines.{DoneComesOfOneChange};
ghost use Rattle.slot_laws.specs.OneChange.{HostLinesTell, LinesUnderWayHaveBegun, SlotLinesTell};
ghost use Rattle.slot_laws.specs.RunLines.{RunLinesTell};
ghost use Rattle.slot_laws.specs.RunOrder.{LeavesNone, SetsInOrder, SetsTheLastTwo};
ghost use Rattle.slot_laws.specs.SlotRules.{DeletionsAreOfSlots, DoneAtOnceChangesNone, SetSlotsKeepShapes, WorkChangesOne};
ghost use Rattle.slot_laws.specs.Starving.{MissingCannotStarve, UnchangedCannotStarve};

/// A law about which slot line changes what, over all sets of slots. Where a slot that is set
/// isn't refused and another one has its ID, both have as many pages, the same host pages and
/// the same flag, and where that one has a dirty log the same guest frames (`shapes`). A
/// deletion that isn't refused is of a slot that is there and has none (`deletions`). A line that
/// is told done before its first step would change no slot (`none`), and any other one that
/// isn't refused changes some (`some`) (api.rst, KVM_SET_USER_MEMORY_REGION).
pub fn slot_lines_keep_shapes()
    ensures shapes { SetSlotsKeepShapes }
    ensures deletions { DeletionsAreOfSlots }
    ensures none { DoneAtOnceChangesNone }
    ensures some { WorkChangesOne }
{}

/// A law about lawful histories. A line that changes a slot and is answered done has changed it just
/// once, as it asks, between its begin and its answer; or it has changed none, and has nothing to do
/// with the slots right before its answer.
pub fn done_lines_have_changed_once()
    ensures { DoneComesOfOneChange }
{}

/// A law about two closed histories that aren't lawful: a line that sets a slot as it is, and a
/// deletion of a slot that isn't there, can't be given up for want of a pool page.
pub fn idle_slot_lines_cannot_starve()
    ensures unchanged { UnchangedCannotStarve }
    ensures missing { MissingCannotStarve }
{}

/// A law about lawful histories. Between its begin and its answer a slot line that is answered done has
/// changed its slot once, as it asks, or has nothing to do; and any other answer comes of no change
/// (`slots`). A host line that isn't refused has changed its host page once, as it asks, and is answered
/// so, and one that is refused has changed none (`hosts`). A line of a run of host pages that isn't refused
/// is answered done and has set each page of its run once, in rising order, with all else of their entries
/// kept, where right before its first change the run isn't to be refused; and one that is refused has
/// changed none (`runs`). Each line that is under way has begun, and its actor has answered none since
/// (`begun`).
pub fn lines_change_once()
    ensures slots { SlotLinesTell }
    ensures hosts { HostLinesTell }
    ensures runs { RunLinesTell }
    ensures begun { LinesUnderWayHaveBegun }
{}

/// A law about three closed histories of a line that makes the pages of a large one small, and has the last
/// two of them left to set. The one in which it sets both, in their order, and is answered done is lawful
/// (`whole`). One in which it is done with a page left isn't (`left`), nor is one in which it sets the two
/// in the other order (`order`).
pub fn runs_are_set_in_order()
    ensures whole { SetsTheLastTwo }
    ensures left { LeavesNone }
    ensures order { SetsInOrder }
{}
