ghost use Rattle.log_invariant.specs.Laws.{WritesAreCovered};

/// What holds of dirty logs after every list of steps that is enabled step by step, of all
/// actors in any order, from the start of every machine. A leaf that links lead to from the
/// root, and which allows writes, over a guest frame of a slot that has a dirty log in the
/// published slot set, is covered: the bit of the frame's page is set in the log, or an
/// actor owes a mark for the frame. So is what a virtual processor may use of what it has
/// cached, and which allows writes. Only two lines excuse one that isn't. The one with
/// which the log begins excuses a leaf until it has watched all other actors since it
/// published the log, and its sweep has forbidden writes there; and what is cached, until
/// the flush that it asks for after the sweep was made (tdp_mmu.c,
/// `kvm_tdp_mmu_wrprot_slot`; vcpu-requests.rst, `KVM_REQ_TLB_FLUSH`). Where each page is
/// to be dirty as the log begins, this line excuses nothing before the end of its watch:
/// each bit of the slot is set by then. The one that takes pages out of the log excuses a
/// leaf of such a page until it has walked there, and forbidden writes or found none
/// allowed; and what is cached of the page, until the flush that it asks for after the last
/// one was made (tdp_mmu.c, `kvm_tdp_mmu_clear_dirty_pt_masked`; kvm_main.c,
/// `kvm_get_dirty_log_protect`). In the words of a published log only bits of its slot's
/// pages are set, and those of a log that is to begin are as it begins from their store on
/// up to the publication. A slot set that an actor has retired has the logs of the
/// published one, but for the one that its line begins. And who owes a mark is about to
/// make it, in a line that writes the frame, of the page that the slot gives the frame; a
/// fast fault is one of an access that writes (locking.rst, "Fast page fault").
pub fn writes_are_covered()
    ensures { WritesAreCovered }
{}
