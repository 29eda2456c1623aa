ghost use Rattle.mmu_laws.specs.flat.ArmedSlots.{ArmedSlotsAreCovered};
ghost use Rattle.mmu_laws.specs.causes.Causes.{FaultsBeginAnewByCause};
ghost use Rattle.mmu_laws.specs.pool.Enough.{EachTableIsWanted, EnoughPages, TablesAreForTheirSpans};
ghost use Rattle.mmu_laws.specs.pool.NeedCounts.{NeedIsCounted, OneSlotNeedsSeven};
ghost use Rattle.mmu_laws.specs.alone.LowestFrames.{MovesAloneTakeLowest};
ghost use Rattle.mmu_laws.specs.forms.log.ReadingsAlone.{ReadingsAloneAreExact};
ghost use Rattle.mmu_laws.specs.steps.CanStep.{EachMayStep, EveryMachineStarts};
ghost use Rattle.mmu_laws.specs.steps.ExampleHost.{ExampleHost};
ghost use Rattle.mmu_laws.specs.steps.ExampleEvict.{ExampleEvict};
ghost use Rattle.mmu_laws.specs.steps.ExampleSlots.{ExampleSlots};
ghost use Rattle.mmu_laws.specs.steps.ExampleSplit.{ExampleSplit};
ghost use Rattle.mmu_laws.specs.steps.ExampleMove.{ExampleMove};
ghost use Rattle.mmu_laws.specs.steps.ExampleOverlap.{ExampleOverlap};
ghost use Rattle.mmu_laws.specs.steps.ExampleLog.{ExampleLog};
ghost use Rattle.mmu_laws.specs.steps.ExampleLogAll.{ExampleLogAll};
ghost use Rattle.mmu_laws.specs.steps.ExampleApart.{ExampleApart};
ghost use Rattle.mmu_laws.specs.steps.ExampleLeaf.{ExampleLeaf};
ghost use Rattle.mmu_laws.specs.steps.ExampleSmall.{ExampleSmall};
ghost use Rattle.mmu_laws.specs.steps.ExampleHuge.{ExampleHuge};
ghost use Rattle.mmu_laws.specs.steps.ExampleMisses.{ExampleMisses};
ghost use Rattle.mmu_laws.specs.forms.log.ExampleReads.{ExampleReads};
ghost use Rattle.mmu_laws.specs.forms.log.ExampleOwed.{ExampleOwed};
ghost use Rattle.mmu_laws.specs.forms.log.ExampleManual.{ExampleManual};
ghost use Rattle.mmu_laws.specs.steps.ExampleProtect.{ExampleProtect};
ghost use Rattle.mmu_laws.specs.steps.ExampleRaces.{ExampleRaces};
ghost use Rattle.mmu_laws.specs.steps.ExampleRuns.{ExamplePrints, ExampleRuns};
ghost use Rattle.mmu_laws.specs.steps.ExampleStarves.{ExampleStarves};
ghost use Rattle.mmu_laws.specs.steps.ExampleTight.{ExampleTight};
ghost use Rattle.mmu_laws.specs.steps.ExampleWaits.{ExampleWaits};
ghost use Rattle.mmu_core.specs.alone.FaultAlone.{FaultGoesThrough, LeadsDown};
ghost use Rattle.mmu_core.specs.forms.access.FaultLaws.{FaultIsBounded, FaultMeetsNeeds, FaultStaysKnown, FaultStepsFall, PartsAnswer};
ghost use Rattle.mmu_core.specs.lines.PartWaits.{WaitsSeeAnother};
ghost use Rattle.mmu_laws.specs.forms.log.LogCommandLaws.{BadRangesAreRefused, ClearsAskForNamed, GetsAskForAll, ReadingsAreOfLogs};
ghost use Rattle.mmu_laws.specs.flat.EachStep.{EachStepCoversWrites, EachStepStandsOn, EachStepStaysSound, EachStepTellsLawfully, StartsStand};
ghost use Rattle.mmu_laws.specs.flat.FlatLogs.{LogsAreFlat};
ghost use Rattle.mmu_laws.specs.flat.Histories.{AnswersAreTold, EndsWhole, StaysWhole};
ghost use Rattle.mmu_core.specs.invariant.Laws.{StaysSound, TellsLawfully};
ghost use Rattle.mmu_laws.specs.leaves.LeafLaws.{CachedLeavesAgree, HeldLeavesAgree, LeavesAgree, LeavesCoverSpans, UsedLeavesAgree};
ghost use Rattle.mmu_laws.specs.leaves.OpenFrames.{OpenFramesAreFlushed, OpenFramesAreOfThePages, OpenFramesAreRecorded, OpenFramesAreZapped};
ghost use Rattle.mmu_core.specs.alone.LineAlone.{LineBeginsAlone, LineEndsAlone, LineGoesThrough, NoneStarvedAlone};
ghost use Rattle.mmu_core.specs.invariant.Scans.{StarvedLinesScan};
ghost use Rattle.mmu_laws.specs.steps.EventLaws.{EventsAreOfTheirSteps};
ghost use Rattle.mmu_laws.specs.steps.TouchLaws.{TouchesAreTold};
ghost use Rattle.mmu_laws.specs.steps.InvalidationLaws.{BringsAreOfAbsentPages, ChangesAreInvalidated, InvalidationsAreCounted};
ghost use Rattle.mmu_laws.specs.steps.InvalidationLaws.{ReleasesLeaveNothing, SequenceIsRaised, ZapsAreOfOpenInvalidations};
ghost use Rattle.mmu_laws.specs.steps.LogLaws.{AllowedWritesAreOwed, MarksAreOfOwedPages, MarksStayOwed, SectionsEndWithNoneOwed};
ghost use Rattle.mmu_laws.specs.steps.LogLaws.{WordsAreSetBeforeTheirLog, WritesAreForbiddenInLeaves};
ghost use Rattle.mmu_laws.specs.steps.PublicationLaws.{OthersLeaveSlots, PublicationsAreInvalidated};
ghost use Rattle.mmu_laws.specs.steps.StepLaws.{EnteringFlushes, OthersCacheOneAtMost, RevisedWordsTell, StepsAreOnTheirAreas};
ghost use Rattle.mmu_laws.specs.steps.NoteLaws.{NotesTellEnds};
ghost use Rattle.mmu_laws.specs.turns.Breaking.{BreakingChangesEntries};
ghost use Rattle.mmu_laws.specs.turns.FewSteps.{FewSteps};
ghost use Rattle.mmu_laws.specs.turns.Removal.{InstalledEntriesServe, LeavesStay};
ghost use Rattle.mmu_laws.specs.turns.TurnLaws.{DelaysWaitBeginAnewOrMiss, StepsAreBounded, StepsAreCounted, TurnsAreBounded, TurnsComeNearer};
ghost use Rattle.mmu_laws.specs.causes.Waits.{BetweenLinesSawNothing, StartsSawNothing, StepWaitsAreByCause};

/// What holds of every list of steps that is enabled step by step, of all
/// actors in any order, from the start of every machine. Where one of them answers
/// a line starved, its actor has gone through the whole map of the pool since the
/// line began, word by word, owned no page at these loads, and found each word 0
/// (tdp_mmu.c, `kvm_tdp_mmu_map`); and so through the whole map of frames where one of
/// them refuses a line a frame. Dirty logs have what flat memory says of them (api.rst,
/// KVM_GET_DIRTY_LOG): each slot of which writes are logged has a log in the published
/// slot set, and no line is to begin it yet; each guest frame that is dirty is of such a
/// slot, and its page's bit is set or a mark is owed for it, or a line that reads the log has
/// taken it out and isn't answered yet; and each bit that is set in
/// a published slot's log is of a guest frame with a cause to stand in it. In such a slot a
/// leaf, and a translation that a virtual processor may use, is covered so where it allows writes,
/// or the line that has taken its page out has yet to come to it, or to see the flush. And what
/// lines read of a log is among the events that are lawful: nothing is left out of it that was dirty
/// as they began to read, and that nobody wrote then; and all in it has a cause.
pub fn every_list_of_steps()
    ensures sound { StaysSound }
    ensures lawful { TellsLawfully }
    ensures logs { LogsAreFlat }
    ensures armed { ArmedSlotsAreCovered }
    ensures starved { StarvedLinesScan }
{}

/// What one step keeps, of any actor, from any sound world, whether or not steps lead there
/// from a start. The host may map pages at any level there, though no line does so yet. The world
/// after a step that may be made is sound. Where writes to slots with dirty logs are covered, or excused,
/// they are so after it. And where words and hands stand for the flat state that a lawful
/// history leaves, what the step tells is what this flat state allows, and the words and hands
/// after it stand for the history with these events. The start stands for the empty history, so
/// `sound`, `lawful` and `logs` of `every_list_of_steps` follow, step by step.
pub fn each_step_keeps_the_invariant()
    ensures sound { EachStepStaysSound }
    ensures covered { EachStepCoversWrites }
    ensures lawful { EachStepTellsLawfully }
    ensures stands { EachStepStandsOn }
    ensures starts { StartsStand }
{}

/// What stands in an actor's way is another actor's, in every list of steps. A fault
/// begins anew only where in this section it found an invalidation open over its
/// guest frame, or found another number in a word of which it knew the number, since
/// another actor's step changed it: in the sequence number after its snapshot, or in
/// an entry of its guest frame, or the host word of its page, after its load. A step waits, whoever makes it, only
/// where its actor, with its last step on the lock, found another actor having it
/// alone; where the page or the frame that it tries was free at its actor's last step on
/// this word of the map, and another actor's step changed this word since; where it finds
/// the lock held by another actor; where it gives the lock back, and its actor loaded
/// the count of open invalidations while it had the lock alone, found some open, and made
/// no step on the count or on the lock since; where it finds another actor in
/// the guest or in a section; and where it finds a virtual processor in the guest that was
/// asked for a flush since it came in (tdp_mmu.c, `kvm_tdp_mmu_map`; kvm_main.c,
/// `kvm_swap_active_memslots`; locking.rst; vcpu-requests.rst, `KVM_REQUEST_WAIT`). These causes lie in the steps since any
/// moment at which the actor had seen nothing that a step waits for: so it is at a start,
/// and between the lines of an actor that has one left. And a line counts no other step
/// as a delay than one with which it waits or begins its fault anew, or one of the stay
/// after a fault that installed an entry, which finds no translation: since that fault
/// began a step took an entry of the guest frame away.
pub fn each_delay_has_its_cause()
    ensures begins_anew { FaultsBeginAnewByCause }
    ensures waits { StepWaitsAreByCause }
    ensures starts { StartsSawNothing }
    ensures between { BetweenLinesSawNothing }
    ensures delays { DelaysWaitBeginAnewOrMiss }
{}

/// That the steps can be made: every machine has a start, and at every moment
/// each actor that has a line left has a step to make. A small run from its start
/// sets two slots, answers an access of a guest frame that no slot has, and one
/// whose fault fills and links three tables and puts the leaf; then accesses that
/// walk to this leaf or go by what is cached, and a write that a read-only slot
/// refuses. In a pool that is too small an access is starved, and a slot line
/// after it, and in one of a page less than its lines need, one of two writes to a guest frame is,
/// while a slot line has the old slot set still, and with the page more both go through;
/// where two processors write to one guest frame at a time, one
/// waits and begins anew; and a slot line beside a write waits for the page that the
/// processor takes, for the lock that it shares, and until it has left the guest. A host
/// thread's line zaps the leaf that a processor has cached, waits until this one has left the
/// guest, and makes the fault of another processor begin anew. And where a host thread
/// forbids writes to a page to which a fault had found them allowed, this fault begins anew and
/// ends its write with a host fault; once writes are allowed again, a write goes through.
/// Where a host thread takes a page away, and two processors that found it absent bring it in at
/// a time, one does, the other one begins anew and finds the page there, and both find what was
/// written to it before; and where a page is brought in between a host thread's look at it and
/// its exchange of the host word, the thread's next exchange forbids the writes. Where a host
/// thread moves a page that a fault has looked at, the thread waits for the fault's section
/// before it gives the old frame back, and the fault begins anew; the content of a page is in
/// its new frame before the page is; and where no frame is free a move is refused. Of two host
/// threads that begin invalidations at a time, the second one waits for the lock. While both are
/// open their range has the guest frame between theirs, too: a fault of it begins anew, as it
/// does while the second one alone is open, and where this one ends after the fault's snapshot;
/// the next fault goes through. A slot line gives the lock back while both are open, and while
/// one is, and sets its slot once none is. Where a slot is moved beside a fault that has looked
/// at its page, the fault begins anew, and finds the page that the moved slot gives; a deletion
/// waits for the processor that is in the guest with the slot's leaf cached, and the next access
/// finds no slot; and a slot that is set as it is takes one step. Where a slot gets a dirty log
/// beside a fault that has found none, the manager waits for the fault's section, and then
/// forbids writes in the leaf that it put, too; a write after that allows them again in its leaf,
/// and marks its page; the mark goes as the log begins again; and where each page is dirty as the
/// log begins, each has its bit, and no write is forbidden. A get beside a write whose mark is owed
/// reads nothing; the next one takes the mark, and forbids writes in the leaf again. And where a log
/// is read by hand, a get shows each page, a clear takes one, and the next get shows the others.
/// Where writes are forbidden in a leaf after a fault that has found them allowed there, the stay after it
/// misses; and of two fast faults that have loaded a leaf one allows writes in it, and the exchange of
/// the other one is lost, whose processor then writes before the page is marked. A get that comes between
/// this write and the mark waits for the processor that wrote, which is in the guest again, and its answer
/// leaves the page out; the next get has it. Where a get takes nothing out of a log, one shows a write and
/// a clear takes it; and once the log has ended, a write meets the leaf in which the clear has forbidden
/// writes: its fast fault allows them and marks nothing. And a fault that finds the
/// lock held waits for it, and goes through while an invalidation of another guest frame is open;
/// and where two faults come to one absent leaf, one puts it, and the other one begins anew. A worker
/// that is to split a guest frame's large leaf has nothing to do where the frame has no table, nor where
/// it has a leaf of the lowest level.
/// Where a small page is to be mapped by itself its leaf is zapped, and its host word stays; and a run with
/// pages beyond those of its thread is refused in one step. And where a run of 512 pages becomes
/// one large page each of them is looked at, and changed while the invalidation of the slot's guest
/// frames is open; to do it again is refused with the first look; and each becomes a small page again.
/// A run that begins one page further is not aligned, and is refused with the look at its last page.
pub fn the_steps_can_be_made()
    ensures starts { EveryMachineStarts }
    ensures goes_on { EachMayStep }
    ensures example { ExampleRuns }
    ensures prints { ExamplePrints }
    ensures starves { ExampleStarves }
    ensures tight { ExampleTight }
    ensures races { ExampleRaces }
    ensures slot_waits { ExampleWaits }
    ensures host { ExampleHost }
    ensures protect { ExampleProtect }
    ensures evict { ExampleEvict }
    ensures moves { ExampleMove }
    ensures overlap { ExampleOverlap }
    ensures slots { ExampleSlots }
    ensures log { ExampleLog }
    ensures log_all { ExampleLogAll }
    ensures reads { ExampleReads }
    ensures owed { ExampleOwed }
    ensures manual { ExampleManual }
    ensures misses { ExampleMisses }
    ensures apart { ExampleApart }
    ensures leaf { ExampleLeaf }
    ensures split { ExampleSplit }
    ensures small { ExampleSmall }
    ensures huge { ExampleHuge }
{}

/// What a step's numbers tell of it: each step that a hand allows is on a word of the
/// area that its kind is for, and the note of a line's step says whether the line is
/// answered with it, whatever the step finds; but a slot line's load of the last word of
/// the pool's map, and a host line's of the map of frames, has note 1, and is its answer
/// exactly where it finds 0; and so has the look at the last virtual processor, of a line that
/// takes pages out of a dirty log, and it is its answer exactly where this one has no flush to
/// make (vcpu-requests.rst, `KVM_REQUEST_WAIT`), and the look at the host page that a line is to
/// change, and it is its answer exactly where this page is part of a large one. A look at a page
/// of a run that a line is to change is its answer exactly where the run is to be one and this page
/// is part of a large one, or all pages of the run were looked at and can't be mapped as one; its
/// note is 1, or 0 where the pages of a large one are to be small ones, and then the line goes on.
/// Who enters the guest with a flush asked for has nothing cached after that step; each other step
/// leaves at most one more translation (vcpu-requests.rst, KVM_REQ_TLB_FLUSH). The host
/// word that is put to allow writes or forbid them, to have its page in memory or not, or
/// at another frame, does so, and tells the same else as the one before it. And each event that a step
/// tells of the pause, of slots, host pages or memory is of the word that the step is on,
/// and of what it found and left there. A dirty log is told to begin by a publication, or, where
/// no page is dirty then, by the `await` of the last flush, of an actor that has watched each
/// other one since its publication. A reading of a dirty log is told to begin by the step
/// that gets the lock alone, or, where it takes nothing out, by the load of its first word; and what
/// was read is told by the `await` of the last flush, or by the load of the last word, with the answer:
/// the bits of these frames (kvm_main.c, `kvm_get_dirty_log_protect`). An exit is told with the
/// answer, too. And each step with which a guest touches memory tells this access. The sequence number of invalidations is raised by
/// one, and only by an actor that has the lock alone and an invalidation open; how many
/// are open rises by one with such an actor's own one, and falls by one with it, once the
/// number was raised (kvm_main.c, `kvm_mmu_invalidate_begin`, `kvm_mmu_invalidate_end`). A
/// step that zaps is on the leaf, of whatever level, to which links lead a guest frame of its
/// actor's own open invalidation. One that changes a host word, whatever it leaves there, is of a
/// page of its actor's own, while this actor's invalidation of a run with the page is open and
/// flushed: the first page of the run that isn't changed yet. And one that brings a page in is in a section, of the page that its actor looked at
/// and saw absent. A step that gives back the lock which its actor has alone leaves no end of an
/// invalidation half done, so that number and count change in one holding, and none open that
/// isn't flushed; and a line leaves nothing to do at the entry that it loaded last. (That its
/// sweep or its reading is through, `armed` of `every_list_of_steps` says.) A step
/// that forbids writes is on a leaf to which links lead a guest frame, and which allows them, and
/// takes its Writable bit away; one that allows writes in a leaf of a slot with a dirty log leaves
/// its actor owing a mark, which stays owed up to the mark, and no section ends before it; one
/// that marks sets the bit of the page for whose guest frame its actor owes one; and a word of a
/// dirty log is set only before its log begins.
/// A step that publishes a slot set is of an actor that has the lock alone, with no
/// invalidation open but its own: each slot that was published stays so, unless exactly its
/// guest frames are invalidated by this actor, and flushed; and the new set differs from the
/// one before it at one ID at most (kvm_main.c, `kvm_invalidate_memslot`,
/// `kvm_swap_active_memslots`). Each other step leaves the published slots.
pub fn steps_tell_what_they_are()
    ensures areas { StepsAreOnTheirAreas }
    ensures notes { NotesTellEnds }
    ensures flushes { EnteringFlushes }
    ensures caches { OthersCacheOneAtMost }
    ensures revised { RevisedWordsTell }
    ensures events { EventsAreOfTheirSteps }
    ensures touches { TouchesAreTold }
    ensures raised { SequenceIsRaised }
    ensures counted { InvalidationsAreCounted }
    ensures zaps { ZapsAreOfOpenInvalidations }
    ensures changes { ChangesAreInvalidated }
    ensures brings { BringsAreOfAbsentPages }
    ensures releases { ReleasesLeaveNothing }
    ensures forbids { WritesAreForbiddenInLeaves }
    ensures owes { AllowedWritesAreOwed }
    ensures stays_owed { MarksStayOwed }
    ensures paid { SectionsEndWithNoneOwed }
    ensures marks { MarksAreOfOwedPages }
    ensures arms { WordsAreSetBeforeTheirLog }
    ensures published { PublicationsAreInvalidated }
    ensures kept_slots { OthersLeaveSlots }
{}

/// What each hand has answered after a list of steps is what the history tells
/// of its actor; the history begins the first lines of each actor, in their order,
/// and answers them, each once, but for perhaps the last one; and where each hand has
/// answered all its lines, the history answers the whole trace.
pub fn every_answer_is_told()
    ensures answers { AnswersAreTold }
    ensures so_far { StaysWhole }
    ensures whole { EndsWhole }
{}

/// The order of a fault's steps can be kept, and comes to an end: what it knows
/// at a place, with what every reachable hand rests on, is what the step of this
/// place needs; whatever that step answers, the fault knows what its next place
/// asks; each step that doesn't wait for another actor leaves it fewer steps, of
/// which it has at most 8,192 and one for each pool page; and one that waits, as each
/// step of a part that does, whoever makes it, has seen another actor: a writer in
/// the lock's word, or that the lock isn't free; that the page which it tried is free no
/// more; invalidations of others open; another actor in a section; or a virtual processor that has yet
/// to flush (tdp_mmu.c, `kvm_tdp_mmu_map`; locking.rst).
pub fn a_fault_goes_on()
    ensures needs { FaultMeetsNeeds }
    ensures answers { PartsAnswer }
    ensures known { FaultStaysKnown }
    ensures falls { FaultStepsFall }
    ensures waits { WaitsSeeAnother }
    ensures bounded { FaultIsBounded }
{}

/// A pool of `need` pages is enough, in every list of steps: each table below
/// the root is for a span of guest frames that a slot line of the trace wants
/// (one that sets a slot of at least one page, and no more than the machine has,
/// below guest frame 2^36), and this span is the one that it stands at; and where
/// the pool has as many pages as `need` says, and no actor owns one, some page of
/// it is free, so that who claims one then is not starved (tdp_mmu.c,
/// `kvm_tdp_mmu_map`; mmu.rst, "Translation"). `need` is four, and one for each span of 2^27, of
/// 2^18 and of 2^9 guest frames in which such a slot line has pages, each counted once: seven
/// for a trace of one slot, below guest frame 512.
pub fn the_pool_is_enough()
    ensures wanted { EachTableIsWanted }
    ensures own_spans { TablesAreForTheirSpans }
    ensures enough { EnoughPages }
    ensures counted { NeedIsCounted }
    ensures seven { OneSlotNeedsSeven }
{}

/// Leaves agree with slots and host, in every sound world: each one to which links lead a
/// guest frame from the root, or from the table over it that an actor's walk has come to,
/// each one that a virtual processor may use of what it has cached, and the one by which
/// an access is about to touch is of the page that the slots give the guest frame, at the
/// frame that the host gives this page. It is MMU-writable exactly where the slots give a
/// write this page and the host allows it, host-writable exactly where the host does, and
/// allows writes only where it is MMU-writable. So it is at any level: links lead each guest
/// frame of a leaf's span to this leaf. A virtual processor may use all that it has
/// cached while it is in the guest, or no flush is asked of it. What is cached else is of
/// a level that has leaves too, at frames of the machine, and no other actor has anything cached
/// (tdp_mmu.c, `tdp_mmu_map_handle_target_level`; mmu.rst, "Shadow pages"). Each guest
/// frame that an open invalidation is of lies in the range of the open ones. It is of
/// exactly the guest frames that the published slots give to its host pages. Once its
/// actor has asked for a first flush, no links lead such a guest frame from the root to a
/// leaf. And a virtual processor whose flush was awaited, and which is in the guest or
/// has no flush asked of it, has nothing cached of such a guest frame. Both hold up to the
/// publication of a slot set, where the invalidation is of a slot (kvm_main.c,
/// `kvm_mmu_invalidate_range_add`; tdp_mmu.c, `kvm_tdp_mmu_unmap_gfn_range`;
/// vcpu-requests.rst, `KVM_REQ_TLB_FLUSH`).
pub fn leaves_agree()
    ensures standing { LeavesAgree }
    ensures held { HeldLeavesAgree }
    ensures spans { LeavesCoverSpans }
    ensures cached { CachedLeavesAgree }
    ensures used { UsedLeavesAgree }
    ensures recorded { OpenFramesAreRecorded }
    ensures scopes { OpenFramesAreOfThePages }
    ensures zapped { OpenFramesAreZapped }
    ensures flushed { OpenFramesAreFlushed }
{}

/// What a fault comes to that runs while all other actors rest, and no invalidation of
/// its own actor is open: no step of it waits, it never begins anew, where it ends with
/// an entry installed, links lead from the root to a leaf that allows the access, where
/// it ends with MMIO, no slot has a page for the access, where it ends with a host fault,
/// a slot has a page for it, it is a write, and the page's host word forbids writes, and
/// where it is starved, each word of the pool's map is 0, up to where its claim came
/// (tdp_mmu.c, `kvm_tdp_mmu_map`; locking.rst). And from each table over a guest frame
/// links lead to the same entries as from the root.
pub fn a_fault_alone_goes_through()
    ensures through { FaultGoesThrough }
    ensures leads { LeadsDown }
{}

/// What a line comes to that runs while all other actors rest: no step of it
/// waits, none of its faults begins anew, and each step leaves it fewer steps, of
/// which it has no more than its command allows (an access at most 8,192, one for each
/// pool page and one for each frame; a slot line 1,024 and one for each word of the
/// pool's map; a host line of one page 1,024 and one for each word of the map of frames, and
/// one of a run 1,024, two for each of 262,144 pages and five for each of 2^36 guest frames);
/// where it is answered, all actors rest again, and it is starved only where no page of the pool is
/// free, so never where the pool has as many pages as the trace needs at most, and refused
/// a frame only where none is free. And its steps can be made, up to its answer. Where it
/// moves a page it takes the lowest frame that no page names (tdp_mmu.c,
/// `kvm_tdp_mmu_map`; locking.rst; page_migration.rst). And where it reads a dirty log, and
/// no other line is under way, it reads just what is dirty of what it asks for (api.rst,
/// KVM_GET_DIRTY_LOG, KVM_CLEAR_DIRTY_LOG): while lines run so, one after another, each bit
/// that is set in a published slot's log is of a dirty guest frame, or of one that the access
/// under way is about to write.
pub fn a_line_alone_goes_through()
    ensures through { LineGoesThrough }
    ensures begins { LineBeginsAlone }
    ensures ends { LineEndsAlone }
    ensures enough { NoneStarvedAlone }
    ensures lowest { MovesAloneTakeLowest }
    ensures readings { ReadingsAloneAreExact }
{}

/// A line's turns come to an end between its delays, beside other actors that stand
/// anywhere in their lines: each step of it that neither waits nor begins a fault anew
/// leaves it fewer steps, or answers it, or is one of a stay that misses, and it never
/// has more left than its command allows (`most_steps`). For after a fault that ended
/// with an entry installed, whatever the other actors do, links lead from the root, and
/// from the table that the line's walk has come to, to a leaf that allows the access, or
/// a step since that fault began took an entry of the guest frame away; and where links
/// lead to such a leaf once, they do so after every list of steps, or one of them took an
/// entry of the guest frame away. A step that takes an entry of the guest frame away is on
/// the word of such an entry, which isn't absent, and leaves another number there
/// (`breaking`): it is one that zaps a leaf (tdp_mmu.c,
/// `kvm_tdp_mmu_map`, `kvm_tdp_mmu_unmap_gfn_range`; locking.rst).
pub fn turns_come_to_an_end()
    ensures nearer { TurnsComeNearer }
    ensures bounded { TurnsAreBounded }
    ensures installed { InstalledEntriesServe }
    ensures stay { LeavesStay }
    ensures breaking { BreakingChangesEntries }
{}

/// A hand counts the steps of its line since it began, or since the end of its last
/// delay (a step with which it waits or begins a fault anew, or a stay after an
/// installed entry that finds no translation which allows the access), and its
/// delays, of which it counts no more than 2^64 - 1. Behind every list of steps
/// these steps are at most as many as the line's command allows (`most_steps`), and
/// while the line is under way, so they are together with those that it has left. For a command of one
/// page, or one that ends a dirty log, these are at most 8,192, one for each pool page and one for each frame; for
/// one that changes a run of host pages at most four for each of 262,144 pages and five for each of 2^36 guest
/// frames; for each other one at most 16 times the sum of 512 for each pool page, a page's words and eight for
/// each host page, one for each frame, and 4,096.
pub fn steps_are_bounded()
    ensures bounded { StepsAreBounded }
    ensures counted { StepsAreCounted }
    ensures few { FewSteps }
{}

/// What a get and a clear of a dirty log ask for, in numbers, and why they are refused. A get asks for
/// each page of its slot; a clear for a page exactly where this lies in the range that it names,
/// and its bit is set in its words. Both are refused where the slot is missing, or has no dirty log; a get for
/// nothing else. A clear of a slot with a dirty log is refused for its range exactly where this begins
/// within a word of the log or past the slot's pages, has more pages than there are from there on, or
/// ends within a word and not with the slot (api.rst, KVM_GET_DIRTY_LOG, KVM_CLEAR_DIRTY_LOG).
pub fn readings_ask_for_their_pages()
    ensures gets { GetsAskForAll }
    ensures clears { ClearsAskForNamed }
    ensures logs { ReadingsAreOfLogs }
    ensures refused { BadRangesAreRefused }
{}
