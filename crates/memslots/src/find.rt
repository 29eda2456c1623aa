ghost use Rattle.std.specs.Prelude.{◌≡◌, ◌<◌, ◌≤◌, true, false, Some};
ghost use Rattle.core_views.specs.declared.place.SlotField.TheVariants.{Host};
ghost use Rattle.mmu_core.specs.machine.MayMake.{MayMake};
ghost use Rattle.part_steps.specs.StayTopics.{may_search};
ghost use Rattle.step_seats.specs.Moves.{KeepsSeat};
ghost use Rattle.step_seats.specs.PartTurns.{MakesPart};
ghost use Rattle.step_seats.specs.declared.turn.Turn.TheVariants.{More};
ghost use Rattle.memslots.specs.Finding.{
  Begins,
  BeginsInPublished,
  Searches,
  SearchesWhereMade,
  find_step,
  is_sought,
  find_turns,
};

use core_views::{SLOTS, Slot, SlotField, SlotSearch};
use part_steps::PartStep;
use step_seats::{Stepper, Turn, make_part, part_rests};

/// What a slot set is searched for: the slot that has it.
#[derive(Clone, Copy, Debug, PartialEq, Eq, Drop)]
pub enum Sought {
    /// This guest frame.
    GuestFrame(u64),
    /// This host page.
    HostPage(u64),
}

impl Sought {
    // The slot has it.
    fn is_in(self, slot: &Slot) -> bool
        ensures { result ≡ is_sought self slot.now }
    {
        match self {
            Sought::GuestFrame(gfn) => slot.contains(gfn),
            Sought::HostPage(page) => slot.has_host_page(page),
        }
    }
}

/// The slot that a search has found.
#[derive(Clone, Copy, PartialEq, Eq, Drop)]
pub struct FoundSlot {
    /// Its ID, 0 to 31.
    pub id: u64,
    pub slot: Slot,
    /// Whether it has a dirty log (`KVM_MEM_LOG_DIRTY_PAGES`).
    pub logged: bool,
}

/// A search of the published slot set for the slot that has one guest frame, or
/// one host page, a step a turn: its slots by rising ID, of each the flags first,
/// and where it is live its base, pages and host page (api.rst,
/// `KVM_SET_USER_MEMORY_REGION`; kvm_main.c, `kvm_for_each_memslot_in_hva_range`).
/// No two slots have a guest frame or a host page in common, so there is one such
/// slot at most.
#[derive(Clone, Copy, Drop)]
pub struct Find {
    /// What is searched for.
    pub sought: Sought,
    /// Whether it was loaded which slot set is published.
    pub begun: bool,
}

impl Find {
    /// A search that is yet to begin.
    pub fn new(sought: Sought) -> Find
        ensures { result ≡ record { sought = sought; begun = false } }
    {
        Find {
            sought,
            begun: false,
        }
    }

    // What the search has come to after its last word.
    fn look(&self, before: &SlotSearch, after: &SlotSearch) -> Turn<Option<FoundSlot>>
        requires id { after.now.id ≤ 32 }
        requires whole { before.now.next ≡ Host → after.now.whole ≡ true }
        ensures { Searches (is_sought self.now.sought) result before.now after.now }
    {
        if before.next == SlotField::Host && self.sought.is_in(&after.slot) {
            return Turn::Done(Some(FoundSlot {
                id: before.id,
                slot: after.slot,
                logged: after.logged,
            }));
        }
        if after.id == SLOTS {
            Turn::Done(None)
        } else {
            Turn::More
        }
    }

    /// Loads which slot set is published, or the next word of its search. The
    /// answer is the first live slot that has what is sought, or none where no
    /// slot has. It never waits, and takes no memory.
    pub fn turn<S: Stepper>(&mut self, s: &mut S, note: u64) -> Turn<Option<FoundSlot>>
        requires may { MayMake (find_step self.old) note (S.seat s.old).hand }
        requires reserved { 0 < (S.seat s.old).room }
        requires held { self.old.begun ≡ false → may_search (S.seat s.old).hand.topics.stay (S.seat s.old).hand.topics.hold ≡ true }
        ensures step { MakesPart (find_step self.old) note (S.seat s.old) (S.seat s.new) }
        ensures begins { self.old.begun ≡ false → Begins result (S.seat s.old).hand.topics.search (S.seat s.new).hand.topics.search }
        ensures searches { self.old.begun ≡ true
            → Searches (is_sought self.old.sought) result (S.seat s.old).hand.topics.search (S.seat s.new).hand.topics.search }
        ensures others { (S.seat s.new).hand.topics ≡ record (S.seat s.old).hand.topics {
          search = (S.seat s.new).hand.topics.search;
          row = (S.seat s.new).hand.topics.row;
        } }
        ensures published { BeginsInPublished self.old note (S.seat s.old) (S.seat s.new) }
        ensures now { SearchesWhereMade self.old note (S.seat s.old) (S.seat s.new) result }
        ensures goes_on { self.new ≡ record { sought = self.old.sought; begun = true } }
        ensures nearer { result ≡ More → find_turns self.new (S.seat s.new).hand.topics.search < find_turns self.old (S.seat s.old).hand.topics.search }
        ensures keeps { KeepsSeat (S.seat s.old) (S.seat s.new) (S.frame s.old) (S.frame s.new) }
    {
        if !self.begun {
            let _ = make_part(s, PartStep::Slots, note);
            self.begun = true;
            return Turn::More;
        }
        let before = s.hand().topics().search;
        let _ = make_part(s, PartStep::Slot, note);
        part_rests(s.hand());
        let after = s.hand().topics().search;
        self.look(&before, &after)
    }
}
