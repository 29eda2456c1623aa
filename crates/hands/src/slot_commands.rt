//! What a line changes in the slots: a clause for each command that changes one.
ghost use Rattle.std.specs.Prelude.{◌≡◌, ◌≤◌, None};
ghost use Rattle.core_views.specs.Refusals.{after_set, delete_refusal, log_refusal, set_refusal};
ghost use Rattle.core_views.specs.declared.trace.Command.TheVariants.{SetLog};
ghost use Rattle.core_views.specs.SlotCommands.{HasPages, change_at_once, slot_armed, slot_invalidated, slots_after};
ghost use Rattle.core_views.specs.SlotSets.{without_slot_at};
ghost use Rattle.core_views.specs.Traces.{IsCommandFor};

use crate::SlotSet;
use core_views::{Command, Line, Refusal, Sizes, Slot};

impl SlotSet {
    /// Why the line has nothing to do on a machine of these sizes: it is refused, or, with
    /// no refusal, sets a slot as it is. `None` where it has something to do, or changes
    /// no slot.
    pub fn at_once(&self, command: &Command, sizes: &Sizes) -> Option<Option<Refusal>>
        ensures { result ≡ change_at_once sizes.now command.now self.now }
    {
        match command {
            Command::SetSlot { id, slot } => match self.check_set(*id, slot, sizes.pages) {
                Err(refusal) => Some(Some(refusal)),
                Ok(()) if self.stays(*id, slot) => Some(None),
                Ok(()) => None,
            },
            Command::DeleteSlot { id } => match self.check_delete(*id) {
                Err(refusal) => Some(Some(refusal)),
                Ok(()) => None,
            },
            Command::SetLog { id, on } => self.check_log(*id, *on).err().map(Some),
            Command::Access { .. } | Command::ChangeHost { .. } => None,
            Command::ChangeRun { .. } | Command::Split { .. } => None,
            Command::GetLog { .. } | Command::ClearLog { .. } | Command::Migrate { .. } => None,
        }
    }

    /// Makes the change of a trace's line that has something to do.
    #[tactic(auto, using(core_views::proofs::SlotChanges::has_pages))]
    pub fn change(&mut self, line: &Line, sizes: &Sizes)
        requires allowed { IsCommandFor sizes.now line.now.actor line.now.command }
        requires work { change_at_once sizes.now line.now.command self.old ≡ None }
        ensures { self.new ≡ slots_after line.now.command self.old }
    {
        self.make_change(&line.command, sizes);
    }

    /// Makes the change that a command asks for which has something to do; a slot that it
    /// sets has a page at least.
    pub fn make_change(&mut self, command: &Command, sizes: &Sizes)
        requires pages { HasPages command.now }
        requires work { change_at_once sizes.now command.now self.old ≡ None }
        ensures { self.new ≡ slots_after command.now self.old }
    {
        match command {
            Command::SetSlot { id, slot } => self.put(*id, slot, sizes.pages),
            Command::DeleteSlot { id } => self.take_out(*id),
            Command::SetLog { id, on } => self.put_log(*id, *on),
            Command::Access { .. } | Command::ChangeHost { .. } => {}
            Command::ChangeRun { .. } | Command::Split { .. } => {}
            Command::GetLog { .. } | Command::ClearLog { .. } | Command::Migrate { .. } => {}
        }
    }

    /// The slot that the line moves or deletes, as it is before; `None` where there is none.
    pub fn invalidated(&self, command: &Command) -> Option<Slot>
        ensures { result ≡ slot_invalidated self.now command.now }
    {
        match command {
            Command::SetSlot { id, .. } | Command::DeleteSlot { id } => Some(self.get(*id)?.slot),
            Command::Access { .. } | Command::ChangeHost { .. } | Command::SetLog { .. } => None,
            Command::ChangeRun { .. } | Command::Split { .. } => None,
            Command::GetLog { .. } | Command::ClearLog { .. } | Command::Migrate { .. } => None,
        }
    }

    /// The slot whose dirty log begins with the line; `None` where none does.
    pub fn armed(&self, command: &Command) -> Option<Slot>
        ensures { result ≡ slot_armed self.now command.now }
    {
        match command {
            Command::SetLog { id, on: true } => Some(self.get(*id)?.slot),
            Command::SetLog { on: false, .. } => None,
            Command::SetSlot { .. } | Command::DeleteSlot { .. } => None,
            Command::Access { .. } | Command::ChangeHost { .. } => None,
            Command::ChangeRun { .. } | Command::Split { .. } => None,
            Command::GetLog { .. } | Command::ClearLog { .. } | Command::Migrate { .. } => None,
        }
    }

    // Sets a slot that isn't refused.
    fn put(&mut self, id: u64, slot: &Slot, total: u64)
        requires some { 1 ≤ slot.now.pages }
        requires accepted { set_refusal total id slot.now self.old ≡ None }
        ensures { self.new ≡ after_set id slot.now self.old }
    {
        let set = self.set(id, slot.base, slot.pages, slot.host, slot.read_only, total);
        match set {
            Ok(()) => {}
            Err(_) => unreachable!(),
        }
    }

    // Changes a dirty log whose change isn't refused.
    #[tactic(auto, using(core_views::proofs::SlotChanges::log_changes))]
    fn put_log(&mut self, id: u64, on: bool)
        requires accepted { log_refusal on id self.old ≡ None }
        ensures { self.new ≡ slots_after (SetLog id on) self.old }
    {
        match self.with_log(id, on) {
            Ok(()) => {}
            Err(_) => unreachable!(),
        }
    }

    // Deletes a slot whose deletion isn't refused.
    fn take_out(&mut self, id: u64)
        requires accepted { delete_refusal id self.old ≡ None }
        ensures { self.new ≡ without_slot_at id self.old }
    {
        match self.delete(id) {
            Ok(()) => {}
            Err(_) => unreachable!(),
        }
    }
}
