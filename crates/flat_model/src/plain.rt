ghost use Rattle.std.specs.Prelude.{◌≡◌, ◌==◌, ◌&&◌, ◌||◌, ℕ, All, IfOk, OnErr, OnOk, Some, length};
ghost use Rattle.core_views.specs.Sizes.{sizes_of};
ghost use Rattle.core_views.specs.Flat.{first_facts};
ghost use Rattle.core_views.specs.HostChanges.{is_own};
ghost use Rattle.core_views.specs.HostRuns.{owns_run};
ghost use Rattle.core_views.specs.SlotCommands.{change_at_once};
ghost use Rattle.core_views.specs.Slots.{page_behind};
ghost use Rattle.core_views.specs.SlotSets.{flat_slots};
ghost use Rattle.core_views.specs.LogCommands.{log_read, read_refusal};
ghost use Rattle.core_views.specs.Memory.{with_word};
ghost use Rattle.core_views.specs.Migrations.{call_answer};
ghost use Rattle.core_views.specs.declared.trace.MigrationCall.TheVariants.{Finish, Round};
ghost use Rattle.flat_model.specs.Copying.{CopiesPages, IsBelow, IsCopied, Migrates, frames_left, image_after, with_page, with_pages};
ghost use Rattle.flat_model.specs.Dirty.{is_dirty, is_frame_logged, sets_all};
ghost use Rattle.flat_model.specs.Kept.{GivesLine, IsInRange, facts_of, memory_of};
ghost use Rattle.flat_model.specs.LogSteps.{ReadsLog};
ghost use Rattle.flat_model.specs.Steps.{Accesses, ChangesHost, ChangesRun, ChangesSlots, HasStored, IsChangeOf};

use crate::copies::Copies;
use crate::dirty_frames::DirtyFrames;
use crate::host_pages::{HostPages, owns_run};
use crate::images::{frames_to_copy, image_words, slots_by_id};
use core_views::{
    Actor, Answer, Command, HostChange, Line, LogMode, MemorySlot, Migration, MigrationCall,
    NoMemory, Op, Refusal, RunChange, Sizes, Trace,
};
use hands::SlotSet;
use std::alloc::Global;
use std::collections::HashMap;
use std::marker::Model;

/// Flat guest memory, as it is after some lines of a trace: its slots, what the
/// host maps its pages to, the content words that were written, by host page and
/// word, the dirty guest frames, and the migration of the guest.
#[derive(Drop)]
pub struct Plain {
    slots: SlotSet,
    host: HostPages,
    memory: HashMap<(u64, u8), u64>,
    dirty: DirtyFrames,
    copies: Copies,
}

impl Model for Plain {
    ghost use Rattle.std.specs.Prelude.{◌<◌, ◌^◌};
    ghost use Rattle.core_views.specs.SlotSets.{flat_slots};
    ghost use Rattle.flat_model.specs.Kept.{Kept};
    ghost use Rattle.flat_model.specs.Steps.{AreSlotsOf};

    ghost Value = { Kept };

    ghost view = { λ p. record {
      sizes = p.host.sizes;
      slots = p.slots;
      changed = p.host.changed;
      words = p.memory.entries;
      dirty = p.dirty;
      copies = p.copies;
    } };

    ghost invariant = { λ p. (p.host.sizes.pages < 2 ^ 64) × AreSlotsOf p.host.sizes.pages (flat_slots p.slots) × (p.host.sizes.words < 2 ^ 8) };
}

// Whether the line gives a slot a dirty log in which each page is dirty.
fn sets_all(mode: LogMode, command: &Command) -> bool
    ensures { result ≡ sets_all mode command.now }
{
    match (command, mode) {
        (Command::SetLog { on, .. }, LogMode::ManualAllSet) => *on,
        _ => false,
    }
}

impl Plain {
    /// Guest memory at the start of the trace: no slot, and all content zero.
    pub fn new(alloc: Global, trace: &Trace) -> Result<Self, NoMemory>
        ensures start { IfOk result (λ plain. facts_of plain ≡ first_facts) }
        ensures sizes { IfOk result (λ plain. plain.sizes ≡ sizes_of trace.now.header) }
    {
        // The invariant says that this is a number of 8 bits.
        let _words = trace.header.words;
        Ok(Plain {
            slots: SlotSet::empty(),
            host: HostPages::at_start(alloc, Sizes::of(&trace.header)),
            memory: HashMap::new(alloc),
            dirty: DirtyFrames::none(alloc),
            copies: Copies::none(alloc),
        })
    }

    /// Runs one line alone, and says what it is answered. Where memory is
    /// refused, nothing has changed.
    pub fn line(&mut self, alloc: Global, line: &Line) -> Result<Answer, NoMemory>
        requires { IsInRange line.now.command }
        ensures gives { IfOk result (GivesLine self.old.sizes line.now (facts_of self.old) (facts_of self.new)) }
        ensures kept { OnErr result (self.new ≡ self.old) }
        ensures sizes { self.new.sizes ≡ self.old.sizes }
    {
        if line.command.is_barred() && self.copies.state().is_migrating() {
            return Ok(Answer::Refused(Refusal::Migrating));
        }
        match line.command {
            Command::Access { gfn, word, op } => self.access(gfn, word, op),
            Command::SetSlot { id, .. } | Command::DeleteSlot { id } => self.change_slots(line, id),
            Command::SetLog { id, .. } => self.change_slots(line, id),
            Command::ChangeHost { page, change } => self.change_host(line.actor, page, change),
            Command::ChangeRun { page, change } => self.change_run(line.actor, page, change),
            Command::GetLog { id } | Command::ClearLog { id, .. } => {
                self.read_log(alloc, &line.command, id)
            }
            Command::Migrate { call } => self.migrate(alloc, call),
            Command::Split { .. } => Ok(Answer::Done),
        }
    }

    // Changes the slot with this ID, or its dirty log, if the line has something to do.
    fn change_slots(&mut self, line: &Line, id: u64) -> Result<Answer, NoMemory>
        requires range { IsInRange line.now.command }
        requires slot { IsChangeOf line.now.command id }
        ensures changes { IfOk result (λ answer.
            ChangesSlots line.now.command self.old self.new answer (change_at_once self.old.sizes line.now.command self.old.slots)) }
        ensures kept { OnErr result (self.new ≡ self.old) }
        ensures sizes { self.new.sizes ≡ self.old.sizes }
    {
        let sizes = self.host.sizes();
        if let Some(refusal) = self.slots.at_once(&line.command, sizes) {
            return Ok(Answer::at_once(refusal));
        }
        let mut slots = self.slots;
        slots.make_change(&line.command, sizes);
        let all = sets_all(sizes.mode, &line.command);
        self.dirty
            .change_slot(all, &self.slots.get(id), &slots.get(id))?;
        self.slots = slots;
        Ok(Answer::Done)
    }

    // Reads the dirty log of the slot with this ID, if the line may.
    fn read_log(&mut self, alloc: Global, command: &Command, id: u64) -> Result<Answer, NoMemory>
        requires { log_read command.now ≡ Some id }
        ensures reads { IfOk result (λ answer. ReadsLog command.now self.old self.new answer (read_refusal command.now self.old.slots)) }
        ensures kept { OnErr result (self.new ≡ self.old) }
        ensures sizes { self.new.sizes ≡ self.old.sizes }
    {
        let slot = match self.slots.to_read(command, id) {
            Ok(slot) => slot,
            Err(refusal) => return Ok(Answer::Refused(refusal)),
        };
        let words = self.dirty.words(alloc, command, &slot)?;
        if command.takes_out(self.host.sizes().mode) {
            self.dirty.take_out(command, &slot);
        }
        Ok(Answer::Bits(words))
    }

    fn access(&mut self, gfn: u64, word: u8, op: Op) -> Result<Answer, NoMemory>
        ensures reached { IfOk result (Accesses gfn word op self.old self.new) }
        ensures kept { OnErr result (self.new ≡ self.old) }
        ensures sizes { self.new.sizes ≡ self.old.sizes }
    {
        if self.copies.state().is_paused() {
            return Ok(Answer::Paused);
        }
        let Some(page) = self.page_behind(gfn, op) else {
            return Ok(Answer::Mmio);
        };
        let entry = self.host.entry_of(page);
        if op.is_write() && !entry.writable {
            return Ok(Answer::HostFault);
        }
        let value = self.touch(gfn, page, word, op)?;
        self.host.bring_in(page);
        Ok(Answer::Reached {
            frame: entry.frame,
            value,
        })
    }

    // Does the operation to the word of the host page that is behind the guest frame, and
    // gives what the word held before. Where memory is refused, nothing has changed.
    fn touch(&mut self, gfn: u64, page: u64, word: u8, op: Op) -> Result<u64, NoMemory>
        ensures value { IfOk result (λ value. value ≡ memory_of self.old.words page word) }
        ensures stored { OnOk result (HasStored gfn page word op self.old self.new) }
        ensures kept { OnErr result (self.new ≡ self.old) }
        ensures sizes { self.new.sizes ≡ self.old.sizes }
    {
        let value = self.content(page, word);
        if !op.is_write() {
            return Ok(value);
        }
        self.write(gfn, page, word, op.stored(value))?;
        Ok(value)
    }

    // Writes the word of the host page that is behind the guest frame, which is dirty then, if
    // its writes are logged. Where memory is refused, nothing has changed.
    fn write(&mut self, gfn: u64, page: u64, word: u8, value: u64) -> Result<(), NoMemory>
        ensures words { OnOk result ((p w : ℕ) → memory_of self.new.words p w ≡ with_word page word value (memory_of self.old.words) p w) }
        ensures dirty { OnOk result ((other : ℕ) →
            is_dirty self.new.dirty other ≡ ((is_frame_logged self.old.slots gfn && (gfn == other)) || is_dirty self.old.dirty other)) }
        ensures rest { OnOk result ((self.new.sizes ≡ self.old.sizes) × (self.new.slots ≡ self.old.slots) × (self.new.changed ≡ self.old.changed)
            × (self.new.copies ≡ self.old.copies)) }
        ensures kept { OnErr result (self.new ≡ self.old) }
    {
        let logged = self.is_logged(gfn);
        let newly_dirty = self.dirty.add(gfn, logged)?;
        match self.memory.insert((page, word), value) {
            Ok(_) => Ok(()),
            Err(refused) => {
                if newly_dirty {
                    self.dirty.remove(gfn);
                }
                Err(refused.into())
            }
        }
    }

    // What the word of the host page holds.
    fn content(&self, page: u64, word: u8) -> u64
        ensures { result ≡ memory_of self.now.words page word }
    {
        self.memory.get(&(page, word)).copied().unwrap_or(0)
    }

    // Does what the call asks of the migration, if there is something to do.
    fn migrate(&mut self, alloc: Global, call: MigrationCall) -> Result<Answer, NoMemory>
        ensures migrates { IfOk result (λ answer. Migrates call self.old self.new answer (call_answer self.old.slots self.old.copies.state call)) }
        ensures kept { OnErr result (self.new ≡ self.old) }
        ensures sizes { self.new.sizes ≡ self.old.sizes }
    {
        if let Some(answer) = self.slots.call_answer(self.copies.state(), call) {
            return Ok(answer);
        }
        match call {
            MigrationCall::Start => {
                let slots = slots_by_id(alloc, &self.slots)?;
                self.copies.start(alloc, slots.as_slice())?;
                Ok(Answer::Done)
            }
            MigrationCall::Round => self.round(alloc),
            MigrationCall::Finish => self.finish(alloc),
            MigrationCall::Resume => {
                self.copies.resume();
                Ok(Answer::Done)
            }
        }
    }

    // Reads the dirty logs of the slots, and copies their pages that are dirty or yet to be
    // copied. Where memory is refused, nothing has changed.
    fn round(&mut self, alloc: Global) -> Result<Answer, NoMemory>
        ensures copies { IfOk result (CopiesPages Round self.old self.new) }
        ensures kept { OnErr result (self.new ≡ self.old) }
        ensures sizes { self.new.sizes ≡ self.old.sizes }
    {
        let slots = slots_by_id(alloc, &self.slots)?;
        let (image, count) = self.next_image(alloc, slots.as_slice())?;
        let state = self.copies.state();
        self.put_image(state, image);
        Ok(Answer::Copied(count))
    }

    // Stops the guest, and does the same. The answer is the image.
    fn finish(&mut self, alloc: Global) -> Result<Answer, NoMemory>
        ensures copies { IfOk result (CopiesPages Finish self.old self.new) }
        ensures kept { OnErr result (self.new ≡ self.old) }
        ensures sizes { self.new.sizes ≡ self.old.sizes }
    {
        let slots = slots_by_id(alloc, &self.slots)?;
        let (image, _) = self.next_image(alloc, slots.as_slice())?;
        let words = self.host.sizes().words as u8;
        let answer = image_words(alloc, slots.as_slice(), words, &image)?;
        self.put_image(Migration::Stopped, image);
        Ok(Answer::Image(answer))
    }

    // The image, with the pages of these slots, which are all, that are dirty or yet to be
    // copied; and how many pages these are.
    fn next_image(
        &self,
        alloc: Global,
        slots: &[(u64, MemorySlot)],
    ) -> Result<(HashMap<(u64, u8), u64>, u64), NoMemory>
        requires all { slots.now ≡ self.now.slots }
        requires below { All IsBelow slots.now }
        ensures image { IfOk result (λ found. memory_of found.0.entries ≡ image_after self.now) }
        ensures count { IfOk result (λ found. found.1 ≡ length (frames_left self.now)) }
    {
        let frames = frames_to_copy(alloc, slots, &self.dirty, self.copies.to_copy())?;
        let image = self.image_with(frames.as_slice())?;
        Ok((image, frames.len() as u64))
    }

    // The pages of all slots are copied, into this image, and the migration has come so far.
    fn put_image(&mut self, state: Migration, image: HashMap<(u64, u8), u64>)
        ensures copied { IsCopied state image.entries self.old self.new }
        ensures sizes { self.new.sizes ≡ self.old.sizes }
    {
        self.dirty.leave(&self.slots);
        self.copies.copied(state, image, &self.slots);
    }

    // The image, with the pages behind these guest frames.
    fn image_with(&self, frames: &[u64]) -> Result<HashMap<(u64, u8), u64>, NoMemory>
        ensures { IfOk result (λ image. memory_of image.entries
            ≡ with_pages self.now.sizes.words self.now.slots frames.now (memory_of self.now.words) (memory_of self.now.copies.image)) }
    {
        let mut image = self.copies.image().clone()?;
        let mut rest = frames;
        while let [gfn, more @ ..] = rest {
            let page = self.page_behind(*gfn, Op::Read).unwrap_or(0);
            self.copy_page(page, &mut image)?;
            rest = more;
        }
        Ok(image)
    }

    // Copies the words of the page into the image.
    fn copy_page(&self, page: u64, image: &mut HashMap<(u64, u8), u64>) -> Result<(), NoMemory>
        ensures { OnOk result (memory_of image.new.entries
            ≡ with_page self.now.sizes.words page (memory_of self.now.words) (memory_of image.old.entries)) }
    {
        let words = self.host.sizes().words as u8;
        for word in 0..words.max(1) {
            image.insert((page, word), self.content(page, word))?;
        }
        Ok(())
    }

    // Whether writes to the guest frame are logged.
    fn is_logged(&self, gfn: u64) -> bool
        ensures { result ≡ is_frame_logged self.now.slots gfn }
    {
        let Some((id, _)) = self.slots.slot_of(gfn) else {
            return false;
        };
        self.slots.get(id).is_some_and(|slot| slot.logged)
    }

    // Changes the host page, if it is one of the actor's own.
    fn change_host(
        &mut self,
        actor: Actor,
        page: u64,
        change: HostChange,
    ) -> Result<Answer, NoMemory>
        ensures changes { IfOk result (λ answer. ChangesHost page change self.old self.new answer (is_own self.old.sizes actor page)) }
        ensures kept { OnErr result (self.new ≡ self.old) }
        ensures sizes { self.new.sizes ≡ self.old.sizes }
    {
        match actor {
            Actor::Host(host) if self.host.sizes().owns(host, page) => {
                self.host.change(page, change)
            }
            _ => Ok(Answer::Refused(Refusal::OutOfRange)),
        }
    }

    // Sets the run of host pages, if the pages that the line names are the actor's own.
    fn change_run(&mut self, actor: Actor, page: u64, change: RunChange) -> Result<Answer, NoMemory>
        ensures sets { IfOk result (λ answer. ChangesRun page change self.old self.new answer (owns_run self.old.sizes actor page change)) }
        ensures kept { OnErr result (self.new ≡ self.old) }
        ensures sizes { self.new.sizes ≡ self.old.sizes }
    {
        if !owns_run(self.host.sizes(), actor, page, change) {
            return Ok(Answer::Refused(Refusal::OutOfRange));
        }
        self.host.set_run(page, change)
    }

    // The host page that the slots give the guest frame for this operation.
    fn page_behind(&self, gfn: u64, op: Op) -> Option<u64>
        ensures { result ≡ page_behind (flat_slots self.now.slots) gfn op }
    {
        let found = self.slots.slot_of(gfn)?;
        let slot = found.1.slot;
        if op.is_write() && slot.read_only {
            return None;
        }
        Some(slot.host + (gfn - slot.base))
    }
}
