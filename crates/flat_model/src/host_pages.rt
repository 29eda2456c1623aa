ghost use Rattle.std.specs.Prelude.{◌≡◌, ◌+◌, ◌^◌, ◌≤◌, [], IfOk, OnErr, OnOk, true};
ghost use Rattle.core_views.specs.Host.{brought_in, is_huge};
ghost use Rattle.core_views.specs.HostRuns.{are_in_a_row, continues, is_aligned, is_any_huge, owns_run, run_pages};
ghost use Rattle.core_views.specs.declared.trace.HostChange.TheVariants.{Move};
ghost use Rattle.core_views.specs.declared.trace.RunChange.TheVariants.{Huge, Small};
ghost use Rattle.flat_model.specs.HostPages.{ChangesEntries, ChangesUnlessHuge, IsInReach, Maps, SetsRun, host_of, with_levels};

use crate::free_frames::FreeFrames;
use core_views::{
    Actor, Answer, HostChange, HostEntry, NoMemory, Refusal, RunChange, Sizes, run_pages,
};
use std::alloc::Global;
use std::collections::HashMap;
use std::marker::Model;

/// What the host maps its pages to: the entries of the pages that some line has
/// changed, and the frames that no page names.
#[derive(Drop)]
pub struct HostPages {
    sizes: Sizes,
    changed: HashMap<u64, HostEntry>,
    free: FreeFrames,
}

impl Model for HostPages {
    ghost use Rattle.flat_model.specs.HostPages.{AreFree, HostKept, host_of};

    ghost Value = { HostKept };

    ghost view = { λ h. record { sizes = h.sizes; changed = h.changed.entries } };

    ghost invariant = { λ h. AreFree h.sizes.pages (host_of h.changed.entries) h.free };
}

/// Whether the pages that the line names are the actor's own: those of the run that is to be
/// large, or the one page.
pub fn owns_run(sizes: &Sizes, actor: Actor, page: u64, change: RunChange) -> bool
    ensures owns { result ≡ owns_run sizes.now actor page change }
    ensures reach { result ≡ true → IsInReach page change }
{
    let Actor::Host(host) = actor else {
        return false;
    };
    match change {
        RunChange::Huge(level) => {
            let next = host as usize + 1;
            let end = sizes.first_pages.get(next).copied().unwrap_or(sizes.pages);
            sizes.owns(host, page) && run_pages(level) <= end - page
        }
        RunChange::Small => sizes.owns(host, page),
    }
}

// What the host maps the page to, where lines have changed these.
fn entry_in(changed: &HashMap<u64, HostEntry>, page: u64) -> HostEntry
    ensures { result ≡ host_of changed.now.entries page }
{
    let own = HostEntry {
        frame: page,
        present: true,
        writable: true,
        level: 1,
    };
    changed.get(&page).copied().unwrap_or(own)
}

// Whether the page with this entry, so many pages after the first of a run, goes on with the
// run: it is present, at the frame so many after the first one's, and allows what that one does.
fn continues(first: HostEntry, after: u64, entry: HostEntry) -> bool
    ensures { result ≡ continues (first.frame + after) first.writable entry }
{
    entry.present
        && first.frame <= entry.frame
        && entry.frame - first.frame == after
        && entry.writable == first.writable
}

// Sets so many pages, from this one on, to this level. Where memory is refused, nothing has
// changed: room for all of them is taken first.
fn set_levels(
    changed: &mut HashMap<u64, HostEntry>,
    first: u64,
    count: u64,
    level: u8,
) -> Result<(), NoMemory>
    requires { first + count ≤ 2 ^ 64 }
    ensures set { OnOk result (host_of changed.new.entries ≡ with_levels first count level (host_of changed.old.entries)) }
    ensures kept { OnErr result (changed.new.entries ≡ changed.old.entries) }
{
    changed.reserve(count as usize)?;
    for done in 0..count {
        let page = first + done;
        let was = entry_in(changed, page);
        changed.insert(page, HostEntry { level, ..was })?;
    }
    Ok(())
}

impl HostPages {
    /// Each page is at the frame of its own number.
    pub fn at_start(alloc: Global, sizes: Sizes) -> Self
        ensures { result ≡ record { sizes = sizes; changed = [] } }
    {
        HostPages {
            sizes,
            changed: HashMap::new(alloc),
            free: FreeFrames::starting_at(alloc, sizes.pages),
        }
    }

    /// The sizes of the machine.
    pub fn sizes(&self) -> &Sizes
        ensures { result.now ≡ self.now.sizes }
    {
        &self.sizes
    }

    /// What the host maps the page to.
    pub fn entry_of(&self, page: u64) -> HostEntry
        ensures { result ≡ host_of self.now.changed page }
    {
        entry_in(&self.changed, page)
    }

    /// Changes the entry of the page, unless it is part of a large one, and gives the answer
    /// of the line that asked for it. Where memory is refused, nothing has changed.
    pub fn change(&mut self, page: u64, change: HostChange) -> Result<Answer, NoMemory>
        ensures changes { let huge = is_huge (host_of self.old.changed page) in
            IfOk result (λ answer. ChangesUnlessHuge self.old.sizes page change self.old.changed self.new.changed answer huge) }
        ensures kept { OnErr result (self.new ≡ self.old) }
        ensures sizes { self.new.sizes ≡ self.old.sizes }
    {
        if self.entry_of(page).is_huge() {
            return Ok(Answer::Refused(Refusal::IsHuge));
        }
        self.revise(page, change)
    }

    // Changes the entry of the page, which is a small one.
    fn revise(&mut self, page: u64, change: HostChange) -> Result<Answer, NoMemory>
        ensures changes { IfOk result (ChangesEntries self.old.sizes page change self.old.changed self.new.changed) }
        ensures kept { OnErr result (self.new ≡ self.old) }
        ensures sizes { self.new.sizes ≡ self.old.sizes }
    {
        let was = self.entry_of(page);
        let entry = match change {
            HostChange::Move => return self.move_page(page, was),
            HostChange::Evict => HostEntry {
                present: false,
                ..was
            },
            HostChange::Protect => HostEntry {
                writable: false,
                ..was
            },
            HostChange::Allow => HostEntry {
                writable: true,
                ..was
            },
        };
        self.changed.insert(page, entry)?;
        Ok(Answer::Done)
    }

    // Moves the page, which has this entry, to the lowest free frame.
    fn move_page(&mut self, page: u64, was: HostEntry) -> Result<Answer, NoMemory>
        requires { was ≡ host_of self.old.changed page }
        ensures changes { IfOk result (ChangesEntries self.old.sizes page Move self.old.changed self.new.changed) }
        ensures kept { OnErr result (self.new ≡ self.old) }
        ensures sizes { self.new.sizes ≡ self.old.sizes }
    {
        let frame = self.free.lowest();
        if frame >= self.sizes.frames {
            return Ok(Answer::Refused(Refusal::NoFrame));
        }
        let entry = HostEntry { frame, ..was };
        // The machine's pages alone name frames. No trace gives a host thread others.
        if page >= self.sizes.pages {
            self.changed.insert(page, entry)?;
            return Ok(Answer::Moved(frame));
        }
        self.free.give(was.frame)?;
        match self.changed.insert(page, entry) {
            Ok(_) => {
                self.free.take(frame);
                Ok(Answer::Moved(frame))
            }
            Err(refused) => {
                self.free.take(was.frame);
                Err(refused.into())
            }
        }
    }

    /// Sets the run of pages, unless it may not be, and gives the answer of the line that asked
    /// for it. Where memory is refused, nothing has changed.
    pub fn set_run(&mut self, page: u64, change: RunChange) -> Result<Answer, NoMemory>
        requires { IsInReach page change }
        ensures sets { IfOk result (SetsRun page change self.old.changed self.new.changed) }
        ensures kept { OnErr result (self.new ≡ self.old) }
        ensures sizes { self.new.sizes ≡ self.old.sizes }
    {
        match change {
            RunChange::Huge(level) => self.make_huge(page, level),
            RunChange::Small => self.make_small(page),
        }
    }

    // Makes the run of this level that begins at the page one large page, if it can be.
    fn make_huge(&mut self, page: u64, level: u8) -> Result<Answer, NoMemory>
        requires { page + run_pages level ≤ 2 ^ 64 }
        ensures sets { IfOk result (SetsRun page (Huge level) self.old.changed self.new.changed) }
        ensures kept { OnErr result (self.new ≡ self.old) }
        ensures sizes { self.new.sizes ≡ self.old.sizes }
    {
        let count = run_pages(level);
        if self.is_any_huge(page, count) {
            return Ok(Answer::Refused(Refusal::IsHuge));
        }
        if !self.is_aligned(page, level) {
            return Ok(Answer::Refused(Refusal::NotAligned));
        }
        set_levels(&mut self.changed, page, count, level)?;
        Ok(Answer::Done)
    }

    // Makes each page small of the large page that has this one.
    fn make_small(&mut self, page: u64) -> Result<Answer, NoMemory>
        ensures sets { IfOk result (SetsRun page Small self.old.changed self.new.changed) }
        ensures kept { OnErr result (self.new ≡ self.old) }
        ensures sizes { self.new.sizes ≡ self.old.sizes }
    {
        let entry = self.entry_of(page);
        let count = run_pages(entry.level);
        let first = page / count * count;
        set_levels(&mut self.changed, first, count, 1)?;
        Ok(Answer::Done)
    }

    // Whether one of so many pages, from this one on, is part of a large one.
    fn is_any_huge(&self, first: u64, count: u64) -> bool
        requires { first + count ≤ 2 ^ 64 }
        ensures { result ≡ is_any_huge (host_of self.now.changed) first count }
    {
        for done in 0..count {
            if self.entry_of(first + done).is_huge() {
                return true;
            }
        }
        false
    }

    // Whether the page and its frame are the first of a run of this level each, and the pages
    // of the run can be mapped as one.
    fn is_aligned(&self, page: u64, level: u8) -> bool
        requires { page + run_pages level ≤ 2 ^ 64 }
        ensures { result ≡ is_aligned (host_of self.now.changed) page level }
    {
        let count = run_pages(level);
        let first = self.entry_of(page);
        page % count == 0 && first.frame % count == 0 && self.are_in_a_row(page, first, count)
    }

    // Whether so many pages, from this one on, are present, at frames from that of this entry
    // on, and allow what it does.
    fn are_in_a_row(&self, page: u64, first: HostEntry, count: u64) -> bool
        requires { page + count ≤ 2 ^ 64 }
        ensures { result ≡ are_in_a_row (host_of self.now.changed) first.frame first.writable page count }
    {
        for done in 0..count {
            let entry = self.entry_of(page + done);
            if !continues(first, done, entry) {
                return false;
            }
        }
        true
    }

    /// Makes the page present: an access brings it in.
    pub fn bring_in(&mut self, page: u64)
        ensures present { Maps page (brought_in (host_of self.old.changed page)) self.old.changed self.new.changed }
        ensures sizes { self.new.sizes ≡ self.old.sizes }
    {
        if let Some(entry) = self.changed.get_mut(&page) {
            entry.present = true;
        }
    }
}
