//! What a line invalidates, and the range of guest frames of the open invalidations (KVM's
//! kvm_main.c, `kvm_mmu_invalidate_range_add`).
ghost use Rattle.std.specs.Prelude.{◌≡◌, ◌<◌, ◌+◌, ◌^◌};
ghost use Rattle.part_steps.specs.InvalidationRange.{HasSmallSlot, IsSmall, end_with, gfn_behind, has_found, has_searched};
ghost use Rattle.part_steps.specs.InvalidationRange.{range_end, range_start, start_with, target_end, target_start};

use core_views::{HostRow, Invalidations, PageRun, SLOTS, Slot, SlotSearch, Topics};

/// What a line invalidates: guest frames that are to be zapped and flushed before it goes on.
#[derive(Clone, Copy, Drop)]
pub enum Target {
    /// The guest frame that a slot gives to this host page, which is to change.
    Page(u64),
    /// Those that slots give to the pages of this run of several, which are to change.
    Run(PageRun),
    /// The guest frames of this slot, which is to be moved or deleted.
    Slot(Slot),
}

/// The guest frame that the slot gives to the host page.
pub fn gfn_behind(page: u64, slot: &Slot) -> u64
    requires { gfn_behind page slot.now < 2 ^ 64 }
    ensures { result ≡ gfn_behind page slot.now }
{
    slot.base + page.saturating_sub(slot.host)
}

/// Whether the search has found the slot with the host page.
pub fn has_found(page: u64, search: &SlotSearch) -> bool
    ensures { result ≡ has_found page search.now }
{
    search.whole && search.slot.has_host_page(page)
}

impl Target {
    /// Whether the search for it has come to its end.
    pub fn has_searched(&self, search: &SlotSearch) -> bool
        ensures { result ≡ has_searched self.now search.now }
    {
        let found = match self {
            Target::Page(page) => has_found(*page, search),
            Target::Run(_) => false,
            Target::Slot(slot) => slot.pages == 1 && has_found(slot.host, search),
        };
        found || search.id == SLOTS
    }

    /// The first one of its guest frames; 0 where no slot has one of its pages.
    pub fn start(&self, search: &SlotSearch, row: &HostRow) -> u64
        requires slot { HasSmallSlot search.now }
        ensures { result ≡ target_start self.now search.now row.now }
    {
        match self {
            Target::Page(page) if has_found(*page, search) => gfn_behind(*page, &search.slot),
            Target::Page(_) => 0,
            Target::Run(_) => row.start,
            Target::Slot(slot) => slot.base,
        }
    }

    /// The guest frame after the last of them; 0 where no slot has one of its pages.
    pub fn end(&self, search: &SlotSearch, row: &HostRow) -> u64
        requires small { IsSmall self.now }
        requires slot { HasSmallSlot search.now }
        ensures { result ≡ target_end self.now search.now row.now }
    {
        match self {
            Target::Page(page) if has_found(*page, search) => gfn_behind(*page, &search.slot) + 1,
            Target::Page(_) => 0,
            Target::Run(_) => row.end,
            Target::Slot(slot) => slot.base + slot.pages,
        }
    }

    /// The first guest frame of the range of open invalidations, with its own.
    pub fn range_start(&self, topics: &Topics) -> u64
        requires small { IsSmall self.now }
        requires slot { HasSmallSlot topics.now.search }
        ensures { result ≡ range_start self.now topics.now }
    {
        let (search, row) = (&topics.search, &topics.row);
        start_with(
            self.start(search, row),
            self.end(search, row),
            &topics.invalidations,
        )
    }

    /// The guest frame after its last one.
    pub fn range_end(&self, topics: &Topics) -> u64
        requires small { IsSmall self.now }
        requires slot { HasSmallSlot topics.now.search }
        ensures { result ≡ range_end self.now topics.now }
    {
        let (search, row) = (&topics.search, &topics.row);
        end_with(
            self.start(search, row),
            self.end(search, row),
            &topics.invalidations,
        )
    }
}

/// The first guest frame of the range of open invalidations, with those from `first` up to
/// `last`, if there are any.
pub fn start_with(first: u64, last: u64, seen: &Invalidations) -> u64
    ensures { result ≡ start_with first last seen.now }
{
    if first < last {
        if seen.count == 0 {
            first
        } else {
            seen.start.min(first)
        }
    } else if seen.count == 0 {
        0
    } else {
        seen.start
    }
}

/// The guest frame after its last one.
pub fn end_with(first: u64, last: u64, seen: &Invalidations) -> u64
    ensures { result ≡ end_with first last seen.now }
{
    if first < last {
        if seen.count == 0 {
            last
        } else {
            seen.end.max(last)
        }
    } else if seen.count == 0 {
        0
    } else {
        seen.end
    }
}
