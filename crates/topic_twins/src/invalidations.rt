//! What a line invalidates, and the range of guest frames of the open invalidations (KVM's
//! kvm_main.c, `kvm_mmu_invalidate_range_add`).
ghost use Rattle.std.specs.Prelude.{◌≡◌, ◌≤◌, Some};
ghost use Rattle.core_views.specs.declared.topics.PageRun.{PageRun};
ghost use Rattle.part_steps.specs.InvalidationRange.{has_found, has_found_looked};
ghost use Rattle.part_steps.specs.InvalidationRange.{page_looked, run_aimed, run_of_look};

use crate::page_runs::{is_single, run_looked};
use core_views::{HostLook, HostRow, PageRun, Topics};
use part_steps::has_found;

// The host page that was looked at last.
pub(crate) fn page_looked(host: Option<HostLook>) -> u64
    ensures { result ≡ page_looked host }
{
    match host {
        Some(look) => look.page,
        None => 0,
    }
}

// The run of its page, if one was, by what was seen of the pages in a row with it.
fn run_of_look(host: Option<HostLook>, row: &HostRow) -> Option<PageRun>
    ensures is { result ≡ run_of_look host row.now }
    ensures to { (run : PageRun) → result ≡ Some run → run.level ≤ 3 }
{
    Some(run_looked(host?, row))
}

/// The run of host pages that the actor may change, if it may change one.
pub fn run_aimed(topics: &Topics) -> Option<PageRun>
    ensures is { result ≡ run_aimed topics.now }
    ensures to { (run : PageRun) → result ≡ Some run → run.level ≤ 3 }
{
    if topics.owned.is_some() {
        None
    } else {
        run_of_look(topics.host, &topics.row)
    }
}

/// Whether the search has found the slot with the one page that the actor may change.
pub fn has_found_looked(topics: &Topics) -> bool
    ensures { result ≡ has_found_looked topics.now }
{
    is_single(run_aimed(topics)) && has_found(page_looked(topics.host), &topics.search)
}
