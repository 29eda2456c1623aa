//! The steps by which a line comes to share the lock, which several kinds of line make
//! in the same order.
ghost use Rattle.std.specs.Prelude.{◌≡◌};
ghost use Rattle.mmu_core.specs.orders.ShareSteps.{share_next, share_part};

use core_views::Hold;
use mmu_core::ShareNext;
use part_steps::PartStep;
use part_twins::has_writer;

/// The step of sharing the lock.
pub fn share_part(hold: Hold) -> PartStep
    ensures { result ≡ share_part hold }
{
    match hold {
        Hold::Owing(_) => PartStep::Unshare,
        _ => PartStep::Share,
    }
}

/// What sharing the lock comes to with its step, which answered `found`.
pub fn share_next(hold: Hold, found: u64) -> ShareNext
    ensures { result ≡ share_next hold found }
{
    match hold {
        Hold::Owing(_) => ShareNext::Tries,
        _ if has_writer(found) => ShareNext::Tries,
        _ => ShareNext::Shares,
    }
}
