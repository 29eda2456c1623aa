//! The steps of a claim of a page of the pool, or of a frame of the host, which several
//! kinds of line make in the same order.
ghost use Rattle.std.specs.Prelude.{◌≡◌, ◌<◌, ◌^◌, true};
ghost use Rattle.core_views.specs.Sizes.{AreSizes};
ghost use Rattle.mmu_core.specs.orders.ClaimSteps.{claim_next, claim_part, loads_last_word, map_word, tries_one};

use core_views::{MapClaim, Sizes};
use mmu_core::{ClaimNext, FreeMap};
use part_steps::PartStep;
use part_twins::is_won;

fn tries_one(begun: bool, claim: &MapClaim) -> bool
    ensures { result ≡ tries_one begun claim.now }
{
    begun && claim.seen > 0
}

fn map_word(begun: bool, claim: &MapClaim) -> u64
    ensures { result ≡ map_word begun claim.now }
{
    if begun { claim.at } else { 0 }
}

/// The step of a claim.
pub fn claim_part(map: FreeMap, begun: bool, claim: &MapClaim) -> PartStep
    ensures { result ≡ claim_part map begun claim.now }
{
    if tries_one(begun, claim) {
        map.try_part()
    } else {
        map.load_part(map_word(begun, claim))
    }
}

/// The step loads the last word of the map.
pub fn loads_last_word(map: FreeMap, begun: bool, sizes: &Sizes, claim: &MapClaim) -> bool
    requires sizes { AreSizes sizes.now }
    requires at { claim.now.at < 2 ^ 32 }
    ensures { result ≡ loads_last_word map begun sizes.now claim.now }
{
    !tries_one(begun, claim) && map_word(begun, claim) + 1 == map.words(sizes)
}

/// What a claim comes to with its step, which answered `found`.
pub fn claim_next(
    map: FreeMap,
    begun: bool,
    sizes: &Sizes,
    claim: &MapClaim,
    found: u64,
) -> ClaimNext
    requires sizes { AreSizes sizes.now }
    requires at { claim.now.at < 2 ^ 32 }
    ensures { result ≡ claim_next map begun sizes.now claim.now found }
{
    if tries_one(begun, claim) {
        return if is_won(claim, found) {
            ClaimNext::Got
        } else {
            ClaimNext::Goes
        };
    }
    let at = map_word(begun, claim) + if found == 0 { 1 } else { 0 };
    if at < map.words(sizes) {
        ClaimNext::Goes
    } else {
        ClaimNext::Empty
    }
}
