ghost use Rattle.mmu_core.specs.invariant.Scans.{ClaimsScanOnce, ClaimsSeeEachWord};

/// What a claim has seen, in every list of steps that is enabled step by step,
/// of all actors in any order, from the start of every machine: each word of the
/// pool's map that it has gone past was loaded by its actor with no free page in
/// it, and all of them since it began. So a claim that ended with
/// [`Claimed::Empty`](crate::Claimed::Empty) saw no free page in any word.
pub fn a_scan_saw_each_word_empty()
    ensures each { ClaimsSeeEachWord }
    ensures once { ClaimsScanOnce }
{}
