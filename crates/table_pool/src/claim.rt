ghost use Rattle.std.specs.Prelude.{◌≡◌, ◌<◌, ℕ, true, false};
ghost use Rattle.core_views.specs.Sizes.{AreSizes};
ghost use Rattle.part_steps.specs.PartTopics.{part_topics};
ghost use Rattle.mmu_core.specs.declared.claim.FreeMap.TheVariants.{Pages};
ghost use Rattle.mmu_core.specs.invariant.Scans.{OwnsNone};
ghost use Rattle.mmu_core.specs.orders.ClaimSteps.{claim_over, map_words};
ghost use Rattle.mmu_core.specs.machine.MayMake.{MayMake};
ghost use Rattle.mmu_core.specs.machine.Steps.{has_line};
ghost use Rattle.mmu_core.specs.machine.Worlds.{HandReached};
ghost use Rattle.step_seats.specs.Moves.{KeepsSeat};
ghost use Rattle.step_seats.specs.PartTurns.{TurnsPart, waits};
ghost use Rattle.step_seats.specs.declared.turn.Turn.TheVariants.{More, Done};
ghost use Rattle.table_pool.specs.Maps.{got_in};
ghost use Rattle.table_pool.specs.Claims.{
  ClaimTurn,
  GoesOnWhereSawStands,
  IsFirstSeen,
  IsItsAlone,
  IsNearer,
  SawWhatStands,
  WasFree,
  claim_of,
  claim_step,
  next_word,
  sees_free,
};
ghost use Rattle.table_pool.specs.declared.claim.Claimed.TheVariants.{Got};

use core_views::{MapClaim, Seen, Sizes, Topics};
use mmu_core::FreeMap;
use part_steps::{PartStep, map_of};
use step_seats::{Hand, Stepper, Turn, make_part, part_rests};

// The page, or the frame, that the actor owns.
fn got_in(map: FreeMap, topics: &Topics) -> Option<u64>
    ensures { result ≡ got_in map topics.now }
{
    match (map, topics.owned, topics.frames.owned) {
        (FreeMap::Pages, Some(owned), _) => Some(owned.page),
        (FreeMap::Frames, _, Some(owned)) => Some(owned.frame),
        _ => None,
    }
}

/// What a claim ended with.
#[derive(Clone, Copy, Debug, PartialEq, Eq, Drop)]
pub enum Claimed {
    /// The actor owns this page of the pool, or this frame of the host, and no other
    /// actor does.
    Got(u64),
    /// Each word of the map was seen with nothing free.
    Empty,
}

/// A claim of a free page of the pool, or of a free frame of the host, a step a turn. It
/// goes through the words of the map in their order, and tries the lowest page or frame of
/// the first one where it sees any free (tdp_mmu.c, `tdp_mmu_alloc_sp`;
/// page_migration.rst).
#[derive(Clone, Copy, Drop)]
pub struct Claim {
    /// The map that it goes through.
    pub map: FreeMap,
    /// Whether the first word of the map was loaded.
    pub begun: bool,
}

impl Claim {
    /// A claim in this map that is yet to begin.
    pub fn new(map: FreeMap) -> Claim
        ensures { result ≡ record { map = map; begun = false } }
    {
        Claim { map, begun: false }
    }

    /// A claim of a page that isn't over may take its next turn, by a hand that has no
    /// line left and owns no page. A frame is claimed by lines alone.
    pub fn may_turn(&self, hand: &Hand, note: u64)
        requires pages { self.now.map ≡ Pages }
        requires reached { ∥ HandReached hand.now.core ∥₁ }
        requires idle { has_line hand.now.core ≡ false }
        requires owns_none { OwnsNone self.now.map hand.now.core.topics }
        requires not_over { self.now.begun ≡ true
            → (claim_over self.now.map hand.now.core.topics).at < map_words self.now.map hand.now.core.state.sizes }
        ensures { MayMake (claim_step self.now hand.now.core.topics) note hand.now.core }
    {}

    // It tries one of those that it saw free.
    fn tries(self, claim: &MapClaim) -> bool
        ensures { result ≡ sees_free self claim.now }
    {
        self.begun && claim.seen > 0
    }

    // Its next step.
    fn step(self, topics: &Topics) -> PartStep
        ensures { result ≡ claim_step self topics.now }
    {
        let claim = self.map.claim_of(topics);
        if self.tries(&claim) {
            return self.map.try_part();
        }
        let word = if self.begun { claim.at } else { 0 };
        self.map.load_part(word)
    }

    // What the turn answers whose step found this, by what the actor held before the step
    // and what it holds after it.
    fn answer(self, sizes: &Sizes, before: &Topics, found: u64, after: &Topics) -> Turn<Claimed>
        requires sizes { AreSizes sizes.now }
        requires owns_none { OwnsNone self.map before.now }
        requires inside { next_word self (claim_of self before.now) < map_words self.map sizes.now }
        requires stepped { after.now ≡ part_topics (claim_step self before.now) before.now found }
        ensures { ClaimTurn sizes.now self result before.now after.now }
    {
        let claim = self.map.claim_of(before);
        if self.tries(&claim) {
            let word = map_of(sizes).word_of(self.map.area(), claim.at);
            match got_in(self.map, after) {
                Some(one) => Turn::Done(Claimed::Got(one)),
                None => Turn::Wait(Seen { word, value: found }),
            }
        } else if self.map.claim_of(after).at < self.map.words(sizes) {
            Turn::More
        } else {
            Turn::Done(Claimed::Empty)
        }
    }

    /// Tries the lowest page or frame of those seen, or loads the next word of the map.
    /// `Wait` exactly where its step waits, since another actor took this page or frame
    /// meanwhile: what was seen then is what the claim goes on with.
    pub fn turn<S: Stepper>(&mut self, s: &mut S, note: u64) -> Turn<Claimed>
        requires may { MayMake (claim_step self.old (S.seat s.old).hand.topics) note (S.seat s.old).hand }
        requires reserved { 0 < (S.seat s.old).room }
        ensures step { TurnsPart (waits result) (claim_step self.old (S.seat s.old).hand.topics) note (S.seat s.old) (S.seat s.new) }
        ensures turned { ClaimTurn (S.seat s.old).hand.state.sizes self.old result (S.seat s.old).hand.topics (S.seat s.new).hand.topics }
        ensures begun { self.new ≡ record { map = self.old.map; begun = true } }
        ensures first { (one : ℕ) → result ≡ Done (Got one) → IsFirstSeen one (claim_over self.old.map (S.seat s.old).hand.topics) }
        ensures free { WasFree result self.old note (S.seat s.old) (S.seat s.new) }
        ensures sole { IsItsAlone result self.old note (S.seat s.old) (S.seat s.new) }
        ensures stands { SawWhatStands self.old note (S.seat s.old) (S.seat s.new) }
        ensures alone { GoesOnWhereSawStands result self.old note (S.seat s.old) (S.seat s.new) }
        ensures nearer { result ≡ More → IsNearer self.old self.new (S.seat s.old) (S.seat s.new) }
        ensures keeps { KeepsSeat (S.seat s.old) (S.seat s.new) (S.frame s.old) (S.frame s.new) }
    {
        part_rests(s.hand());
        let sizes = s.hand().progress().sizes;
        let before = *s.hand().topics();
        let found = make_part(s, self.step(&before), note);
        let turn = self.answer(&sizes, &before, found, s.hand().topics());
        self.begun = true;
        turn
    }
}
