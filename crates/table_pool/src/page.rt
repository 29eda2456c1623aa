ghost use Rattle.std.specs.Prelude.{◌≡◌, ◌<◌, None};
ghost use Rattle.mmu_core.specs.machine.MayMake.{MayMake};
ghost use Rattle.part_steps.specs.PartTasks.{page_owned, words_filled};
ghost use Rattle.part_steps.specs.declared.part_step.PartStep.TheVariants as part;
ghost use Rattle.step_seats.specs.Moves.{KeepsSeat};
ghost use Rattle.step_seats.specs.PartTurns.{MadePart, MakesPart, WherePartMade};
ghost use Rattle.step_seats.specs.declared.turn.Turn.TheVariants.{More, Done};
ghost use Rattle.table_pool.specs.Pages.{FillTurn, FillsWhereMade, FreesPage, GivesPage, fill_step, words_left};

use part_steps::PartStep;
use spte_words::ENTRIES;
use step_seats::{Stepper, Turn, make_part, part_kind, part_rests, words_filled};

// The step that fills a page of which so many words are filled.
fn fill_step(filled: u64, value: u64) -> PartStep
    ensures { result ≡ fill_step filled value }
{
    if filled == ENTRIES {
        PartStep::Role(value)
    } else {
        PartStep::Fill(value)
    }
}

// Writes this value in the word of the owned page that is next, or in its role:
// a store answers what it wrote.
fn fill_next<S: Stepper>(s: &mut S, value: u64, note: u64)
    requires may { MayMake (fill_step (words_filled (S.seat s.old).hand.topics.owned) value) note (S.seat s.old).hand }
    requires reserved { 0 < (S.seat s.old).room }
    ensures made { MadePart (fill_step (words_filled (S.seat s.old).hand.topics.owned) value) note value (S.seat s.old) (S.seat s.new) }
    ensures keeps { KeepsSeat (S.seat s.old) (S.seat s.new) (S.frame s.old) (S.frame s.new) }
{
    let hand = s.hand();
    part_rests(hand);
    let step = fill_step(words_filled(hand.topics().owned), value);
    let kind = part_kind(hand, step, note);
    let _ = s.act(kind);
}

/// A fill of an owned page, a word a turn: its 512 words in their order, and
/// then its role.
#[derive(Clone, Copy, Drop)]
pub struct Fill {
    /// The page, below the pool's size.
    pub page: u64,
}

impl Fill {
    /// A fill of this page, from its first word on.
    pub fn new(page: u64) -> Fill
        ensures { result ≡ record { page = page } }
    {
        Fill { page }
    }

    /// Writes this value in the word of the page that is next, or in its role
    /// where all 512 are written. `Done` once the role is written. It never
    /// waits.
    pub fn turn<S: Stepper>(&mut self, s: &mut S, value: u64, note: u64) -> Turn<()>
        requires may { MayMake (fill_step (words_filled (S.seat s.old).hand.topics.owned) value) note (S.seat s.old).hand }
        requires page { page_owned (S.seat s.old).hand.topics.owned ≡ self.old.page }
        requires reserved { 0 < (S.seat s.old).room }
        ensures made { MadePart (fill_step (words_filled (S.seat s.old).hand.topics.owned) value) note value (S.seat s.old) (S.seat s.new) }
        ensures turned { FillTurn self.old.page value result (S.seat s.old).hand.topics (S.seat s.new).hand.topics }
        ensures writes { FillsWhereMade self.old.page value note (S.seat s.old) (S.seat s.new) }
        ensures page { self.new ≡ self.old }
        ensures nearer { result ≡ More → words_left (S.seat s.new).hand.topics < words_left (S.seat s.old).hand.topics }
        ensures keeps { KeepsSeat (S.seat s.old) (S.seat s.new) (S.frame s.old) (S.frame s.new) }
    {
        let filled = words_filled(s.hand().topics().owned);
        fill_next(s, value, note);
        if filled == ENTRIES {
            Turn::Done(())
        } else {
            Turn::More
        }
    }
}

/// A give of an owned page that was never linked.
#[derive(Clone, Copy, Drop)]
pub struct Give {
    /// The page, below the pool's size.
    pub page: u64,
}

impl Give {
    /// A give of this page.
    pub fn new(page: u64) -> Give
        ensures { result ≡ record { page = page } }
    {
        Give { page }
    }

    /// Puts the page's bit back into the map. It is done in one turn.
    pub fn turn<S: Stepper>(&mut self, s: &mut S, note: u64) -> Turn<()>
        requires may { MayMake part.Give note (S.seat s.old).hand }
        requires page { page_owned (S.seat s.old).hand.topics.owned ≡ self.old.page }
        requires reserved { 0 < (S.seat s.old).room }
        ensures step { MakesPart part.Give note (S.seat s.old) (S.seat s.new) }
        ensures turned { GivesPage result (S.seat s.old).hand.topics (S.seat s.new).hand.topics }
        ensures frees { WherePartMade part.Give note (S.seat s.old) (S.seat s.new) (FreesPage (S.seat s.old).hand.state.sizes self.old.page) }
        ensures page { self.new ≡ self.old }
        ensures keeps { KeepsSeat (S.seat s.old) (S.seat s.new) (S.frame s.old) (S.frame s.new) }
    {
        let _ = make_part(s, PartStep::Give, note);
        Turn::Done(())
    }
}
