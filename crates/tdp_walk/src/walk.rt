ghost use Rattle.std.specs.Prelude.{◌≡◌, ◌<◌, ◌^◌, true, false};
ghost use Rattle.mmu_core.specs.machine.MayMake.{MayMake};
ghost use Rattle.part_steps.specs.declared.part_step.PartStep.TheVariants.{WalkAnew};
ghost use Rattle.part_steps.specs.StayTopics.{may_walk};
ghost use Rattle.step_seats.specs.Moves.{KeepsSeat};
ghost use Rattle.step_seats.specs.PartTurns.{MadePart, MakesPart};
ghost use Rattle.step_seats.specs.declared.turn.Turn.TheVariants.{More};
ghost use Rattle.tdp_walk.specs.Walks.{FindsRoot, Looks, WalksAnewWhereMade, WasNextWord, walk_turns, walk_step, walked_anew};

use part_steps::PartStep;
use spte_words::{Spte, SpteKind};
use step_seats::{Stepper, Turn, make_part, part_rests};

/// What a walk ended at, and the level of the table that the entry stands in:
/// 4 at the root, 1 at the lowest.
#[derive(Clone, Copy, Debug, PartialEq, Eq, Drop)]
pub enum Walked {
    /// A span of frames, by this word.
    Leaf { word: u64, level: u8 },
    /// Nothing is mapped there.
    Absent { level: u8 },
    /// The table below is being removed.
    Frozen { level: u8 },
}

/// A walk to the entry of one guest frame, over four levels of tables, a step a
/// turn (mmu.rst, "Page fault").
#[derive(Clone, Copy, Drop)]
pub struct Walk {
    /// The guest frame, below 2^36.
    pub gfn: u64,
    /// Whether the root was loaded.
    pub rooted: bool,
}

impl Walk {
    /// A walk that is yet to begin, to the entry of this guest frame.
    pub fn new(gfn: u64) -> Walk
        ensures { result ≡ record { gfn = gfn; rooted = false } }
    {
        Walk { gfn, rooted: false }
    }

    /// Loads the root, or the frame's entry in the table that the walk has come
    /// to: a link leads one level down, and every other entry ends the walk. Each
    /// table that it comes to is for a span of frames that this one is in. It
    /// never waits.
    pub fn turn<S: Stepper>(&mut self, s: &mut S, note: u64) -> Turn<Walked>
        requires may { MayMake (walk_step self.old) note (S.seat s.old).hand }
        requires reserved { 0 < (S.seat s.old).room }
        requires gfn { self.old.gfn < 2 ^ 36 }
        requires held { self.old.rooted ≡ false → may_walk (S.seat s.old).hand.topics.stay (S.seat s.old).hand.topics.hold ≡ true }
        ensures step { MakesPart (walk_step self.old) note (S.seat s.old) (S.seat s.new) }
        ensures root { self.old.rooted ≡ false → FindsRoot result self.old.gfn (S.seat s.old).hand.topics (S.seat s.new).hand.topics }
        ensures entry { self.old.rooted ≡ true → Looks result self.old.gfn (S.seat s.old).hand.topics (S.seat s.new).hand.topics }
        ensures word { WasNextWord self.old note (S.seat s.old) (S.seat s.new) }
        ensures goes_on { self.new ≡ record { gfn = self.old.gfn; rooted = true } }
        ensures nearer { result ≡ More → walk_turns self.new (S.seat s.new).hand.topics.walk < walk_turns self.old (S.seat s.old).hand.topics.walk }
        ensures keeps { KeepsSeat (S.seat s.old) (S.seat s.new) (S.frame s.old) (S.frame s.new) }
    {
        if !self.rooted {
            let _ = make_part(s, PartStep::Root, note);
            self.rooted = true;
            return Turn::More;
        }
        part_rests(s.hand());
        let level = s.hand().topics().walk.level;
        let word = make_part(s, PartStep::Walk(self.gfn), note);
        match Spte::from_word(word).kind(level) {
            SpteKind::Table(_) => Turn::More,
            SpteKind::Leaf => Turn::Done(Walked::Leaf { word, level }),
            SpteKind::Absent => Turn::Done(Walked::Absent { level }),
            SpteKind::Frozen => Turn::Done(Walked::Frozen { level }),
        }
    }
}

/// Loads the entry of this guest frame (below 2^36) in the root's table, from which a walk that
/// has come to its end begins anew, and answers it (tdp_iter.c, `tdp_iter_restart`): where the
/// entry is a link it goes down. The root is loaded no second time, since the actor has the lock
/// alone; it sweeps nothing. It never waits and takes no memory.
pub fn walk_anew<S: Stepper>(s: &mut S, gfn: u64, note: u64) -> u64
    requires may { MayMake (WalkAnew gfn) note (S.seat s.old).hand }
    requires reserved { 0 < (S.seat s.old).room }
    ensures step { MadePart (WalkAnew gfn) note result (S.seat s.old) (S.seat s.new) }
    ensures walk { (S.seat s.new).hand.topics ≡ walked_anew gfn result (S.seat s.old).hand.topics }
    ensures told { WalksAnewWhereMade gfn result note (S.seat s.old) (S.seat s.new) }
    ensures keeps { KeepsSeat (S.seat s.old) (S.seat s.new) (S.frame s.old) (S.frame s.new) }
{
    make_part(s, PartStep::WalkAnew(gfn), note)
}
