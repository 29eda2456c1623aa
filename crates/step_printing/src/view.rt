//! Which marks of a run are shown.
ghost use Rattle.std.specs.Prelude.{◌≡◌, ◌<◌, ◌+◌, ◌^◌};
ghost use Rattle.core_views.specs.Actors.{is_same};
ghost use Rattle.step_printing.specs.Views.{
  after_go,
  after_turn,
  begins_go,
  begins_turn,
  ends_go,
  ends_turn,
  first_reach,
  is_at,
  is_change,
  is_kind,
  is_of,
  lists_items,
  made_by,
  shows,
  shows_item,
  shows_rounds,
};

use core_views::{Actor, Item};
use show_options::Bound;
use step_seats::Turn;
use step_text::{Row, WordPlace};

/// Which turns are shown, and whether those that wait at one word share a line.
#[derive(Clone, Copy, Drop)]
pub struct View {
    pub from: Option<Bound>,
    pub to: Option<Bound>,
    pub actor: Option<Actor>,
    /// The number of a kind of step.
    pub kind: Option<u8>,
    pub word: Option<WordPlace>,
    pub changes: bool,
    pub folds: bool,
}

/// How far a run has come.
#[derive(Clone, Copy, Drop)]
pub struct Reach {
    /// The number of the next turn.
    pub number: u64,
    /// The first turn that is shown has come.
    pub begun: bool,
    /// The last one has.
    pub over: bool,
}

/// A turn that was made, and the number of its line.
#[derive(Clone, Copy, Drop)]
pub struct MadeTurn {
    pub row: Row,
    pub line: u32,
    /// Its line waits, begins anew or is answered.
    pub stops: bool,
    /// Its line is answered.
    pub answers: bool,
}

impl MadeTurn {
    /// The turn of this row, which ended so.
    pub fn of(row: Row, line: u32, turn: &Turn<()>) -> MadeTurn
        ensures { result ≡ made_by row line turn.now }
    {
        let (stops, answers) = match turn {
            Turn::More => (false, false),
            Turn::Wait(_) | Turn::Retry(_) => (true, false),
            Turn::Done(()) => (true, true),
        };
        MadeTurn {
            row,
            line,
            stops,
            answers,
        }
    }

    // It changed its word, or its line doesn't just go on.
    fn is_change(&self) -> bool
        ensures { result ≡ is_change self.now }
    {
        self.stops || self.row.found != self.row.left
    }
}

impl Reach {
    /// No turn has been made.
    pub fn first() -> Reach
        ensures { result ≡ first_reach }
    {
        Reach {
            number: 1,
            begun: false,
            over: false,
        }
    }
}

fn is_same(a: Actor, b: Actor) -> bool
    ensures { result ≡ is_same a b }
{
    a == b
}

fn is_of(only: Option<Actor>, actor: Actor) -> bool
    ensures { result ≡ is_of only actor }
{
    match only {
        None => true,
        Some(one) => is_same(one, actor),
    }
}

fn is_kind(only: Option<u8>, code: u8) -> bool
    ensures { result ≡ is_kind only code }
{
    match only {
        None => true,
        Some(one) => one == code,
    }
}

fn is_at(only: Option<WordPlace>, place: WordPlace) -> bool
    ensures { result ≡ is_at only place }
{
    match only {
        None => true,
        Some(one) => one.area.number() == place.area.number() && one.index == place.index,
    }
}

// Whether the turns that are shown have begun, with this one.
fn begins_turn(from: Option<Bound>, number: u64, line: u32) -> bool
    ensures { result ≡ begins_turn from number line }
{
    match from {
        None => true,
        Some(Bound::Go) => false,
        Some(Bound::Turn(first)) => first <= number,
        Some(Bound::Line(first)) => first == line as u64,
    }
}

// Whether no turn is shown after this one.
fn ends_turn(to: Option<Bound>, number: u64, made: &MadeTurn) -> bool
    ensures { result ≡ ends_turn to number made.now }
{
    match to {
        None | Some(Bound::Go) => false,
        Some(Bound::Turn(last)) => last <= number,
        Some(Bound::Line(last)) => last == made.line as u64 && made.answers,
    }
}

fn begins_go(from: Option<Bound>) -> bool
    ensures { result ≡ begins_go from }
{
    match from {
        None | Some(Bound::Go) => true,
        Some(_) => false,
    }
}

fn ends_go(to: Option<Bound>) -> bool
    ensures { result ≡ ends_go to }
{
    match to {
        Some(Bound::Go) => true,
        _ => false,
    }
}

impl View {
    /// Whether a turn is shown.
    pub fn shows(&self, reach: Reach, made: &MadeTurn) -> bool
        ensures { result ≡ shows self.now reach made.now }
    {
        (reach.begun || begins_turn(self.from, reach.number, made.line))
            && !reach.over
            && is_of(self.actor, made.row.actor)
            && is_kind(self.kind, made.row.code)
            && is_at(self.word, made.row.place)
            && (!self.changes || made.is_change())
    }

    /// How far the run has come after a turn, where `next` is the number of the next one.
    pub fn after_turn(&self, reach: Reach, made: &MadeTurn, next: u64) -> Reach
        requires { next ≡ reach.number + 1 }
        ensures { result ≡ after_turn self.now reach made.now }
    {
        Reach {
            number: next,
            begun: reach.begun || begins_turn(self.from, reach.number, made.line),
            over: reach.over || ends_turn(self.to, reach.number, made),
        }
    }

    /// How far it has come where an item, or the rounds, begin.
    pub fn after_go(&self, reach: Reach) -> Reach
        ensures { result ≡ after_go self.now reach }
    {
        Reach {
            number: reach.number,
            begun: reach.begun || begins_go(self.from),
            over: reach.over || ends_go(self.to),
        }
    }

    // Whether items stand among the turns: not where steps of one kind, or of one word, are asked for.
    fn lists_items(&self) -> bool
        ensures { result ≡ lists_items self.now }
    {
        self.kind.is_none() && self.word.is_none()
    }

    /// Whether an item is shown.
    pub fn shows_item(&self, reach: Reach, item: &Item) -> bool
        ensures { result ≡ shows_item self.now reach item.now }
    {
        self.shows_rounds(reach) && is_of(self.actor, item.actor)
    }

    /// Whether it is shown where the rounds begin.
    pub fn shows_rounds(&self, reach: Reach) -> bool
        ensures { result ≡ shows_rounds self.now reach }
    {
        let after = self.after_go(reach);
        after.begun && !after.over && self.lists_items()
    }
}
