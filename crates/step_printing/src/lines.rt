//! The lines of a run, put together mark by mark.
ghost use Rattle.std.specs.Prelude.{◌≡◌, ◌<◌, ◌+◌, ◌++◌, [], IfOk, None, OnOk, length, string_bytes};
ghost use Rattle.std.specs.Option.{option_copied};
ghost use Rattle.step_text.specs.Endings.{ending_text};
ghost use Rattle.core_views.specs.Actors.{is_same};
ghost use Rattle.core_views.specs.Sizes.{AreSizes};
ghost use Rattle.mmu_core.specs.machine.Enabled.{mmu};
ghost use Rattle.mmu_core.specs.machine.Machine.{hand_in};
ghost use Rattle.step_seats.specs.Machines.{world_in};
ghost use Rattle.turn_loops.specs.Marks.{Begins, Over, Rounds};
ghost use Rattle.step_printing.specs.Coming.{PutsEntry, PutsMark, PutsTurn, first_lines, kept_text};
ghost use Rattle.step_printing.specs.Lines.{Ended, Shared, fold_by, goes_on, is_again, is_next_word, page_words, shares, turn_entry};
ghost use Rattle.step_printing.specs.Tells.{TellsAll};

use crate::row::anew;
use crate::view::{MadeTurn, Reach, View};
use core_views::{Actor, Item, Line, NoMemory, Sizes, StepKind};
use spte_words::{Area, ENTRIES};
use step_seats::{PlainMachine, Turn};
use step_text::{Ending, Fold, Row, push_fold, push_item, push_rounds, push_row};
use weave_engine::{last_answer, push_open};

/// How far the lines of a run have come.
#[derive(Clone, Copy, Drop)]
pub struct Lines {
    /// The sizes of the machine.
    pub sizes: Sizes,
    pub view: View,
    pub reach: Reach,
    /// The turns whose line is not put yet, since more may share it.
    pub kept: Option<Fold>,
}

// How many words a page of the area has.
fn page_words(sizes: &Sizes, area: Area) -> u64
    ensures { result ≡ page_words sizes.now area }
{
    match area {
        Area::Pool => ENTRIES,
        Area::Content => sizes.words.max(1),
        _ => 1,
    }
}

// Whether the second's word is of the same page and comes right after those of the first.
fn is_next_word(sizes: &Sizes, a: &Row, b: &Row) -> bool
    ensures { result ≡ is_next_word sizes.now a.now b.now }
{
    let words = page_words(sizes, a.place.area);
    let (first, second) = (a.place.index as u64, b.place.index as u64);
    a.place.area.number() == b.place.area.number()
        && first + a.count as u64 == second
        && first / words == second / words
}

fn is_same(a: Actor, b: Actor) -> bool
    ensures { result ≡ is_same a b }
{
    a == b
}

// Whether the second row is a store that goes on with those of the first.
fn goes_on(sizes: &Sizes, a: &Row, b: &Row) -> bool
    ensures { result ≡ goes_on sizes.now a.now b.now }
{
    let fill = StepKind::Fill.code();
    a.code == fill
        && b.code == fill
        && is_same(a.actor, b.actor)
        && is_next_word(sizes, a, b)
        && a.found == b.found
        && a.left == b.left
}

// Whether the two are steps of one actor and of one kind, on one word.
fn is_again(a: &Row, b: &Row) -> bool
    ensures { result ≡ is_again a.now b.now }
{
    is_same(a.actor, b.actor)
        && a.code == b.code
        && a.place.area.number() == b.place.area.number()
        && a.place.index == b.place.index
}

// Whether the second's turns are told in the line of the first's.
fn shares(view: &View, sizes: &Sizes, a: &Fold, b: &Fold) -> bool
    ensures { result ≡ shares view.now sizes.now a.now b.now }
{
    if a.waits {
        b.waits && view.folds && is_again(&a.row, &b.row)
    } else {
        !b.waits && goes_on(sizes, &a.row, &b.row)
    }
}

// Puts the line of the turns whose line is not put yet, if there are any.
fn flush(text: &mut String, sizes: &Sizes, kept: Option<Fold>) -> Result<(), NoMemory>
    ensures { OnOk result (string_bytes text.new ≡ string_bytes text.old ++ kept_text sizes.now kept) }
{
    match kept {
        Some(fold) => push_fold(text, sizes, &fold),
        None => Ok(()),
    }
}

impl Lines {
    /// The lines of a run before its first mark.
    pub fn first(view: View, sizes: Sizes) -> Lines
        ensures { result ≡ first_lines view sizes }
    {
        Lines {
            sizes,
            view,
            reach: Reach::first(),
            kept: None,
        }
    }

    // Puts a turn that may share its line, and gives the turns whose line is not put then.
    fn put_shared(&self, text: &mut String, row: Row, waits: bool) -> Result<Option<Fold>, NoMemory>
        ensures { IfOk result (λ after. PutsEntry self.now.view self.now.sizes self.now.kept (string_bytes text.old) (Shared (fold_by row waits)) after
            (string_bytes text.new)) }
    {
        let next = Fold {
            row,
            last: row.first,
            waits,
        };
        let Some(fold) = self.kept else {
            return Ok(Some(next));
        };
        if shares(&self.view, &self.sizes, &fold, &next) {
            return match fold.row.count.checked_add(row.count) {
                Some(count) => Ok(Some(Fold {
                    row: Row { count, ..fold.row },
                    last: next.last,
                    waits: fold.waits,
                })),
                None => Err(NoMemory),
            };
        }
        push_fold(text, &self.sizes, &fold)?;
        Ok(Some(next))
    }

    // Puts a turn with which its line is answered or begins anew.
    fn put_ended(&self, text: &mut String, row: &Row, ending: &Ending) -> Result<(), NoMemory>
        ensures { OnOk result (PutsEntry self.now.view self.now.sizes self.now.kept (string_bytes text.old)
            (Ended row.now (ending_text self.now.sizes ending.now)) None (string_bytes text.new)) }
    {
        flush(text, &self.sizes, self.kept)?;
        push_row(text, &self.sizes, row, ending)?;
        Ok(())
    }

    // Puts a turn that was made, as it ended, and gives the turns whose line is not put then.
    fn put_made(
        &self,
        text: &mut String,
        machine: &PlainMachine,
        index: usize,
        row: Row,
        turn: Turn<()>,
    ) -> Result<Option<Fold>, NoMemory>
        requires there { index < length machine.now.hands }
        requires sizes { AreSizes self.now.sizes }
        requires told { (told : _) × TellsAll turn told (hand_in mmu (world_in machine.now) index) }
        ensures { IfOk result (λ after. (told : _) → TellsAll turn told (hand_in mmu (world_in machine.now) index)
            → PutsEntry self.now.view self.now.sizes self.now.kept (string_bytes text.old) (turn_entry self.now.sizes row told) after
            (string_bytes text.new)) }
    {
        match turn {
            Turn::More => return self.put_shared(text, row, false),
            Turn::Wait(_) => return self.put_shared(text, row, true),
            Turn::Retry(cause) => self.put_ended(text, &row, &anew(&self.sizes, cause))?,
            Turn::Done(()) => {
                let answer = last_answer(machine, index);
                self.put_ended(text, &row, &Ending::Answers(answer))?
            }
        }
        Ok(None)
    }

    /// Puts a turn that was made, as it ended, if it is shown.
    pub fn put_turn(
        &self,
        text: &mut String,
        machine: &PlainMachine,
        index: usize,
        made: &MadeTurn,
        turn: Turn<()>,
    ) -> Result<Lines, NoMemory>
        requires there { index < length machine.now.hands }
        requires sizes { AreSizes self.now.sizes }
        requires told { (told : _) × TellsAll turn told (hand_in mmu (world_in machine.now) index) }
        ensures { IfOk result (λ after. (told : _) → TellsAll turn told (hand_in mmu (world_in machine.now) index)
            → PutsTurn self.now (string_bytes text.old) made.now told after (string_bytes text.new)) }
    {
        let Some(next) = self.reach.number.checked_add(1) else {
            return Err(NoMemory);
        };
        let reach = self.view.after_turn(self.reach, made, next);
        if !self.view.shows(self.reach, made) {
            return Ok(Lines { reach, ..*self });
        }
        let kept = self.put_made(text, machine, index, made.row, turn)?;
        Ok(Lines {
            reach,
            kept,
            ..*self
        })
    }

    /// Puts that the turns of this item begin, if it is shown.
    pub fn put_item(&self, text: &mut String, item: &Item) -> Result<Lines, NoMemory>
        ensures { IfOk result (λ after. PutsMark self.now (string_bytes text.old) (Begins item.now) after (string_bytes text.new)) }
    {
        let reach = self.view.after_go(self.reach);
        if !self.view.shows_item(self.reach, item) {
            return Ok(Lines { reach, ..*self });
        }
        flush(text, &self.sizes, self.kept)?;
        push_item(text, item)?;
        Ok(Lines {
            reach,
            kept: None,
            ..*self
        })
    }

    /// Puts that the turns in rounds begin, if it is shown.
    pub fn put_rounds(&self, text: &mut String) -> Result<Lines, NoMemory>
        ensures { IfOk result (λ after. PutsMark self.now (string_bytes text.old) Rounds after (string_bytes text.new)) }
    {
        let reach = self.view.after_go(self.reach);
        if !self.view.shows_rounds(self.reach) {
            return Ok(Lines { reach, ..*self });
        }
        flush(text, &self.sizes, self.kept)?;
        push_rounds(text)?;
        Ok(Lines {
            reach,
            kept: None,
            ..*self
        })
    }

    /// Puts what waits, and which line is the first without an answer, if there is one.
    pub fn put_open(&self, text: &mut String, first: Option<&Line>) -> Result<Lines, NoMemory>
        ensures { IfOk result (λ after. PutsMark self.now (string_bytes text.old) (Over (option_copied first.entry)) after (string_bytes text.new)
            × (after.kept ≡ None)) }
    {
        flush(text, &self.sizes, self.kept)?;
        push_open(text, first)?;
        Ok(Lines {
            kept: None,
            ..*self
        })
    }
}
