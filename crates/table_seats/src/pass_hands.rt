//! Hands, each at the place of its actor, and the words of a closed table.
ghost use Rattle.std.specs.Prelude.{◌≡◌, ◌≤◌, [], IfErr, IfOk, None, Some, length, map, replicate, slice_set, vec_capacity};
ghost use Rattle.std.specs.Slots.{IsFull, slots_items, slots_len};
ghost use Rattle.core_views.specs.Held.{Handful};
ghost use Rattle.table_seats.specs.Boards.{AllHands};
ghost use Rattle.table_seats.specs.Rule.{Holds, only, overlay};

use atomic_table::Closed;
use core_views::NoMemory;
use std::alloc::Global;
use step_seats::Hand;

// Each hand at the place of its actor.
pub(crate) fn deal(alloc: Global, hands: Vec<Hand>) -> Result<Vec<Option<Hand>>, NoMemory>
    ensures { IfOk result (λ v. v.items ≡ map Some hands.items) }
{
    let mut places = Vec::with_capacity(alloc, hands.len())?;
    for hand in hands {
        places.push(Some(hand))?;
    }
    Ok(places)
}

// A place for each of so many actors, with no hand.
fn no_hands(alloc: Global, count: usize) -> Result<Vec<Option<Hand>>, NoMemory>
    ensures { IfOk result (λ v. v.items ≡ replicate count None) }
{
    let mut places = Vec::with_capacity(alloc, count)?;
    for _i in 0..count {
        places.push(None)?;
    }
    Ok(places)
}

// The actor's hand, taken out of these.
pub(crate) fn take_hand(
    alloc: Global,
    hands: &mut Vec<Option<Hand>>,
    actor: usize,
) -> Result<Vec<Option<Hand>>, NoMemory>
    requires { (h : Handful) × Holds hands.old.items actor h }
    ensures taken { IfOk result (λ v. (v.items ≡ only hands.old.items actor) × (hands.new.items ≡ slice_set hands.old.items actor None)) }
    ensures kept { IfErr result (λ _. hands.new ≡ hands.old) }
{
    let mut others = no_hands(alloc, hands.len())?;
    others[actor] = hands[actor].take();
    Ok(others)
}

// The hands of the second come to the first.
pub(crate) fn merge(mine: &mut Vec<Option<Hand>>, theirs: Vec<Option<Hand>>)
    requires { length theirs.items ≤ length mine.old.items }
    ensures { mine.new.items ≡ overlay mine.old.items theirs.items }
{
    let mut at = 0;
    for place in theirs {
        if let Some(hand) = place {
            mine[at] = Some(hand);
        }
        at += 1;
    }
}

// All hands, in the order of their actors.
pub(crate) fn gather_hands(places: Vec<Option<Hand>>, hands: &mut Vec<Hand>)
    requires room { length places.items ≤ vec_capacity hands.old }
    requires empty { hands.old.items ≡ [] }
    requires full { AllHands places.items }
    ensures { map Some hands.new.items ≡ places.items }
{
    for place in places {
        let Some(hand) = place else { unreachable!() };
        let Ok(()) = hands.push(hand) else {
            unreachable!()
        };
    }
}

// All words of the table.
pub(crate) fn gather_words(closed: &Closed<(), Global>, words: &mut Vec<u64>, count: usize)
    requires room { count ≤ vec_capacity words.old }
    requires empty { words.old.items ≡ [] }
    requires full { (slots_len closed.now.words ≡ count) × IsFull closed.now.words }
    ensures { words.new.items ≡ slots_items closed.now.words }
{
    for i in 0..count {
        let word = closed.word(i);
        let Ok(()) = words.push(word) else {
            unreachable!()
        };
    }
}
