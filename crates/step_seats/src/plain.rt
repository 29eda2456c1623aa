//! All words and hands under one owner.
ghost use Rattle.std.specs.Prelude.{◌≡◌, ◌<◌, IfOk, length, slice_index};
ghost use Rattle.core_views.specs.Sizes.{index_of, sizes_of};
ghost use Rattle.core_views.specs.Traces.{IsTrace};
ghost use Rattle.mmu_core.specs.machine.Worlds.{IsStart};
ghost use Rattle.step_seats.specs.Machines.{world_in};

use crate::{ActorSeat, MachineOwner};
use core_views::{Actor, Kind, NoMemory, Sequence, Sizes, Trace};
use machine_start::{start_hands, start_words};
use mmu_steps::{Closing, Hand, advance};
use std::alloc::Global;
use std::marker::Model;

/// A machine whose words and hands have one owner, so that its actors take
/// their steps one after another.
#[derive(Drop)]
pub struct PlainMachine {
    sizes: Sizes,
    words: Vec<u64>,
    hands: Vec<Hand>,
}

impl Model for PlainMachine {
    ghost use Rattle.step_seats.specs.Machines.{IsMachine, Machine};

    ghost Value = { Machine };

    ghost view = { λ m. record { sizes = m.sizes; words = m.words.items; hands = m.hands.items } };

    ghost invariant = { λ m. IsMachine m.sizes m.words.items m.hands.items };
}

impl PlainMachine {
    /// The machine of a trace at its start.
    pub fn new(alloc: Global, trace: &Trace) -> Result<PlainMachine, NoMemory>
        requires trace { IsTrace trace.now }
        ensures start { IfOk result (λ m. IsStart (sizes_of trace.now.header) trace.now.lines (world_in m)) }
        ensures sizes { IfOk result (λ m. m.sizes ≡ sizes_of trace.now.header) }
    {
        let sizes = Sizes::of(&trace.header);
        let words = start_words(alloc, &sizes)?;
        let hands = start_hands(alloc, &sizes, trace.lines.as_slice())?;
        Ok(PlainMachine {
            sizes,
            words,
            hands,
        })
    }

    /// The value of a word, and 0 where there is no such word.
    pub fn word(&self, word: u32) -> u64
        ensures { result ≡ slice_index self.now.words word }
    {
        self.words.get(word as usize).copied().unwrap_or(0)
    }

    /// The seat of an actor that the machine has.
    pub fn as_actor(&mut self, actor: Actor) -> ActorSeat<'_, PlainMachine>
        requires there { index_of self.old.sizes actor < length self.old.hands }
        ensures machine { result.machine.now ≡ self.old }
        ensures borrowed { result.machine.ghost_name ≡ self.entry.ghost_name }
        ensures index { result.index ≡ index_of self.old.sizes actor }
    {
        let index = self.sizes.index_of(actor) as usize;
        ActorSeat {
            machine: self,
            index,
        }
    }

    /// The words and the hands, once all steps are made.
    pub fn into_closing(self) -> Closing
        ensures words { result.words ≡ self.words }
        ensures hands { result.hands ≡ self.hands }
    {
        let PlainMachine { words, hands, .. } = self;
        Closing {
            words: Sequence::from_vec(words),
            hands: Sequence::from_vec(hands),
        }
    }
}

impl MachineOwner for PlainMachine {
    ghost use Rattle.std.specs.Prelude.{None};

    ghost machine = { λ m. m };

    // It tells no steps.
    ghost steps = { λ m. None };

    #[inline(always)]
    fn make_step(&mut self, index: usize, kind: Kind) -> u64 {
        let word = kind.word as usize;
        let found = self.words[word];
        let answer = kind.answer(found);
        self.words[word] = kind.after(found);
        let hand = &mut self.hands[index];
        advance(hand, kind, answer);
        answer
    }

    fn hand(&self, index: usize) -> &Hand {
        &self.hands[index]
    }

    fn reserve(&mut self, index: usize) -> Result<(), NoMemory> {
        let hand = &mut self.hands[index];
        hand.reserve()
    }

    fn sizes(&self) -> Sizes {
        self.sizes
    }
}
