ghost use Rattle.std.specs.Prelude.{◌≤◌, IfOk, None, ◌≡◌, ◌-◌, ◌<◌, ◌++◌, ◌∷◌, [], OnErr, OnOk, length, slice_get};
ghost use Rattle.std.specs.Option.{option_copied};
ghost use Rattle.core_views.specs.SlotCommands.{change_at_once, slots_after};
ghost use Rattle.core_views.specs.Traces.{IsCommandFor};
ghost use Rattle.core_views.specs.LogCommands.{most_words};
ghost use Rattle.core_views.specs.declared.answer.Answer.TheVariants.{Bits};
ghost use Rattle.core_views.specs.Held.{answered, first_held, has_line, line_at, next_line, progress_of, state_of};

use crate::SlotSet;
use core_views::{
    Actor, Answer, AnsweredLine, Cache, Line, NoMemory, Place, Progress, Sequence, Sizes, Topics,
    Translation,
};
use std::alloc::Global;
use std::marker::Model;
use std::mem;

/// What one actor holds: where its line stands and what this line loaded; what
/// it holds of each part of the machine; the manager's own record of the slots, and what its
/// line has read of a dirty log; its lines of the trace, and the answers that it has given
/// them, with room for one more.
#[derive(Drop)]
pub struct Hand {
    alloc: Global,
    progress: Progress,
    topics: Topics,
    cache: Cache,
    slots: SlotSet,
    harvest: Vec<u64>,
    lines: Vec<Line>,
    answers: Vec<AnsweredLine>,
    room: usize,
}

impl Model for Hand {
    ghost use Rattle.std.specs.Prelude.{◌≤◌, ◌<◌, ◌+◌, length, vec_len, vec_capacity};
    ghost use Rattle.core_views.specs.Held.{Handful, line_of, state_of};
    ghost use Rattle.core_views.specs.LogCommands.{most_words};

    ghost Value = { Handful };

    ghost view = { λ h. record {
      core = record {
        state = state_of h.progress h.lines.items (length h.answers.items);
        topics = h.topics;
        cached = h.cache;
        slots = h.slots;
        harvest = h.harvest.items;
        lines = h.lines.items;
        answers = h.answers.items;
      };
      room = h.room;
    } };

    ghost invariant = { λ h. (vec_len h.answers + h.room ≤ vec_capacity h.answers) × (h.room ≤ 1)
        × (0 < h.room → most_words h.progress.sizes (line_of h.lines.items (length h.answers.items)).command ≤ vec_capacity h.harvest) };
}

impl Hand {
    ghost use Rattle.std.specs.Borrow.{Lends, sem};
    ghost use Rattle.hands.specs.contracts.hand.Hand.{the_row};
    ghost use Rattle.hands.specs.Rows.{cache_row, slots_row, topics_row};

    /// The hand of an actor before its first line.
    pub fn new(
        alloc: Global,
        sizes: Sizes,
        actor: Actor,
        lines: Vec<Line>,
    ) -> Result<Self, NoMemory>
        requires cache { (1 ≤ sizes.cache) × (sizes.cache ≤ 64) }
        ensures { IfOk result (λ h. h.core ≡ first_held sizes actor lines.items) }
    {
        Ok(Hand {
            alloc,
            progress: Progress::first(sizes, actor),
            topics: Topics::first(),
            cache: Cache::new(alloc, sizes.cache as u8)?,
            slots: SlotSet::empty(),
            harvest: Vec::new(alloc),
            lines,
            answers: Vec::new(alloc),
            room: 0,
        })
    }

    /// Where the line stands, and what it loaded.
    pub fn progress(&self) -> &Progress
        ensures { result.now ≡ progress_of self.now.core.state }
    {
        &self.progress
    }

    /// What is held of each part of the machine.
    pub fn topics(&self) -> &Topics
        ensures { result.now ≡ self.now.core.topics }
    {
        &self.topics
    }

    /// The manager's own record of the slots.
    pub fn slots(&self) -> &SlotSet
        ensures { result.now ≡ self.now.core.slots }
    {
        &self.slots
    }

    /// The first line that has no answer.
    pub fn next_line(&self) -> Option<&Line>
        ensures { option_copied result ≡ slice_get self.now.core.lines (length self.now.core.answers) }
    {
        self.lines.get(self.answers.len())
    }

    /// Whether a line is left that has no answer.
    pub fn has_line(&self) -> bool
        ensures { result ≡ has_line self.now.core }
    {
        self.answers.len() < self.lines.len()
    }

    /// The line that the next step is of: the one under way, or the next one. Where none
    /// is left, no call can be made.
    pub fn line(&self) -> &Line
        requires { length self.now.core.answers < length self.now.core.lines }
        ensures next { result.now ≡ next_line self.now.core }
        ensures line { result.now ≡ line_at self.now.core.state.place self.now.core }
    {
        &self.lines[self.answers.len()]
    }

    /// The lines that are answered, in the order of their answers.
    pub fn answers(&self) -> &[AnsweredLine]
        ensures { result.now ≡ self.now.core.answers }
    {
        &self.answers
    }

    /// The line stands at this place from now on, uses this translation, and has counted so
    /// many steps and delays.
    #[inline(always)]
    pub fn go_on(&mut self, place: Place, used: Translation, steps: u64, delays: u64)
        ensures core { self.new.core ≡ record self.old.core {
          state = state_of (record (progress_of self.old.core.state) { place = place; used = used; steps = steps; delays = delays })
              self.old.core.lines (length self.old.core.answers);
        } }
        ensures room { self.new.room ≡ self.old.room }
    {
        self.progress.place = place;
        self.progress.used = used;
        self.progress.steps = steps;
        self.progress.delays = delays;
    }

    /// What is held of each part of the machine, to be changed in place.
    pub fn topics_mut(&mut self) -> &mut Topics
        ensures value { result.now ≡ self.old.core.topics }
        ensures* lends { sem 𝓛 (Lends the_row topics_row self.entry result (λ t. record {
          core = record {
            state = self.old.core.state;
            topics = t;
            cached = self.old.core.cached;
            slots = self.old.core.slots;
            harvest = self.old.core.harvest;
            lines = self.old.core.lines;
            answers = self.old.core.answers;
          };
          room = self.old.room;
        })) }
    {
        &mut self.topics
    }

    /// The cached translations.
    pub fn cache(&self) -> &Cache
        ensures { result.now ≡ self.now.core.cached }
    {
        &self.cache
    }

    /// The cached translations, to be changed in place.
    pub fn cache_mut(&mut self) -> &mut Cache
        ensures value { result.now ≡ self.old.core.cached }
        ensures* lends { sem 𝓛 (Lends the_row cache_row self.entry result (λ c. record {
          core = record {
            state = self.old.core.state;
            topics = self.old.core.topics;
            cached = c;
            slots = self.old.core.slots;
            harvest = self.old.core.harvest;
            lines = self.old.core.lines;
            answers = self.old.core.answers;
          };
          room = self.old.room;
        })) }
    {
        &mut self.cache
    }

    /// The manager's own record of the slots, to be changed in place.
    pub fn slots_mut(&mut self) -> &mut SlotSet
        ensures value { result.now ≡ self.old.core.slots }
        ensures* lends { sem 𝓛 (Lends the_row slots_row self.entry result (λ s. record {
          core = record {
            state = self.old.core.state;
            topics = self.old.core.topics;
            cached = self.old.core.cached;
            slots = s;
            harvest = self.old.core.harvest;
            lines = self.old.core.lines;
            answers = self.old.core.answers;
          };
          room = self.old.room;
        })) }
    {
        &mut self.slots
    }

    /// Makes the change of the line that the next step is of in the manager's own record,
    /// where the line has something to do.
    pub fn change_slots(&mut self)
        requires left { length self.old.core.answers < length self.old.core.lines }
        requires allowed { IsCommandFor self.old.core.state.sizes (next_line self.old.core).actor (next_line self.old.core).command }
        requires work { change_at_once self.old.core.state.sizes (next_line self.old.core).command self.old.core.slots ≡ None }
        ensures core { self.new.core ≡ record self.old.core { slots = slots_after (next_line self.old.core).command self.old.core.slots } }
        ensures room { self.new.room ≡ self.old.room }
    {
        let line = &self.lines[self.answers.len()];
        self.slots.change(line, &self.progress.sizes);
    }

    /// The words that the line under way has read of a dirty log, the first one first.
    pub fn harvest(&self) -> &[u64]
        ensures { result.now ≡ self.now.core.harvest }
    {
        &self.harvest
    }

    /// Adds a word that the line has read of a dirty log: no more than the line may read, for
    /// which there is room.
    pub fn add_word(&mut self, word: u64)
        requires room { 0 < self.old.room }
        requires more { length self.old.core.harvest < most_words self.old.core.state.sizes (next_line self.old.core).command }
        ensures core { self.new.core ≡ record self.old.core { harvest = self.old.core.harvest ++ word ∷ [] } }
        ensures room { self.new.room ≡ self.old.room }
    {
        match self.harvest.push(word) {
            Ok(()) => {}
            Err(_) => { unreachable!() }
        }
    }

    /// Lets go of them.
    pub fn clear_harvest(&mut self)
        ensures core { self.new.core ≡ record self.old.core { harvest = [] } }
        ensures room { self.new.room ≡ self.old.room }
    {
        self.harvest.clear();
    }

    /// Takes the room that the next line needs: for its answer, and for the words that it may
    /// read of a dirty log. Where it is refused nothing has changed.
    pub fn reserve(&mut self) -> Result<(), NoMemory>
        ensures core { self.new.core ≡ self.old.core }
        ensures room { OnOk result (0 < self.new.room) }
        ensures refused { OnErr result (self.new ≡ self.old) }
    {
        self.answers.reserve(1)?;
        let words = self
            .next_line()
            .map_or(0, |line| self.progress.sizes.most_words(&line.command));
        self.harvest.reserve(words)?;
        self.room = 1;
        Ok(())
    }

    /// Adds an answer, for which there is room.
    pub fn answer(&mut self, answer: AnsweredLine)
        requires { 0 < self.old.room }
        ensures { self.new ≡ record { core = answered answer self.old.core; room = self.old.room - 1 } }
    {
        self.room -= 1;
        match self.answers.push(answer) {
            Ok(()) => {}
            Err(_) => { unreachable!() }
        }
    }

    /// Answers a line of this number and actor with what it has read of a dirty log, for which
    /// there is room.
    pub fn answer_harvest(&mut self, number: u32, actor: Actor)
        requires { 0 < self.old.room }
        ensures core { self.new.core
            ≡ record (answered (record { number = number; actor = actor; answer = Bits self.old.core.harvest }) self.old.core) { harvest = [] } }
        ensures room { self.new.room ≡ self.old.room - 1 }
    {
        let words = mem::replace(&mut self.harvest, Vec::new(self.alloc));
        self.room -= 1;
        let answer = Answer::Bits(Sequence::from_vec(words));
        match self.answers.push(AnsweredLine {
            number,
            actor,
            answer,
        }) {
            Ok(()) => {}
            Err(_) => { unreachable!() }
        }
    }
}

/// Hands, by the place of their actors.
pub type Hands = Sequence<Hand>;

/// The last words and hands of a run.
#[derive(Drop)]
pub struct Closing {
    pub words: Sequence<u64>,
    pub hands: Hands,
}
