ghost use Rattle.std.specs.Prelude.{◌≡◌, ◌<◌, true, false};
ghost use Rattle.grace_period.specs.Watches.{GoesOnWhereOthersRest, IsFoundBy, Watched, actors_left, is_done, watched_next};
ghost use Rattle.mmu_core.specs.machine.MayMake.{MayMake};
ghost use Rattle.part_steps.specs.PartBounds.{PartRests};
ghost use Rattle.part_steps.specs.PartSteps.{PartNeeds};
ghost use Rattle.part_steps.specs.declared.part_step.PartStep.TheVariants as part;
ghost use Rattle.step_seats.specs.Moves.{KeepsSeat};
ghost use Rattle.step_seats.specs.PartTurns.{TurnsPart, waits};
ghost use Rattle.step_seats.specs.declared.turn.Turn.TheVariants.{More};

use core_views::Seen;
use part_steps::{PartStep, map_of};
use std::marker::Model;
use step_seats::{Hand, Stepper, Turn, in_section, make_part, next_watched, part_rests};

/// A watch of all other actors, one after another in the order of their state
/// words: each is looked at until it is seen in no section and not in the guest
/// (KVM's `synchronize_rcu` and `synchronize_srcu`). Behind it nobody holds, in a
/// section or in the guest, what was loaded before the watch.
#[derive(Clone, Copy, PartialEq, Eq, Drop)]
pub struct Watch {
    has_looked: bool,
}

impl Model for Watch {
    ghost use Rattle.grace_period.specs.Watches.{Watching};

    ghost Value = { Watching };

    ghost view = { λ w. record { has_looked = w.has_looked } };

    ghost inverse = { λ w. record { has_looked = w.has_looked } };
}

impl Watch {
    /// A watch that has looked at nobody yet.
    pub fn new() -> Self
        ensures { result.has_looked ≡ false }
    {
        Watch { has_looked: false }
    }

    /// A watch that is under way: it goes on from the actors that its hand has
    /// watched.
    pub fn under_way() -> Self
        ensures { result ≡ record { has_looked = true } }
    {
        Watch { has_looked: true }
    }

    // The place of the actor that the next turn looks at.
    fn next_look(&self, hand: &Hand) -> u64
        requires { PartRests hand.now.core }
        ensures { result ≡ watched_next self.now hand.now.core }
    {
        let state = hand.progress();
        let own = state.sizes.index_of(state.actor);
        let seen = if self.has_looked {
            hand.topics().watched
        } else {
            0
        };
        next_watched(own, seen)
    }

    /// Looks at the next actor. Where this one is in a section or in the guest,
    /// the turn waits, as its step does, and the next turn looks at it again; else
    /// the watch goes on to the next actor, and is done after the last one. There
    /// must be an actor left to look at; of the first turn there always is.
    pub fn turn<S: Stepper>(&mut self, s: &mut S, note: u64) -> Turn<()>
        requires may { MayMake (part.Watch (watched_next self.old (S.seat s.old).hand)) note (S.seat s.old).hand }
        requires reserved { 0 < (S.seat s.old).room }
        ensures step { TurnsPart (waits result) (part.Watch (watched_next self.old (S.seat s.old).hand)) note (S.seat s.old) (S.seat s.new) }
        ensures found { IsFoundBy result (watched_next self.old (S.seat s.old).hand) note (S.seat s.old) (S.seat s.new) }
        ensures watched { Watched result (watched_next self.old (S.seat s.old).hand) (S.seat s.old).hand (S.seat s.new).hand.topics }
        ensures goes_on { is_done result ≡ false → PartNeeds (part.Watch (watched_next self.new (S.seat s.new).hand)) (S.seat s.new).hand }
        ensures looked { self.new.has_looked ≡ true }
        ensures nearer { result ≡ More → actors_left self.new (S.seat s.new).hand < actors_left self.old (S.seat s.old).hand }
        ensures alone { GoesOnWhereOthersRest result self.old note (S.seat s.old) (S.seat s.new) }
        ensures keeps { KeepsSeat (S.seat s.old) (S.seat s.new) (S.frame s.old) (S.frame s.new) }
    {
        let hand = s.hand();
        part_rests(hand);
        let sizes = hand.progress().sizes;
        let own = sizes.index_of(hand.progress().actor);
        let index = self.next_look(hand);
        self.has_looked = true;
        let value = make_part(s, PartStep::Watch(index), note);
        if in_section(value) {
            let word = map_of(&sizes).word_of_state(index);
            return Turn::Wait(Seen { word, value });
        }
        if next_watched(own, index + 1) < sizes.actors() {
            Turn::More
        } else {
            Turn::Done(())
        }
    }
}
