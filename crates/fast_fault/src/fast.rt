ghost use Rattle.std.specs.Prelude.{◌≡◌, ◌<◌, true};
ghost use Rattle.core_views.specs.declared.place.FaultPlace.TheVariants as at;
ghost use Rattle.fast_fault.specs.Fasts.{FastRestsOn, LeadsOn, StandsInFast, end_told};
ghost use Rattle.mmu_core.specs.alone.LineAlone.{hand_left};
ghost use Rattle.mmu_core.specs.forms.access.FaultSteps.{fault_part};
ghost use Rattle.step_seats.specs.FaultTurns.{IsAtFaultPlace, MakesFaultStep, TurnsFault, as_end, end_turn, is_fast_place};
ghost use Rattle.step_seats.specs.Moves.{KeepsSeat};
ghost use Rattle.step_seats.specs.PartTurns.{MakesPart};
ghost use Rattle.step_seats.specs.declared.turn.Turn.TheVariants.{More};

use core_views::{AccessPlace, FaultEnd, FaultPlace};
use grace_period::{begin, end};
use memslots::{Find, Sought};
use part_steps::PartStep;
use step_seats::{Stepper, Turn, access_note, fault_place, make_part, part_rests};
use tdp_walk::Walk;

/// What a fast fault answers.
#[derive(Clone, Copy, Debug, PartialEq, Eq, Drop)]
pub enum FastFaulted {
    /// The entry of the guest frame allows the access: writes were allowed in the very word that
    /// was read; and the page was marked, in the same section, where the slot has a dirty log.
    Fixed { marked: bool },
    /// Writes can't be allowed there: the entry, which is this word, isn't a leaf that forbids
    /// nothing but the write, or is a large one in a slot with a dirty log; or no slot has the
    /// guest frame, and the word is 0.
    NotFast(u64),
}

/// The fast fault of one access, a step a turn. The place where it stands is kept in the hand
/// whose line the access is.
#[derive(Clone, Copy, Drop)]
pub struct FastJob {
    /// The guest frame, below 2^36.
    pub gfn: u64,
    /// Whether the access writes.
    pub write: bool,
}

// What the turn answers that ends the section.
fn end_turn(end: FaultEnd) -> Turn<FastFaulted>
    requires fast { is_fast_place (at.End end) ≡ true }
    ensures { as_end end_told result ≡ end_turn end }
{
    match end {
        FaultEnd::Fixed { marked } => Turn::Done(FastFaulted::Fixed { marked }),
        FaultEnd::NotFast(word) => Turn::Done(FastFaulted::NotFast(word)),
        FaultEnd::Retry { cause, .. } => Turn::Retry(cause),
        _ => unreachable!(),
    }
}

impl FastJob {
    // Makes the step of a place that leads on to another one.
    fn go_on<S: Stepper>(&self, s: &mut S, place: FaultPlace, note: u64)
        requires is_at { IsAtFaultPlace place self.now.gfn self.now.write note (S.seat s.old).hand }
        requires leads_on { LeadsOn place }
        requires reserved { 0 < (S.seat s.old).room }
        ensures makes { MakesPart (fault_part place self.now.gfn (S.seat s.old).hand.topics) note (S.seat s.old) (S.seat s.new) }
        ensures keeps { KeepsSeat (S.seat s.old) (S.seat s.new) (S.frame s.old) (S.frame s.new) }
    {
        let gfn = self.gfn;
        match place {
            FaultPlace::FastBegin => begin(s, note),
            FaultPlace::FastFind { begun } => {
                let sought = Sought::GuestFrame(gfn);
                let _ = Find { sought, begun }.turn(s, note);
            }
            FaultPlace::FastWalk { rooted } => {
                let _ = Walk { gfn, rooted }.turn(s, note);
            }
            FaultPlace::Fix => {
                let _ = make_part(s, PartStep::Fix(gfn), note);
            }
            FaultPlace::Mark { .. } => {
                let _ = make_part(s, PartStep::Mark, note);
            }
            _ => unreachable!(),
        }
    }

    // Ends the section, and the fault with it.
    fn end<S: Stepper>(&self, s: &mut S, ended: FaultEnd, note: u64) -> Turn<FastFaulted>
        requires is_at { IsAtFaultPlace (at.End ended) self.now.gfn self.now.write note (S.seat s.old).hand }
        requires fast { is_fast_place (at.End ended) ≡ true }
        requires reserved { 0 < (S.seat s.old).room }
        ensures makes { MakesFaultStep (at.End ended) self.now.gfn self.now.write (as_end end_told result) note (S.seat s.old) (S.seat s.new) }
        ensures keeps { KeepsSeat (S.seat s.old) (S.seat s.new) (S.frame s.old) (S.frame s.new) }
    {
        end(s, note);
        end_turn(ended)
    }

    // Makes the step of this place by the call of its part, and answers whether the fault is over.
    fn step<S: Stepper>(&self, s: &mut S, place: FaultPlace, note: u64) -> Turn<FastFaulted>
        requires is_at { IsAtFaultPlace place self.now.gfn self.now.write note (S.seat s.old).hand }
        requires fast { is_fast_place place ≡ true }
        requires reserved { 0 < (S.seat s.old).room }
        ensures makes { MakesFaultStep place self.now.gfn self.now.write (as_end end_told result) note (S.seat s.old) (S.seat s.new) }
        ensures keeps { KeepsSeat (S.seat s.old) (S.seat s.new) (S.frame s.old) (S.frame s.new) }
    {
        match place {
            FaultPlace::End(ended) => self.end(s, ended, note),
            _ => {
                self.go_on(s, place, note);
                Turn::More
            }
        }
    }

    /// Makes the next step of the hand's line, which stands in its fast fault. It never waits, and
    /// takes no lock. `Retry` where another word stood in the leaf's place as writes were to be
    /// allowed: the section is over then, and the access is to begin anew. After `NotFast` the
    /// whole fault comes next.
    pub fn turn<S: Stepper>(&self, s: &mut S) -> Turn<FastFaulted>
        requires stands { StandsInFast self.now (S.seat s.old).hand }
        requires reserved { 0 < (S.seat s.old).room }
        ensures turned { TurnsFault self.now.gfn self.now.write (as_end end_told result) (S.seat s.old) (S.seat s.new) }
        ensures rests_on { FastRestsOn result self.now (S.seat s.old).hand }
        ensures nearer { result ≡ More → hand_left (S.seat s.new).hand < hand_left (S.seat s.old).hand }
        ensures keeps { KeepsSeat (S.seat s.old) (S.seat s.new) (S.frame s.old) (S.frame s.new) }
    {
        let hand = s.hand();
        part_rests(hand);
        let place = fault_place(hand, self.gfn, self.write);
        self.step(s, place, access_note(AccessPlace::Fault(place)))
    }
}
