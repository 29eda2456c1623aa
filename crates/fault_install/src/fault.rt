ghost use Rattle.std.specs.Prelude.{◌≡◌, ◌<◌, false};
ghost use Rattle.core_views.specs.declared.place.FaultPlace.TheVariants as at;
ghost use Rattle.fault_install.specs.Faults.{ComesAfterCheck, LeadsOn, StandsInLine, end_told};
ghost use Rattle.mmu_core.specs.alone.LineAlone.{hand_left};
ghost use Rattle.mmu_core.specs.forms.access.FaultSteps.{fault_part};
ghost use Rattle.step_seats.specs.FaultTurns.{IsAtFaultPlace, MakesFaultStep, TurnsFault, as_end, is_fast_place};
ghost use Rattle.step_seats.specs.Moves.{KeepsSeat};
ghost use Rattle.step_seats.specs.PartTurns.{MakesPart};
ghost use Rattle.step_seats.specs.declared.turn.Turn.TheVariants.{More};

use crate::answers::{claim_turn, end_turn, lock_turn};
use core_views::{AccessPlace, FaultEnd, FaultPlace};
use grace_period::{begin, end};
use host_map::{bring_in, look};
use invalidate_seq::{Check, Snapshot};
use memslots::{Find, Sought};
use mmu_core::FreeMap;
use mmu_lock::{try_shared, unlock};
use part_steps::{PartStep, map_of};
use spte_words::Area;
use step_seats::{
    Stepper, Turn, access_note, fault_place, make_part, page_of, page_owned, part_rests, word_below,
};
use table_pool::{Claim, Fill, Give};
use tdp_walk::Walk;

/// What a fault answers.
#[derive(Clone, Copy, Debug, PartialEq, Eq, Drop)]
pub enum Faulted {
    /// An entry that allows the access stood in a table that the fault reached
    /// from the root: it was there, or the fault put it.
    Installed,
    /// No slot has the guest frame, or a read-only one has and the access writes
    /// (KVM's api.rst, `KVM_EXIT_MMIO`).
    Mmio,
    /// The access writes, and the host doesn't allow writes to the page.
    HostFault,
    /// No page of the pool was free for a table: each word of its map was seen 0.
    Starved,
}

/// The fault of one access, a step a turn. The place where it stands is kept in the
/// hand whose line the access is.
#[derive(Clone, Copy, Drop)]
pub struct FaultJob {
    /// The guest frame, below 2^36.
    pub gfn: u64,
    /// Whether the access writes.
    pub write: bool,
}

impl FaultJob {
    // Makes the step of a place that always leads on to another one.
    fn go_on<S: Stepper>(&self, s: &mut S, place: FaultPlace, note: u64)
        requires is_at { IsAtFaultPlace place self.now.gfn self.now.write note (S.seat s.old).hand }
        requires leads_on { LeadsOn place }
        requires whole { is_fast_place place ≡ false }
        requires reserved { 0 < (S.seat s.old).room }
        ensures makes { MakesPart (fault_part place self.now.gfn (S.seat s.old).hand.topics) note (S.seat s.old) (S.seat s.new) }
        ensures keeps { KeepsSeat (S.seat s.old) (S.seat s.new) (S.frame s.old) (S.frame s.new) }
    {
        let gfn = self.gfn;
        match place {
            FaultPlace::Begin => begin(s, note),
            FaultPlace::Snapshot => {
                let _ = Snapshot::new().turn(s, note);
            }
            FaultPlace::Find { begun } => {
                let sought = Sought::GuestFrame(gfn);
                let _ = Find { sought, begun }.turn(s, note);
            }
            FaultPlace::Host => {
                part_rests(s.hand());
                let page = page_of(&s.hand().topics().search.slot, gfn);
                let _ = look(s, page, note);
            }
            FaultPlace::Bring => {
                let _ = bring_in(s, note);
            }
            FaultPlace::Check(stage) => {
                let _ = Check { gfn, stage }.turn(s, note);
            }
            _ => self.go_down(s, place, note),
        }
    }

    // Makes the step of such a place that comes after the check of the look-up.
    fn go_down<S: Stepper>(&self, s: &mut S, place: FaultPlace, note: u64)
        requires is_at { IsAtFaultPlace place self.now.gfn self.now.write note (S.seat s.old).hand }
        requires leads_on { LeadsOn place }
        requires whole { is_fast_place place ≡ false }
        requires checked { ComesAfterCheck place }
        requires reserved { 0 < (S.seat s.old).room }
        ensures makes { MakesPart (fault_part place self.now.gfn (S.seat s.old).hand.topics) note (S.seat s.old) (S.seat s.new) }
        ensures keeps { KeepsSeat (S.seat s.old) (S.seat s.new) (S.frame s.old) (S.frame s.new) }
    {
        let gfn = self.gfn;
        let topics = s.hand().topics();
        let page = page_owned(topics.owned);
        let below = topics.walk.level.saturating_sub(1) as u64;
        match place {
            FaultPlace::Walk { rooted } => {
                let _ = Walk { gfn, rooted }.turn(s, note);
            }
            FaultPlace::Fill => {
                let word = word_below(topics);
                let _ = Fill::new(page).turn(s, word, note);
            }
            FaultPlace::Role => {
                let _ = Fill::new(page).turn(s, below, note);
            }
            FaultPlace::Link => {
                let _ = make_part(s, PartStep::Link(gfn), note);
            }
            FaultPlace::Give(_) => {
                let _ = Give::new(page).turn(s, note);
            }
            FaultPlace::Leaf { write } => {
                let _ = make_part(s, PartStep::Leaf { gfn, write }, note);
            }
            FaultPlace::Mark { .. } => {
                let _ = make_part(s, PartStep::Mark, note);
            }
            FaultPlace::Unshare(_) => unlock(s, note),
            _ => unreachable!(),
        }
    }

    // Tries to share the lock, and waits once a try that found a writer is taken back.
    fn share<S: Stepper>(&self, s: &mut S, note: u64) -> Turn<Faulted>
        requires is_at { IsAtFaultPlace at.Share self.now.gfn self.now.write note (S.seat s.old).hand }
        requires reserved { 0 < (S.seat s.old).room }
        ensures makes { MakesFaultStep at.Share self.now.gfn self.now.write (as_end end_told result) note (S.seat s.old) (S.seat s.new) }
        ensures keeps { KeepsSeat (S.seat s.old) (S.seat s.new) (S.frame s.old) (S.frame s.new) }
    {
        part_rests(s.hand());
        let word = map_of(&s.hand().progress().sizes).word_of(Area::Lock, 0);
        lock_turn(word, try_shared(s, note))
    }

    // Claims a page for a table, and waits where the page that it tried was taken.
    fn claim<S: Stepper>(&self, s: &mut S, begun: bool, note: u64) -> Turn<Faulted>
        requires is_at { IsAtFaultPlace (at.Claim begun) self.now.gfn self.now.write note (S.seat s.old).hand }
        requires reserved { 0 < (S.seat s.old).room }
        ensures makes { MakesFaultStep (at.Claim begun) self.now.gfn self.now.write (as_end end_told result) note (S.seat s.old) (S.seat s.new) }
        ensures keeps { KeepsSeat (S.seat s.old) (S.seat s.new) (S.frame s.old) (S.frame s.new) }
    {
        let mut claim = Claim {
            map: FreeMap::Pages,
            begun,
        };
        claim_turn(claim.turn(s, note))
    }

    // Ends the section, and the fault with it.
    fn end<S: Stepper>(&self, s: &mut S, ended: FaultEnd, note: u64) -> Turn<Faulted>
        requires is_at { IsAtFaultPlace (at.End ended) self.now.gfn self.now.write note (S.seat s.old).hand }
        requires whole { is_fast_place (at.End ended) ≡ false }
        requires reserved { 0 < (S.seat s.old).room }
        ensures makes { MakesFaultStep (at.End ended) self.now.gfn self.now.write (as_end end_told result) note (S.seat s.old) (S.seat s.new) }
        ensures keeps { KeepsSeat (S.seat s.old) (S.seat s.new) (S.frame s.old) (S.frame s.new) }
    {
        end(s, note);
        end_turn(ended)
    }

    // Makes the step of this place by the call of its part, and answers by what the
    // part answers.
    fn step<S: Stepper>(&self, s: &mut S, place: FaultPlace, note: u64) -> Turn<Faulted>
        requires is_at { IsAtFaultPlace place self.now.gfn self.now.write note (S.seat s.old).hand }
        requires whole { is_fast_place place ≡ false }
        requires reserved { 0 < (S.seat s.old).room }
        ensures makes { MakesFaultStep place self.now.gfn self.now.write (as_end end_told result) note (S.seat s.old) (S.seat s.new) }
        ensures keeps { KeepsSeat (S.seat s.old) (S.seat s.new) (S.frame s.old) (S.frame s.new) }
    {
        match place {
            FaultPlace::Share => self.share(s, note),
            FaultPlace::Claim { begun } => self.claim(s, begun, note),
            FaultPlace::End(ended) => self.end(s, ended, note),
            _ => {
                self.go_on(s, place, note);
                Turn::More
            }
        }
    }

    /// Makes the next step of the hand's line, which stands in its fault, a whole one. `Wait`
    /// where a writer has the lock or a page was claimed by another actor meanwhile,
    /// and `Retry` where the look-up holds no more, or another actor's entry or host
    /// word stood in the way: the section is over then, and the access is to begin anew.
    pub fn turn<S: Stepper>(&self, s: &mut S) -> Turn<Faulted>
        requires stands { StandsInLine self.now (S.seat s.old).hand }
        requires reserved { 0 < (S.seat s.old).room }
        ensures turned { TurnsFault self.now.gfn self.now.write (as_end end_told result) (S.seat s.old) (S.seat s.new) }
        ensures nearer { result ≡ More → hand_left (S.seat s.new).hand < hand_left (S.seat s.old).hand }
        ensures keeps { KeepsSeat (S.seat s.old) (S.seat s.new) (S.frame s.old) (S.frame s.new) }
    {
        let hand = s.hand();
        part_rests(hand);
        let place = fault_place(hand, self.gfn, self.write);
        self.step(s, place, access_note(AccessPlace::Fault(place)))
    }
}
