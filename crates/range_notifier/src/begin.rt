ghost use Rattle.std.specs.Prelude.{◌≡◌, ◌<◌, ◌≤◌, ◌^◌, Some, None, true, false};
ghost use Rattle.core_views.specs.declared.place.BeginPlace.TheVariants as at;
ghost use Rattle.mmu_core.specs.orders.InvalidateSteps.{begin_part};
ghost use Rattle.part_steps.specs.declared.invalidations.Target.TheVariants as aim;
ghost use Rattle.part_steps.specs.PartBounds.{PartRests};
ghost use Rattle.part_steps.specs.SweepTopics.{swept_to};
ghost use Rattle.range_notifier.specs.Notifying.{BeginsNext, NeverWaits, IsInBegin, TurnsBegin, begin_at, opens_at};
ghost use Rattle.step_seats.specs.Moves.{KeepsSeat};
ghost use Rattle.step_seats.specs.PartTurns.{MadeTelling, MakesPart};

use core_views::{
    BeginPlace, HostPlace, HostRunPlace, PageRun, Place, Seen, Slot, SlotChangePlace,
};
use invalidate_seq::{Open, OpenStage};
use memslots::{Find, Sought};
use mmu_lock::{exclude, release};
use part_steps::{Target, map_of};
use step_seats::{Hand, Stepper, Turn, part_rests, swept_to};
use tdp_walk::{Walk, sweep_entry, zap};
use vcpu_tlb::{ask_flush, await_flush};

/// The begin of an invalidation, a step a turn. Where it stands is kept in the hand whose
/// line it is of.
#[derive(Clone, Copy, Drop)]
pub struct BeginJob {
    /// What is invalidated.
    pub target: Target,
}

// Where in the begin the hand's line stands.
fn place_of(hand: &Hand) -> Option<BeginPlace>
    ensures { result ≡ begin_at hand.now.core.state.place }
{
    match hand.progress().place {
        Place::Host(HostPlace::Begin(place)) => Some(place),
        Place::HostRun(HostRunPlace::Begin(place)) => Some(place),
        Place::SlotChange(SlotChangePlace::Begin(place)) => Some(place),
        _ => None,
    }
}

// The guest frame to which the sweep has come.
fn swept_frame(hand: &Hand) -> u64
    requires rests { PartRests hand.now.core }
    requires there { 1 ≤ hand.now.core.topics.walk.level }
    requires small { swept_to true hand.now.core.topics.invalidations.own.start hand.now.core.topics.walk < 2 ^ 64 }
    ensures { result ≡ swept_to true hand.now.core.topics.invalidations.own.start hand.now.core.topics.walk }
{
    let topics = hand.topics();
    swept_to(true, topics.invalidations.own.start, &topics.walk)
}

impl BeginJob {
    /// The begin of the invalidation of this host page.
    pub fn of_page(page: u64) -> BeginJob
        ensures { result ≡ record { target = aim.Page page } }
    {
        BeginJob {
            target: Target::Page(page),
        }
    }

    /// The begin of the invalidation of this run of several host pages.
    pub fn of_run(run: PageRun) -> BeginJob
        ensures { result ≡ record { target = aim.Run run } }
    {
        BeginJob {
            target: Target::Run(run),
        }
    }

    /// The begin of the invalidation of this slot's guest frames.
    pub fn of_slot(slot: Slot) -> BeginJob
        ensures { result ≡ record { target = aim.Slot slot } }
    {
        BeginJob {
            target: Target::Slot(slot),
        }
    }

    // Searches the slots for the target. It never waits.
    fn find<S: Stepper>(&self, s: &mut S, begun: bool, note: u64)
        requires is_in { IsInBegin (at.Find begun) self.now.target note (S.seat s.old).hand }
        requires reserved { 0 < (S.seat s.old).room }
        ensures makes { MakesPart (begin_part (at.Find begun) self.now.target (S.seat s.old).hand.topics) note (S.seat s.old) (S.seat s.new) }
        ensures keeps { KeepsSeat (S.seat s.old) (S.seat s.new) (S.frame s.old) (S.frame s.new) }
    {
        let page = match self.target {
            Target::Page(page) => page,
            Target::Run(run) => run.first,
            Target::Slot(slot) => slot.host,
        };
        let mut find = Find {
            sought: Sought::HostPage(page),
            begun,
        };
        let _ = find.turn(s, note);
    }

    // Loads or stores the next word of the open invalidations. It never waits.
    fn open<S: Stepper>(&self, s: &mut S, stage: OpenStage, note: u64)
        requires is_in { IsInBegin (opens_at stage) self.now.target note (S.seat s.old).hand }
        requires reserved { 0 < (S.seat s.old).room }
        ensures makes { MakesPart (begin_part (opens_at stage) self.now.target (S.seat s.old).hand.topics) note (S.seat s.old) (S.seat s.new) }
        ensures keeps { KeepsSeat (S.seat s.old) (S.seat s.new) (S.frame s.old) (S.frame s.new) }
    {
        part_rests(s.hand());
        let topics = s.hand().topics();
        let (search, row) = (&topics.search, &topics.row);
        let (first, end) = (self.target.start(search, row), self.target.end(search, row));
        let mut open = Open { first, end, stage };
        let _ = open.turn(s, note);
    }

    // Begins the sweep at the root, or goes on with its next entry. It never waits.
    fn walk<S: Stepper>(&self, s: &mut S, rooted: bool, note: u64)
        requires is_in { IsInBegin (at.Walk rooted) self.now.target note (S.seat s.old).hand }
        requires reserved { 0 < (S.seat s.old).room }
        ensures makes { MakesPart (begin_part (at.Walk rooted) self.now.target (S.seat s.old).hand.topics) note (S.seat s.old) (S.seat s.new) }
        ensures keeps { KeepsSeat (S.seat s.old) (S.seat s.new) (S.frame s.old) (S.frame s.new) }
    {
        if rooted {
            part_rests(s.hand());
            let gfn = swept_frame(s.hand());
            let _ = sweep_entry(s, gfn, note);
        } else {
            let _ = Walk::new(0).turn(s, note);
        }
    }

    // Zaps the leaf that the sweep has come to. It never waits.
    fn zap<S: Stepper>(&self, s: &mut S, note: u64)
        requires is_in { IsInBegin at.Zap self.now.target note (S.seat s.old).hand }
        requires reserved { 0 < (S.seat s.old).room }
        ensures makes { MakesPart (begin_part at.Zap self.now.target (S.seat s.old).hand.topics) note (S.seat s.old) (S.seat s.new) }
        ensures keeps { KeepsSeat (S.seat s.old) (S.seat s.new) (S.frame s.old) (S.frame s.new) }
    {
        part_rests(s.hand());
        let gfn = swept_frame(s.hand());
        let _ = zap(s, gfn, note);
    }

    // Awaits the flush of the next virtual processor. Its state word is in the way where it
    // is in the guest, and has yet to flush.
    fn await_next<S: Stepper>(&self, s: &mut S, note: u64) -> Option<Seen>
        requires is_in { IsInBegin at.Await self.now.target note (S.seat s.old).hand }
        requires reserved { 0 < (S.seat s.old).room }
        ensures makes { MadeTelling result (begin_part at.Await self.now.target (S.seat s.old).hand.topics) note (S.seat s.old) (S.seat s.new) }
        ensures keeps { KeepsSeat (S.seat s.old) (S.seat s.new) (S.frame s.old) (S.frame s.new) }
    {
        let hand = s.hand();
        part_rests(hand);
        let index = hand.topics().flush.awaited;
        let word = map_of(&hand.progress().sizes).word_of_state(index);
        await_flush(s, index, note).in_way(word)
    }

    // Makes the step of a place that never waits for another actor.
    fn go_on<S: Stepper>(&self, s: &mut S, place: BeginPlace, note: u64)
        requires is_in { IsInBegin place self.now.target note (S.seat s.old).hand }
        requires goes_on { NeverWaits place }
        requires reserved { 0 < (S.seat s.old).room }
        ensures makes { MakesPart (begin_part place self.now.target (S.seat s.old).hand.topics) note (S.seat s.old) (S.seat s.new) }
        ensures keeps { KeepsSeat (S.seat s.old) (S.seat s.new) (S.frame s.old) (S.frame s.new) }
    {
        match place {
            BeginPlace::Find { begun } => self.find(s, begun, note),
            BeginPlace::Count => self.open(s, OpenStage::Count, note),
            BeginPlace::RangeStart => self.open(s, OpenStage::RangeStart, note),
            BeginPlace::RangeEnd => self.open(s, OpenStage::RangeEnd, note),
            BeginPlace::SetStart => self.open(s, OpenStage::SetStart, note),
            BeginPlace::SetEnd => self.open(s, OpenStage::SetEnd, note),
            BeginPlace::SetCount => self.open(s, OpenStage::SetCount, note),
            BeginPlace::Walk { rooted } => self.walk(s, rooted, note),
            BeginPlace::Zap => self.zap(s, note),
            BeginPlace::Ask => ask_flush(s, s.hand().topics().flush.asked, note),
            _ => unreachable!(),
        }
    }

    // Makes the step of this place by the call of its part, and says what is in its way.
    fn step<S: Stepper>(&self, s: &mut S, place: BeginPlace, note: u64) -> Option<Seen>
        requires is_in { IsInBegin place self.now.target note (S.seat s.old).hand }
        requires reserved { 0 < (S.seat s.old).room }
        ensures makes { MadeTelling result (begin_part place self.now.target (S.seat s.old).hand.topics) note (S.seat s.old) (S.seat s.new) }
        ensures keeps { KeepsSeat (S.seat s.old) (S.seat s.new) (S.frame s.old) (S.frame s.new) }
    {
        match place {
            BeginPlace::Exclude => exclude(s, note),
            BeginPlace::Await => self.await_next(s, note),
            BeginPlace::Release => release(s, note),
            _ => {
                self.go_on(s, place, note);
                None
            }
        }
    }

    /// Makes the next step of the hand's line, which stands in the begin of an
    /// invalidation: it takes the lock alone, searches the slots for the target, widens the
    /// range of open invalidations to the target's guest frames and counts one more, zaps their
    /// leaves, asks each virtual processor for a flush and awaits it, and gives the lock back.
    /// `Done` once the lock is given back; `begins_leave_nothing` of `job_laws` says what it makes
    /// sure of. `Wait` where the lock's word isn't 0, or a virtual processor is in the guest
    /// and has yet to flush; never `Retry`. It takes no memory.
    pub fn turn<S: Stepper>(&self, s: &mut S, note: u64) -> Turn<()>
        requires next { BeginsNext self.now note (S.seat s.old).hand }
        requires reserved { 0 < (S.seat s.old).room }
        ensures turned { TurnsBegin self.now result note (S.seat s.old) (S.seat s.new) }
        ensures keeps { KeepsSeat (S.seat s.old) (S.seat s.new) (S.frame s.old) (S.frame s.new) }
    {
        let Some(place) = place_of(s.hand()) else {
            unreachable!()
        };
        match self.step(s, place, note) {
            Some(seen) => Turn::Wait(seen),
            None if matches!(place, BeginPlace::Release) => Turn::Done(()),
            None => Turn::More,
        }
    }
}
