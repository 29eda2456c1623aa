ghost use Rattle.std.specs.Prelude.{◌≡◌, ◌<◌};
ghost use Rattle.mmu_core.specs.orders.InvalidateSteps.{end_part};
ghost use Rattle.range_notifier.specs.Notifying.{EndsNext, IsInEnd, TurnsEnd, end_at, shuts_at};
ghost use Rattle.step_seats.specs.Moves.{KeepsSeat};
ghost use Rattle.step_seats.specs.PartTurns.{MadeTelling, MakesPart};

use core_views::{EndPlace, HostPlace, HostRunPlace, Place, Seen, SlotChangePlace};
use invalidate_seq::{Shut, ShutStage};
use mmu_lock::{exclude, release};
use step_seats::{Hand, Stepper, Turn};

/// The end of an invalidation, a step a turn. Where it stands is kept in the hand whose
/// line it is of.
#[derive(Clone, Copy, Drop)]
pub struct EndJob;

// Where in the end the hand's line stands.
fn place_of(hand: &Hand) -> Option<EndPlace>
    ensures { result ≡ end_at hand.now.core.state.place }
{
    match hand.progress().place {
        Place::Host(HostPlace::End(place)) => Some(place),
        Place::HostRun(HostRunPlace::End(place)) => Some(place),
        Place::SlotChange(SlotChangePlace::End(place)) => Some(place),
        _ => None,
    }
}

// Loads or stores the sequence number or the count. It never waits.
fn shut<S: Stepper>(s: &mut S, stage: ShutStage, note: u64)
    requires is_in { IsInEnd (shuts_at stage) note (S.seat s.old).hand }
    requires reserved { 0 < (S.seat s.old).room }
    ensures makes { MakesPart (end_part (shuts_at stage) (S.seat s.old).hand.topics) note (S.seat s.old) (S.seat s.new) }
    ensures keeps { KeepsSeat (S.seat s.old) (S.seat s.new) (S.frame s.old) (S.frame s.new) }
{
    let mut shut = Shut { stage };
    let _ = shut.turn(s, note);
}

// Makes the step of this place by the call of its part, and says what is in its way.
fn step<S: Stepper>(s: &mut S, place: EndPlace, note: u64) -> Option<Seen>
    requires is_in { IsInEnd place note (S.seat s.old).hand }
    requires reserved { 0 < (S.seat s.old).room }
    ensures makes { MadeTelling result (end_part place (S.seat s.old).hand.topics) note (S.seat s.old) (S.seat s.new) }
    ensures keeps { KeepsSeat (S.seat s.old) (S.seat s.new) (S.frame s.old) (S.frame s.new) }
{
    let stage = match place {
        EndPlace::Exclude => return exclude(s, note),
        EndPlace::Release => return release(s, note),
        EndPlace::Seq => ShutStage::Seq,
        EndPlace::SetSeq => ShutStage::SetSeq,
        EndPlace::Count => ShutStage::Count,
        EndPlace::SetCount => ShutStage::SetCount,
    };
    shut(s, stage, note);
    None
}

impl EndJob {
    /// Makes the next step of the hand's line, which stands in the end of its invalidation:
    /// it takes the lock alone, raises the sequence number, counts one less, and gives the
    /// lock back. `Done` once the lock is given back; `ends_raise_once` of `job_laws` says
    /// what it makes sure of. `Wait` where the lock's word isn't 0; never `Retry`. It takes no memory.
    pub fn turn<S: Stepper>(&self, s: &mut S, note: u64) -> Turn<()>
        requires next { EndsNext note (S.seat s.old).hand }
        requires reserved { 0 < (S.seat s.old).room }
        ensures turned { TurnsEnd result note (S.seat s.old) (S.seat s.new) }
        ensures keeps { KeepsSeat (S.seat s.old) (S.seat s.new) (S.frame s.old) (S.frame s.new) }
    {
        let Some(place) = place_of(s.hand()) else {
            unreachable!()
        };
        match step(s, place, note) {
            Some(seen) => Turn::Wait(seen),
            None if matches!(place, EndPlace::Release) => Turn::Done(()),
            None => Turn::More,
        }
    }
}
