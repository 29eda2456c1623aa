ghost use Rattle.std.specs.Prelude.{◌≡◌, ◌<◌, ◌==◌, not};
ghost use Rattle.core_views.specs.declared.topics.Stay.TheVariants as Stay;
ghost use Rattle.mmu_core.specs.machine.MayMake.{MayMake};
ghost use Rattle.part_steps.specs.StayTopics.{begun};
ghost use Rattle.part_steps.specs.declared.part_step.PartStep.TheVariants.{Enter, Leave, Pause};
ghost use Rattle.step_seats.specs.Moves.{KeepsSeat};
ghost use Rattle.step_seats.specs.PartTurns.{MadePart, MakesPart};
ghost use Rattle.vcpu_tlb.specs.Entering.{AnswersPause, AnswersState, Enters, KeepsAsking, TellsGuest, TellsOutside, cached_behind};

use part_steps::PartStep;
use step_seats::{Stepper, asks_flush, make_part};

/// What a virtual processor found as it entered the guest.
#[derive(Clone, Copy, Debug, PartialEq, Eq, Drop)]
pub enum Entered {
    /// No flush was asked for: what was cached stays.
    In,
    /// A flush was asked for: nothing is cached any more.
    Flushed,
}

/// Enters the guest, by one swap of the own state word for 3 (bit 0 in the
/// guest, bit 1 in a section). Where bit 2 was found there a flush was asked for,
/// and nothing is cached any more (KVM's vcpu-requests.rst,
/// `KVM_REQ_TLB_FLUSH`). It never waits and takes no memory.
pub fn enter<S: Stepper>(s: &mut S, note: u64) -> Entered
    requires may { MayMake Enter note (S.seat s.old).hand }
    requires reserved { 0 < (S.seat s.old).room }
    ensures step { Enters note result (S.seat s.old) (S.seat s.new) }
    ensures cached { (S.seat s.new).hand.cached ≡ cached_behind result (S.seat s.old).hand.cached }
    ensures stay { (S.seat s.new).hand.topics ≡ begun Stay.Guest (S.seat s.old).hand.topics }
    ensures asked { AnswersState result note (S.seat s.old) (S.seat s.new) }
    ensures state { TellsGuest note (S.seat s.old) (S.seat s.new) }
    ensures keeps { KeepsSeat (S.seat s.old) (S.seat s.new) (S.frame s.old) (S.frame s.new) }
{
    let state = make_part(s, PartStep::Enter, note);
    if asks_flush(state) {
        Entered::Flushed
    } else {
        Entered::In
    }
}

/// Whether virtual processors are to stay outside the guest: the pause word, as
/// the actor loads it, isn't 0. It never waits and takes no memory.
pub fn paused<S: Stepper>(s: &mut S, note: u64) -> bool
    requires may { MayMake Pause note (S.seat s.old).hand }
    requires reserved { 0 < (S.seat s.old).room }
    ensures step { MadePart Pause note (S.seat s.new).hand.topics.pause (S.seat s.old) (S.seat s.new) }
    ensures cached { (S.seat s.new).hand.cached ≡ (S.seat s.old).hand.cached }
    ensures pause { (S.seat s.new).hand.topics ≡ record (S.seat s.old).hand.topics { pause = (S.seat s.new).hand.topics.pause } }
    ensures answer { result ≡ not ((S.seat s.new).hand.topics.pause == 0) }
    ensures told { AnswersPause result note (S.seat s.old) (S.seat s.new) }
    ensures keeps { KeepsSeat (S.seat s.old) (S.seat s.new) (S.frame s.old) (S.frame s.new) }
{
    make_part(s, PartStep::Pause, note) != 0
}

/// Leaves the guest: clears bits 0 and 1 of the own state word, and keeps bit 2
/// of it (KVM's vcpu-requests.rst, "VCPU Mode"). It never waits and takes no
/// memory.
pub fn leave<S: Stepper>(s: &mut S, note: u64)
    requires may { MayMake Leave note (S.seat s.old).hand }
    requires reserved { 0 < (S.seat s.old).room }
    ensures step { MakesPart Leave note (S.seat s.old) (S.seat s.new) }
    ensures cached { (S.seat s.new).hand.cached ≡ (S.seat s.old).hand.cached }
    ensures stay { (S.seat s.new).hand.topics ≡ begun Stay.Outside (S.seat s.old).hand.topics }
    ensures clear { TellsOutside note (S.seat s.old) (S.seat s.new) }
    ensures asked { KeepsAsking note (S.seat s.old) (S.seat s.new) }
    ensures keeps { KeepsSeat (S.seat s.old) (S.seat s.new) (S.frame s.old) (S.frame s.new) }
{
    let _ = make_part(s, PartStep::Leave, note);
}
