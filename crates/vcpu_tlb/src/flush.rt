ghost use Rattle.std.specs.Prelude.{◌≡◌, ◌+◌, ◌<◌};
ghost use Rattle.mmu_core.specs.machine.MayMake.{MayMake};
ghost use Rattle.part_steps.specs.declared.part_step.PartStep.TheVariants.{Ask, Await};
ghost use Rattle.step_seats.specs.Moves.{KeepsSeat};
ghost use Rattle.step_seats.specs.PartTurns.{MakesPart};
ghost use Rattle.vcpu_tlb.specs.Flushing.{AnswersAwait, AsksFlush, Awaits, asked_up_to, await_way, awaited_up_to, count_awaited};

use core_views::Seen;
use part_steps::PartStep;
use step_seats::{Stepper, has_to_flush, make_part};

/// What a look at a virtual processor found that was asked for a flush.
#[derive(Clone, Copy, Debug, PartialEq, Eq, Drop)]
pub enum Awaited {
    /// It is outside the guest, or nothing is asked of it any more: whatever it had cached
    /// before it was asked is gone once it is in the guest next.
    Flushed,
    /// It is in the guest, and has yet to flush: its state word as it was found.
    Waits(u64),
}

impl Awaited {
    /// What is in the way of who awaits the flush: the state word, which stands at this
    /// place among all words of the machine, as it was found.
    pub fn in_way(&self, word: u32) -> Option<Seen>
        ensures { result ≡ await_way word self.now }
    {
        match self {
            Awaited::Flushed => None,
            Awaited::Waits(value) => Some(Seen {
                word,
                value: *value,
            }),
        }
    }
}

/// Asks the virtual processor at this place for a flush: sets bit 2 of its state word
/// (KVM's vcpu-requests.rst, `KVM_REQ_TLB_FLUSH`), and leaves bits 0 and 1. They are asked
/// in the order of their places, from 0 on. It never waits and takes no memory.
pub fn ask_flush<S: Stepper>(s: &mut S, index: u64, note: u64)
    requires may { MayMake (Ask index) note (S.seat s.old).hand }
    requires reserved { 0 < (S.seat s.old).room }
    ensures step { MakesPart (Ask index) note (S.seat s.old) (S.seat s.new) }
    ensures asked { (S.seat s.new).hand.topics ≡ asked_up_to (index + 1) (S.seat s.old).hand.topics }
    ensures told { AsksFlush index note (S.seat s.old) (S.seat s.new) }
    ensures keeps { KeepsSeat (S.seat s.old) (S.seat s.new) (S.frame s.old) (S.frame s.new) }
{
    let _ = make_part(s, PartStep::Ask(index), note);
}

/// Looks at the state word of the virtual processor at this place, which was asked for a
/// flush (vcpu-requests.rst, `KVM_REQUEST_WAIT`). `Waits` where it is in the guest and has
/// yet to flush: the next look is at it again. Else the next look is at the one after it.
/// It takes no memory.
pub fn await_flush<S: Stepper>(s: &mut S, index: u64, note: u64) -> Awaited
    requires may { MayMake (Await index) note (S.seat s.old).hand }
    requires reserved { 0 < (S.seat s.old).room }
    ensures step { Awaits index note result (S.seat s.old) (S.seat s.new) }
    ensures awaited { (S.seat s.new).hand.topics ≡ awaited_up_to (count_awaited result index) (S.seat s.old).hand.topics }
    ensures told { AnswersAwait result index note (S.seat s.old) (S.seat s.new) }
    ensures keeps { KeepsSeat (S.seat s.old) (S.seat s.new) (S.frame s.old) (S.frame s.new) }
{
    let state = make_part(s, PartStep::Await(index), note);
    if has_to_flush(state) {
        Awaited::Waits(state)
    } else {
        Awaited::Flushed
    }
}
