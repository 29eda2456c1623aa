//! A seat at a machine that tells no world, and the lock taken through it: what a
//! part says of the told world it says of each possible world here.
ghost use Rattle.std.specs.Prelude.{◌<◌};
ghost use Rattle.mmu_core.specs.machine.MayMake.{MayMake};
ghost use Rattle.mmu_lock.specs.Locking.{ExchangedUntold, untold_in};
ghost use Rattle.part_steps.specs.declared.part_step.PartStep.TheVariants.{Exclude};
ghost use Rattle.step_seats.specs.Frames.{frame_of};

use core_views::{Kind, NoMemory};
use mmu_lock::{Lock, try_exclusive};
use step_seats::{ActorSeat, Hand, MachineFrame, PlainMachine, Stepper};

/// The seat of an actor, which tells neither the world nor the steps.
#[derive(Drop)]
pub struct UntoldSeat<'a> {
    pub seat: ActorSeat<'a, PlainMachine>,
}

impl Stepper for UntoldSeat<'_> {
    type Frame = MachineFrame;

    ghost seat = { λ s. untold_in s.seat.machine.now s.seat.index };

    ghost frame = { λ s. frame_of s.seat.machine.ghost_name s.seat.machine.now s.seat.index };

    fn act(&mut self, kind: Kind) -> u64 {
        self.seat.act(kind)
    }

    fn hand(&self) -> &Hand {
        self.seat.hand()
    }

    fn reserve(&mut self) -> Result<(), NoMemory> {
        self.seat.reserve()
    }
}

/// A writer's try: one step, which found what it answers. Of each world in which
/// its exchange may have been made with its answer: where it got the lock, nobody
/// else has it after the exchange; and where all others rest, it got it.
pub fn exclusive_untold(s: &mut UntoldSeat<'_>) -> Lock
    requires may { MayMake Exclude 0 (untold_in s.old.seat.machine.now s.old.seat.index).hand }
    requires reserved { 0 < (untold_in s.old.seat.machine.now s.old.seat.index).room }
    ensures step { ExchangedUntold result (untold_in s.old.seat.machine.now s.old.seat.index) (untold_in s.new.seat.machine.now s.new.seat.index) }
{
    try_exclusive(s, 0)
}
