//! The seat of one actor at a machine with one owner.
ghost use Rattle.std.specs.Prelude.{◌<◌, length};
ghost use Rattle.step_seats.specs.Frames.{frame_of};
ghost use Rattle.step_seats.specs.Machines.{seat_in};

use crate::{MachineOwner, Stepper};
use core_views::{Kind, NoMemory};
use mmu_steps::Hand;
use std::marker::{Model, PhantomData};

/// What the steps of a seat leave as it is: which owner of the machine it
/// borrows, its sizes, and the room in the other hands. No value of it is made.
pub struct MachineFrame {
    marker: PhantomData<()>,
}

impl Model for MachineFrame {
    ghost use Rattle.step_seats.specs.Frames.{Frame, no_frame};

    ghost Value = { Frame };

    ghost view = { λ f. no_frame };
}

/// The seat of the actor at this place among all actors of the machine.
#[derive(Drop)]
pub struct ActorSeat<'a, M: MachineOwner> {
    pub machine: &'a mut M,
    pub index: usize,
    ghost there: { index < length (M.machine machine.now).hands },
}

impl<M: MachineOwner> Stepper for ActorSeat<'_, M> {
    type Frame = MachineFrame;

    ghost seat = { λ s. seat_in (M.machine s.machine.now) (M.steps s.machine.now) s.index };

    ghost frame = { λ s. frame_of s.machine.ghost_name (M.machine s.machine.now) s.index };

    #[inline(always)]
    fn act(&mut self, kind: Kind) -> u64 {
        self.machine.make_step(self.index, kind)
    }

    fn hand(&self) -> &Hand {
        self.machine.hand(self.index)
    }

    fn reserve(&mut self) -> Result<(), NoMemory> {
        self.machine.reserve(self.index)
    }
}
