//! All words and hands of a machine in a board and its first pass.
ghost use Rattle.std.specs.Prelude.{◌≡◌, IfOk, true};
ghost use Rattle.core_views.specs.Sizes.{sizes_of};
ghost use Rattle.core_views.specs.Traces.{IsTrace};
ghost use Rattle.mmu_core.specs.machine.Worlds.{IsStart};
ghost use Rattle.step_seats.specs.Machines.{world_in};
ghost use Rattle.step_seats.specs.Moves.{world_of};
ghost use Rattle.table_seats.specs.Boards.{AllHands, Fits};
ghost use Rattle.table_seats.specs.Owners.{machine_of};
ghost use Rattle.table_seats.specs.Passes.{steps_told, world_after};

use crate::room::Room;
use crate::{Board, Pass, TableSeat};
use core_views::{Kind, NoMemory, Sizes, Trace};
use std::alloc::Global;
use std::marker::Model;
use step_seats::{Closing, Hand, MachineOwner};

/// A board with its first pass, which keeps every hand: its actors take their steps one
/// after another, each by one call of the table. The memory for the words and hands at the
/// end is taken at the start.
#[derive(Drop)]
pub struct TableMachine {
    sizes: Sizes,
    board: Board,
    pass: Pass,
    room: Room,
}

impl Model for TableMachine {
    ghost use Rattle.table_seats.specs.Owners.{OwnerView, OwnsAll};
    ghost use Rattle.table_seats.specs.Rooms.{HasRoom};

    ghost Value = { OwnerView };

    ghost view = { λ m. record { sizes = m.sizes; board = m.board; pass = m.pass } };

    ghost invariant = { λ m. OwnsAll (record { sizes = m.sizes; board = m.board; pass = m.pass }) × HasRoom m.board m.room };
}

impl TableMachine {
    /// The machine of a trace at its start.
    pub fn new(alloc: Global, trace: &Trace) -> Result<TableMachine, NoMemory>
        requires trace { IsTrace trace.now }
        ensures start { IfOk result (λ m. IsStart (sizes_of trace.now.header) trace.now.lines (world_in (machine_of m))) }
        ensures sizes { IfOk result (λ m. m.sizes ≡ sizes_of trace.now.header) }
    {
        let (board, pass) = TableSeat::make(alloc, trace)?;
        pass.holds();
        let room = Room::take(alloc, &board, &pass)?;
        Ok(TableMachine {
            sizes: Sizes::of(&trace.header),
            board,
            pass,
            room,
        })
    }

    /// The board and the pass, which tells all words and steps.
    pub fn into_parts(self) -> (Board, Pass)
        ensures parts { (result.0 ≡ self.board) × (result.1 ≡ self.pass) }
        ensures fits { Fits result.0 result.1 }
        ensures full { AllHands result.1.hands }
        ensures alone { result.1.knows.alone ≡ true }
        ensures world { world_after result.1.knows ≡ world_in (machine_of self) }
    {
        let TableMachine { board, pass, .. } = self;
        (board, pass)
    }

    /// The words and the hands, once all steps are made.
    pub fn into_closing(self) -> Closing
        ensures { world_of result.words result.hands ≡ world_in (machine_of self) }
    {
        let TableMachine {
            board,
            pass,
            room,
            ..
        } = self;
        room.close(board, pass)
    }
}

impl MachineOwner for TableMachine {
    ghost machine = { machine_of };

    ghost steps = { λ m. steps_told m.pass.knows };

    #[inline(always)]
    fn make_step(&mut self, index: usize, kind: Kind) -> u64 {
        let answer = self.board.act(&mut self.pass, index, kind);
        self.pass.holds();
        answer
    }

    fn hand(&self, index: usize) -> &Hand {
        self.pass.hand(index)
    }

    fn reserve(&mut self, index: usize) -> Result<(), NoMemory> {
        let reserved = self.pass.reserve(index);
        self.pass.holds();
        reserved
    }

    fn sizes(&self) -> Sizes {
        self.sizes
    }
}
