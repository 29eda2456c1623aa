//! The seat of one actor at a board, and the passes of a board.
ghost use Rattle.std.specs.Prelude.{◌≡◌, IfErr, IfOk, Some, map, slice_set, None, true};
ghost use Rattle.core_views.specs.Sizes.{sizes_of};
ghost use Rattle.core_views.specs.Traces.{IsTrace};
ghost use Rattle.mmu_core.specs.machine.Enabled.{mmu};
ghost use Rattle.mmu_core.specs.machine.Worlds.{IsStart};
ghost use Rattle.step_seats.specs.Machines.{IsMachine};
ghost use Rattle.step_seats.specs.Moves.{world_of};
ghost use Rattle.table_seats.specs.Boards.{AllHands, Explained, Fits, IsFirst, around, begun};
ghost use Rattle.table_seats.specs.Passes.{Keeps, seat_of, world_after};
ghost use Rattle.table_seats.specs.Rule.{joined, only, overlay, with_only, without};

use crate::calls::cut;
use crate::pass_hands::{deal, merge, take_hand};
use crate::room::Room;
use crate::rule::Glues;
use crate::{Board, Pass};
use atomic_table::Table;
use core_views::{Kind, NoMemory, Trace};
use std::alloc::Global;
use std::marker::{Brand, Model, PhantomData};
use step_seats::{Closing, Hand, MachineOwner, PlainMachine, Stepper};

/// What the steps of a seat leave as it is: the board, the other hands of the pass, and what
/// was done before the first split. No value of it is made.
pub struct TableFrame {
    marker: PhantomData<()>,
}

impl Model for TableFrame {
    ghost use Rattle.table_seats.specs.Boards.{Around, nowhere};

    ghost Value = { Around };

    ghost view = { λ _. nowhere };
}

// What always holds of a machine: steps lead to its words and hands from a start.
fn holds(machine: &PlainMachine)
    ensures { IsMachine machine.now.sizes machine.now.words machine.now.hands }
{
    machine.sizes();
}

/// The seat of one actor at a board. It has the pass that keeps the actor's hand.
#[derive(Drop)]
pub struct TableSeat<'b> {
    pub board: &'b Board,
    pub pass: Pass,
    pub actor: usize,
    ghost fits: { Fits board.now pass },
    ghost keeps: { Keeps pass actor },
}

impl<'b> TableSeat<'b> {
    /// The board of a trace at its start, and its first pass, which keeps every hand.
    pub fn make(alloc: Global, trace: &Trace) -> Result<(Board, Pass), NoMemory>
        requires trace { IsTrace trace.now }
        ensures start { IfOk result (λ r. IsStart (sizes_of trace.now.header) trace.now.lines (begun r.0.start)) }
        ensures first { IfOk result (λ r. IsFirst r.0 r.1) }
    {
        let machine = PlainMachine::new(alloc, trace)?;
        holds(&machine);
        let start = machine.into_closing();
        let (table, seat) = Table::of_words(alloc, start.words.as_slice(), &start)?;
        let Closing { hands, .. } = start;
        let hands = deal(alloc, hands.into_vec())?;
        Ok((Board { table }, Pass { seat, hands }))
    }

    /// The seat of an actor whose hand the pass keeps.
    pub fn seat(board: &'b Board, pass: Pass, actor: usize) -> TableSeat<'b>
        requires fits { Fits board.now pass }
        requires keeps { Keeps pass actor }
        ensures { (result.board.now ≡ board.now) × (result.pass ≡ pass) × (result.actor ≡ actor) }
    {
        TableSeat { board, pass, actor }
    }

    /// The pass, once the actor has made its steps.
    pub fn into_pass(self) -> Pass
        ensures pass { result ≡ self.entry.pass }
        ensures fits { Fits self.entry.board.now result }
        ensures keeps { Keeps result self.entry.actor }
    {
        self.pass
    }

    /// The actor's hand goes to a pass of its own. From then on no pass of the board tells
    /// words or steps. Where memory is refused, nothing has changed.
    pub fn split(
        alloc: Global,
        board: &Board,
        pass: &mut Pass,
        actor: usize,
    ) -> Result<Pass, NoMemory>
        requires fits { Fits board.now pass.old }
        requires keeps { Keeps pass.old actor }
        ensures given { IfOk result (λ p. Fits board.now p × (p.knows ≡ with_only actor pass.old.knows) × (p.hands ≡ only pass.old.hands actor)) }
        ensures left { IfOk result (λ _. Fits board.now pass.new × (pass.new.knows ≡ without actor pass.old.knows)
            × (pass.new.hands ≡ slice_set pass.old.hands actor None)) }
        ensures kept { IfErr result (λ _. pass.new ≡ pass.old) }
    {
        let hands = take_hand(alloc, &mut pass.hands, actor)?;
        let seat = cut::<Brand>(&board.table.shared, &mut pass.seat, actor);
        Ok(Pass { seat, hands })
    }

    /// The hands of the other pass come to this one.
    pub fn join(board: &Board, pass: &mut Pass, other: Pass)
        requires fits { Fits board.now pass.old }
        requires other { Fits board.now other }
        ensures fits { Fits board.now pass.new }
        ensures knows { pass.new.knows ≡ joined pass.old.knows other.knows }
        ensures hands { pass.new.hands ≡ overlay pass.old.hands other.hands }
    {
        let Pass { seat, hands } = other;
        merge(&mut pass.hands, hands);
        board.table.shared.join_seat::<Glues>(&mut pass.seat, seat);
    }

    /// The words and the hands, once all steps are made and one pass has every hand. Where
    /// memory is refused, the board and the pass come back as they were.
    pub fn close(alloc: Global, board: Board, pass: Pass) -> Result<Closing, (Board, Pass)>
        requires fits { Fits board pass }
        requires full { AllHands pass.hands }
        ensures hands { IfOk result (λ c. map Some c.hands ≡ pass.hands) }
        ensures explained { IfOk result (λ c. Explained (begun board.start) pass.knows.past c.words c.hands) }
        ensures told { IfOk result (λ c. pass.knows.alone ≡ true → world_after pass.knows ≡ world_of c.words c.hands) }
        ensures refused { IfErr result (λ r. (r.0 ≡ board) × (r.1 ≡ pass)) }
    {
        let Ok(room) = Room::take(alloc, &board, &pass) else {
            return Err((board, pass));
        };
        Ok(room.close(board, pass))
    }
}

impl<'b> Stepper for TableSeat<'b> {
    type Frame = TableFrame;

    ghost seat = { λ s. seat_of s.pass s.actor };

    ghost frame = { λ s. around s.board.now s.pass s.actor };

    #[inline(always)]
    fn act(&mut self, kind: Kind) -> u64 {
        self.board.act(&mut self.pass, self.actor, kind)
    }

    fn hand(&self) -> &Hand {
        self.pass.hand(self.actor)
    }

    fn reserve(&mut self) -> Result<(), NoMemory> {
        self.pass.reserve(self.actor)
    }
}
