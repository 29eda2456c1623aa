//! Room for what a board leaves.
ghost use Rattle.std.specs.Prelude.{◌≡◌, IfOk, Some, map, true};
ghost use Rattle.step_seats.specs.Moves.{world_of};
ghost use Rattle.table_seats.specs.Boards.{AllHands, Explained, Fits, begun};
ghost use Rattle.table_seats.specs.Passes.{world_after};
ghost use Rattle.table_seats.specs.Rooms.{HasRoom};

use crate::pass_hands::{gather_hands, gather_words};
use crate::{Board, Pass};
use core_views::{NoMemory, Sequence};
use std::alloc::Global;
use step_seats::{Closing, Hand};

/// The memory that the words and hands of a board take once it is closed.
#[derive(Drop)]
pub(crate) struct Room {
    words: Vec<u64>,
    hands: Vec<Hand>,
}

impl Room {
    // Room for the words and hands of the board, of which this is a pass.
    pub(crate) fn take(alloc: Global, board: &Board, pass: &Pass) -> Result<Room, NoMemory>
        requires fits { Fits board.now pass.now }
        ensures { IfOk result (HasRoom board.now) }
    {
        Ok(Room {
            words: Vec::with_capacity(alloc, board.table.word_count())?,
            hands: Vec::with_capacity(alloc, pass.hands.len())?,
        })
    }

    // The words and the hands, once all steps are made and the pass has every hand.
    pub(crate) fn close(self, board: Board, pass: Pass) -> Closing
        requires room { HasRoom board self }
        requires fits { Fits board pass }
        requires full { AllHands pass.hands }
        ensures hands { map Some result.hands ≡ pass.hands }
        ensures explained { Explained (begun board.start) pass.knows.past result.words result.hands }
        ensures told { pass.knows.alone ≡ true → world_after pass.knows ≡ world_of result.words result.hands }
    {
        let Room {
            mut words,
            mut hands,
        } = self;
        let count = board.table.word_count();
        let Board { table } = board;
        let Pass {
            seat,
            hands: places,
        } = pass;
        let closed = table.close_with(seat);
        gather_words(&closed, &mut words, count);
        closed.free();
        gather_hands(places, &mut hands);
        Closing {
            words: Sequence::from_vec(words),
            hands: Sequence::from_vec(hands),
        }
    }
}
