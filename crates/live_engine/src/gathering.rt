//! What the workers leave: all words and hands, and the text.
ghost use Rattle.std.specs.Prelude.{IfOk, List, Some, map, string_bytes};
ghost use Rattle.core_views.specs.declared.kind.Kind.{Kind};
ghost use Rattle.core_views.specs.Sizes.{sizes_of};
ghost use Rattle.core_views.specs.Traces.{IsTrace};
ghost use Rattle.mmu_core.specs.machine.Machine.{Step};
ghost use Rattle.step_seats.specs.Moves.{world_of};
ghost use Rattle.table_seats.specs.Boards.{Explained, begun};
ghost use Rattle.live_workers.specs.Crews.{HasWorked};
ghost use Rattle.live_workers.specs.Posts.{BringHands};
ghost use Rattle.live_engine.specs.Lives.{IsTextByLine, Lives, LivesAll, told_by};

use closing_text::{push_by_line, push_memory};
use core_views::{Actor, NoMemory, Sizes, Trace};
use live_workers::{Crew, collect};
use std::alloc::Global;
use step_seats::Closing;
use table_seats::TableSeat;

/// What a live run leaves: what each line was answered, in file order, and guest memory, as
/// text; and the last words and hands.
#[derive(Drop)]
pub struct Gathered {
    pub text: String,
    pub closing: Closing,
}

// What is printed of a live run that left these words and hands.
fn text_of(alloc: Global, trace: &Trace, closing: &Closing) -> Result<String, NoMemory>
    requires lives { Lives trace.now (world_of closing.now.words closing.now.hands) }
    ensures text { (lives : Lives trace.now (world_of closing.now.words closing.now.hands)) → IfOk result (λ text.
        IsTextByLine (sizes_of trace.now.header) trace.now.lines (told_by trace.now (world_of closing.now.words closing.now.hands) lives) (string_bytes text)) }
{
    let sizes = Sizes::of(&trace.header);
    let hands = closing.hands.as_slice();
    let manager = &hands[sizes.index_of(Actor::Manager) as usize];
    let mut text = String::new(alloc);
    push_by_line(alloc, &mut text, &sizes, trace.lines.as_slice(), hands)?;
    push_memory(&mut text, &sizes, closing.words.as_slice(), manager.slots())?;
    Ok(text)
}

/// Joins the hands of all workers, and says what the lines were answered. The closing words and
/// hands are those of the crew's board and of its workers. Where memory was refused to a worker, or
/// is refused here, board and workers are given up.
pub fn gather(alloc: Global, trace: &Trace, crew: Crew) -> Result<Gathered, NoMemory>
    requires trace { IsTrace trace.now }
    requires worked { HasWorked trace.now crew }
    ensures lives { IfOk result (λ g. LivesAll trace.now (string_bytes g.text) (world_of g.closing.words g.closing.hands)) }
    ensures hands { IfOk result (λ g. BringHands crew.workers.items (map Some g.closing.hands)) }
    ensures explained { IfOk result (λ g. (past : List (Step Kind)) × Explained (begun crew.board.start) past g.closing.words g.closing.hands) }
{
    let (board, pass) = collect(crew)?;
    let Ok(closing) = TableSeat::close(alloc, board, pass) else {
        return Err(NoMemory);
    };
    let text = text_of(alloc, trace, &closing)?;
    Ok(Gathered { text, closing })
}
