ghost use Rattle.std.specs.Prelude.{◌≡◌, ◌<◌};
ghost use Rattle.host_map.specs.Moving.{
  FreesWhereMade,
  StoresWhereMade,
  CopiedNextWord,
  holding_copy,
  holding_no_frame,
  holding_stored,
};
ghost use Rattle.mmu_core.specs.machine.MayMake.{MayMake};
ghost use Rattle.part_steps.specs.declared.part_step.PartStep.TheVariants.{Copy, GiveFrame, Store};
ghost use Rattle.step_seats.specs.Moves.{KeepsSeat};
ghost use Rattle.step_seats.specs.PartTurns.{MadePart, MakesPart};

use part_steps::PartStep;
use step_seats::{Stepper, make_part};

/// Loads the next word of the host page that was looked up, which is the content word with
/// this index, and keeps it for the frame that is owned (page_migration.rst: the contents
/// are copied after the old page was unmapped). It answers the word. It never waits and takes
/// no memory.
pub fn copy<S: Stepper>(s: &mut S, index: u64, note: u64) -> u64
    requires may { MayMake (Copy index) note (S.seat s.old).hand }
    requires reserved { 0 < (S.seat s.old).room }
    ensures step { MadePart (Copy index) note result (S.seat s.old) (S.seat s.new) }
    ensures held { (S.seat s.new).hand.topics ≡ holding_copy result (S.seat s.old).hand.topics }
    ensures told { CopiedNextWord index note result (S.seat s.old) (S.seat s.new) }
    ensures keeps { KeepsSeat (S.seat s.old) (S.seat s.new) (S.frame s.old) (S.frame s.new) }
{
    make_part(s, PartStep::Copy(index), note)
}

/// Stores the word that was copied in the next word of the frame that is owned, which is the
/// content word with this index. It never waits and takes no memory.
pub fn store<S: Stepper>(s: &mut S, index: u64, note: u64)
    requires may { MayMake (Store index) note (S.seat s.old).hand }
    requires reserved { 0 < (S.seat s.old).room }
    ensures step { MakesPart (Store index) note (S.seat s.old) (S.seat s.new) }
    ensures held { (S.seat s.new).hand.topics ≡ holding_stored (S.seat s.old).hand.topics }
    ensures writes { StoresWhereMade index note (S.seat s.old) (S.seat s.new) }
    ensures keeps { KeepsSeat (S.seat s.old) (S.seat s.new) (S.frame s.old) (S.frame s.new) }
{
    let _ = make_part(s, PartStep::Store(index), note);
}

/// Gives the frame back that is owned, out of which the page was moved: its bit is set in the
/// map of frames. It never waits and takes no memory.
pub fn frame_give<S: Stepper>(s: &mut S, note: u64)
    requires may { MayMake GiveFrame note (S.seat s.old).hand }
    requires reserved { 0 < (S.seat s.old).room }
    ensures step { MakesPart GiveFrame note (S.seat s.old) (S.seat s.new) }
    ensures held { (S.seat s.new).hand.topics ≡ holding_no_frame (S.seat s.old).hand.topics }
    ensures frees { FreesWhereMade note (S.seat s.old) (S.seat s.new) }
    ensures keeps { KeepsSeat (S.seat s.old) (S.seat s.new) (S.frame s.old) (S.frame s.new) }
{
    let _ = make_part(s, PartStep::GiveFrame, note);
}
