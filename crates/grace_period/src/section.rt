ghost use Rattle.std.specs.Prelude.{◌≡◌, ◌<◌};
ghost use Rattle.core_views.specs.declared.topics.Stay.TheVariants.{Outside, Section};
ghost use Rattle.grace_period.specs.Sections.{TellsItsBegin, TellsItsEnd};
ghost use Rattle.mmu_core.specs.machine.MayMake.{MayMake};
ghost use Rattle.part_steps.specs.StayTopics.{begun};
ghost use Rattle.part_steps.specs.declared.part_step.PartStep.TheVariants.{Begin, End};
ghost use Rattle.step_seats.specs.Moves.{KeepsSeat};
ghost use Rattle.step_seats.specs.PartTurns.{MakesPart};

use part_steps::PartStep;
use step_seats::{Stepper, make_part};

/// Begins a section: from now on no page is given back that the actor loads of
/// tables and slot sets. It holds none of them yet. The actor was outside.
pub fn begin<S: Stepper>(s: &mut S, note: u64)
    requires may { MayMake Begin note (S.seat s.old).hand }
    requires reserved { 0 < (S.seat s.old).room }
    ensures step { MakesPart Begin note (S.seat s.old) (S.seat s.new) }
    ensures begun { (S.seat s.new).hand.topics ≡ begun Section (S.seat s.old).hand.topics }
    ensures told { TellsItsBegin note (S.seat s.old) (S.seat s.new) }
    ensures keeps { KeepsSeat (S.seat s.old) (S.seat s.new) (S.frame s.old) (S.frame s.new) }
{
    let _ = make_part(s, PartStep::Begin, note);
}

/// Ends the section that the actor is in: it holds nothing of tables and slot
/// sets any more.
pub fn end<S: Stepper>(s: &mut S, note: u64)
    requires may { MayMake End note (S.seat s.old).hand }
    requires reserved { 0 < (S.seat s.old).room }
    ensures step { MakesPart End note (S.seat s.old) (S.seat s.new) }
    ensures ended { (S.seat s.new).hand.topics ≡ begun Outside (S.seat s.old).hand.topics }
    ensures told { TellsItsEnd note (S.seat s.old) (S.seat s.new) }
    ensures keeps { KeepsSeat (S.seat s.old) (S.seat s.new) (S.frame s.old) (S.frame s.new) }
{
    let _ = make_part(s, PartStep::End, note);
}
