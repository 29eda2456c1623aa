//! The lock alone, as the steps of a line take it and give it back: what is in their way is told.
ghost use Rattle.std.specs.Prelude.{◌≡◌, ◌<◌};
ghost use Rattle.mmu_core.specs.machine.MayMake.{MayMake};
ghost use Rattle.part_steps.specs.declared.part_step.PartStep.TheVariants.{Exclude, Release};
ghost use Rattle.step_seats.specs.Moves.{KeepsSeat};
ghost use Rattle.step_seats.specs.PartTurns.{MadeTelling};

use crate::lock::{try_exclusive, unlock};
use core_views::Seen;
use part_steps::map_of;
use spte_words::Area;
use step_seats::{Stepper, part_rests, saw_open};

/// Tries to hold the lock alone, and says what is in the way: the lock's word, where it isn't 0.
/// It takes no memory.
pub fn exclude<S: Stepper>(s: &mut S, note: u64) -> Option<Seen>
    requires may { MayMake Exclude note (S.seat s.old).hand }
    requires reserved { 0 < (S.seat s.old).room }
    ensures makes { MadeTelling result Exclude note (S.seat s.old) (S.seat s.new) }
    ensures keeps { KeepsSeat (S.seat s.old) (S.seat s.new) (S.frame s.old) (S.frame s.new) }
{
    part_rests(s.hand());
    let word = map_of(&s.hand().progress().sizes).word_of(Area::Lock, 0);
    try_exclusive(s, note).in_way(word)
}

/// Gives the lock back that the actor has, and says what is in the way: how many invalidations
/// are open, where the actor saw under this lock that there are others than its own. It takes no
/// memory.
pub fn release<S: Stepper>(s: &mut S, note: u64) -> Option<Seen>
    requires may { MayMake Release note (S.seat s.old).hand }
    requires reserved { 0 < (S.seat s.old).room }
    ensures makes { MadeTelling result Release note (S.seat s.old) (S.seat s.new) }
    ensures keeps { KeepsSeat (S.seat s.old) (S.seat s.new) (S.frame s.old) (S.frame s.new) }
{
    let hand = s.hand();
    part_rests(hand);
    let word = map_of(&hand.progress().sizes).word_of_count(0);
    let value = hand.topics().invalidations.count;
    let waits = saw_open(&hand.topics().invalidations);
    unlock(s, note);
    if waits {
        Some(Seen { word, value })
    } else {
        None
    }
}
