//! The turns of a schedule, item by item.
ghost use Rattle.std.specs.Prelude.{◌≡◌, ◌<◌, All, length, true};
ghost use Rattle.core_views.specs.declared.trace.Until.TheVariants.{Turns};
ghost use Rattle.core_views.specs.Sizes.{actors_of};
ghost use Rattle.mmu_core.specs.machine.Enabled.{mmu};
ghost use Rattle.mmu_core.specs.machine.Machine.{hand_in};
ghost use Rattle.mmu_core.specs.machine.Steps.{has_line};
ghost use Rattle.core_views.specs.Traces.{HasActor};
ghost use Rattle.step_seats.specs.Machines.{KeepsSizes, world_in};
ghost use Rattle.turn_loops.specs.Turned.{PrintsRun, next_code_in};
ghost use Rattle.turn_loops.specs.Turning.{AreMarked, AreMarkedAfter, IsOpenEnded, RunsBy, RunsBySoFar, RunsItem, RunsItemSoFar, RunsItems};
ghost use Rattle.turn_loops.specs.Turning.{RunsItemsSoFar, names_kind};
ghost use Rattle.turn_loops.specs.Marks.{Begins};

use crate::printer::Printer;
use crate::turning::{Turned, next_code};
use core_views::{Item, Until};
use step_seats::MachineOwner;
use tdp_io::Stop;

// So many turns of the actor, or as many as it has lines for.
fn run_turns<M: MachineOwner, P: Printer<M>>(
    machine: &mut M,
    index: usize,
    count: u32,
    printer: &mut P,
) -> Result<(), Stop>
    requires there { index < length (M.machine machine.old).hands }
    requires ready { P.ready printer.old }
    ensures prints { PrintsRun P.prints P.stops (AreMarked (RunsBy (Turns count) index)) (AreMarked (RunsBySoFar (Turns count) index))
        (world_in (M.machine machine.old)) (world_in (M.machine machine.new)) printer.old printer.new result }
    ensures same { KeepsSizes (M.machine machine.old) (M.machine machine.new) }
{
    for _made in 0..count {
        match printer.turn(machine, index)? {
            Turned::NoLine => return Ok(()),
            Turned::Went | Turned::Stopped => {}
        }
    }
    Ok(())
}

// Whether the item names the kind of step that the actor makes next, if it makes one.
fn is_named<M: MachineOwner>(machine: &M, index: usize, until: Until) -> bool
    requires there { index < length (M.machine machine.now).hands }
    ensures { has_line (hand_in mmu (world_in (M.machine machine.now)) index) ≡ true
        → result ≡ names_kind until (next_code_in (hand_in mmu (world_in (M.machine machine.now)) index)) }
{
    match until {
        Until::Made(code) => next_code(machine, index) == code,
        Until::Turns(_) | Until::Answered => false,
    }
}

// Turns of the actor until one ends the item, which names no count.
fn run_until<M: MachineOwner, P: Printer<M>>(
    machine: &mut M,
    index: usize,
    until: Until,
    printer: &mut P,
) -> Result<(), Stop>
    requires there { index < length (M.machine machine.old).hands }
    requires until { IsOpenEnded until }
    requires ready { P.ready printer.old }
    ensures prints { PrintsRun P.prints P.stops (AreMarked (RunsBy until index)) (AreMarked (RunsBySoFar until index))
        (world_in (M.machine machine.old)) (world_in (M.machine machine.new)) printer.old printer.new result }
    ensures same { KeepsSizes (M.machine machine.old) (M.machine machine.new) }
{
    loop {
        let _ = machine.sizes();
        let named = is_named(machine, index, until);
        match printer.turn(machine, index)? {
            Turned::NoLine | Turned::Stopped => return Ok(()),
            Turned::Went if named => return Ok(()),
            Turned::Went => {}
        }
    }
}

// The turns of one item.
fn run_item<M: MachineOwner, P: Printer<M>>(
    machine: &mut M,
    item: &Item,
    printer: &mut P,
) -> Result<(), Stop>
    requires actor { HasActor (M.machine machine.old).sizes item.now.actor }
    requires ready { P.ready printer.old }
    ensures prints { PrintsRun P.prints P.stops (AreMarkedAfter (Begins item.now) (RunsItem (M.machine machine.old).sizes item.now))
        (AreMarkedAfter (Begins item.now) (RunsItemSoFar (M.machine machine.old).sizes item.now)) (world_in (M.machine machine.old))
        (world_in (M.machine machine.new)) printer.old printer.new result }
    ensures same { KeepsSizes (M.machine machine.old) (M.machine machine.new) }
{
    printer.item(item)?;
    let index = machine.sizes().index_of(item.actor) as usize;
    match item.until {
        Until::Turns(count) => run_turns(machine, index, count, printer),
        until => run_until(machine, index, until, printer),
    }
}

/// The turns of all items, one item after another.
pub fn run_items<M: MachineOwner, P: Printer<M>>(
    machine: &mut M,
    items: &[Item],
    printer: &mut P,
) -> Result<(), Stop>
    requires actors { All (λ item. HasActor (M.machine machine.old).sizes item.actor) items.now }
    requires ready { P.ready printer.old }
    ensures prints { PrintsRun P.prints P.stops (RunsItems (M.machine machine.old).sizes items.now)
        (RunsItemsSoFar (M.machine machine.old).sizes items.now) (world_in (M.machine machine.old))
        (world_in (M.machine machine.new)) printer.old printer.new result }
    ensures same { KeepsSizes (M.machine machine.old) (M.machine machine.new) }
{
    for item in items {
        run_item(machine, item, printer)?;
    }
    Ok(())
}
