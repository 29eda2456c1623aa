//! Turns in rounds, once the schedule is over, and the line that they come to.
ghost use Rattle.std.specs.Prelude.{◌≡◌, ◌<◌, length};
ghost use Rattle.std.specs.Option.{option_copied};
ghost use Rattle.step_seats.specs.Machines.{KeepsSizes, world_in};
ghost use Rattle.turn_loops.specs.Turned.{PrintsRun};
ghost use Rattle.turn_loops.specs.Marks.{Rounds};
ghost use Rattle.turn_loops.specs.Turning.{AreMarkedAfter};
ghost use Rattle.turn_loops.specs.Rounds.{IsNextPlace};
ghost use Rattle.turn_loops.specs.FirstOpen.{FirstOpen, earlier_of};
ghost use Rattle.turn_loops.specs.Weaves.{RunsAllRounds, RunsSomeRounds};

use crate::printer::Printer;
use crate::turning::Turned;
use core_views::Line;
use step_seats::MachineOwner;
use tdp_io::Stop;

// The place after this one, of so many, round the order.
fn next_place(index: usize, count: usize) -> usize
    requires { index < count }
    ensures { IsNextPlace count index result }
{
    if index + 1 == count { 0 } else { index + 1 }
}

/// Turns of all actors in their order, one each, round and round, those without a
/// line left out, until no line is left or `limit` turns were made.
pub fn run_rounds<M: MachineOwner, P: Printer<M>>(
    machine: &mut M,
    limit: u64,
    printer: &mut P,
) -> Result<(), Stop>
    requires ready { P.ready printer.old }
    ensures prints { PrintsRun P.prints P.stops (AreMarkedAfter Rounds (RunsAllRounds (M.machine machine.old).sizes limit))
        (AreMarkedAfter Rounds (RunsSomeRounds (M.machine machine.old).sizes limit)) (world_in (M.machine machine.old))
        (world_in (M.machine machine.new)) printer.old printer.new result }
    ensures same { KeepsSizes (M.machine machine.old) (M.machine machine.new) }
{
    printer.rounds()?;
    let count = machine.sizes().actors() as usize;
    let mut index = 0;
    let mut passed = 0;
    let mut made = 0;
    while passed < count && made < limit {
        let actor = index;
        index = next_place(index, count);
        match printer.turn(machine, actor)? {
            Turned::NoLine => passed += 1,
            Turned::Went | Turned::Stopped => {
                passed = 0;
                made += 1;
            }
        }
    }
    Ok(())
}

/// The first line of the file that has no answer.
pub fn first_open<M: MachineOwner>(machine: &M) -> Option<&Line>
    ensures { FirstOpen (M.machine machine.now).sizes (world_in (M.machine machine.now)) (option_copied result) }
{
    let mut first: Option<&Line> = None;
    for index in 0..machine.sizes().actors() as usize {
        first = earlier(first, machine.hand(index).next_line());
    }
    first
}

// The line that stands first in the file, of those that there are.
fn earlier<'a>(first: Option<&'a Line>, next: Option<&'a Line>) -> Option<&'a Line>
    ensures { option_copied result ≡ earlier_of (option_copied first.entry) (option_copied next.entry) }
{
    match (first, next) {
        (Some(line), Some(other)) if other.number < line.number => Some(other),
        (None, other) => other,
        (line, _) => line,
    }
}
