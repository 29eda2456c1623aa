//! The row of a turn, as it stands before the turn is made.
ghost use Rattle.std.specs.Prelude.{◌≡◌, ◌<◌, length, true};
ghost use Rattle.core_views.specs.Sizes.{AreSizes};
ghost use Rattle.mmu_core.specs.machine.Enabled.{Enabled, mmu};
ghost use Rattle.mmu_core.specs.machine.Machine.{hand_in};
ghost use Rattle.mmu_core.specs.machine.Steps.{has_line};
ghost use Rattle.spte_words.specs.Areas.{IsWordMap};
ghost use Rattle.step_seats.specs.Machines.{world_in};
ghost use Rattle.step_seats.specs.Moves.{step_by};
ghost use Rattle.step_text.specs.Endings.{ending_text};
ghost use Rattle.step_printing.specs.Rows.{cause_text, is_on_entry, place_in, role_of, role_shown, row_of};

use core_views::{Cause, Sizes, StepKind};
use part_steps::map_of;
use spte_words::{Area, ENTRIES, WordMap};
use step_seats::{MachineOwner, PlainMachine, next_kind, rests};
use step_text::{Ending, Row, WordPlace, place_of};

/// The place of a word, and that of the first one where there is no such word.
pub fn place_in(map: &WordMap, word: u32) -> WordPlace
    requires { IsWordMap map.now }
    ensures { result ≡ place_in map.now word }
{
    if word < map.total() {
        return place_of(map, word);
    }
    WordPlace {
        area: Area::Root,
        index: 0,
    }
}

// Whether a step of this kind is on an entry of a table.
fn is_on_entry(code: u8) -> bool
    ensures { result ≡ is_on_entry code }
{
    code == StepKind::Walk.code()
        || code == StepKind::Swap.code()
        || code == StepKind::Zap.code()
        || code == StepKind::Protect.code()
}

// The role of the pool page that this word is in, and 0 where it is in none.
fn role_of(machine: &PlainMachine, sizes: &Sizes, at: WordPlace) -> u64
    requires { AreSizes sizes.now }
    ensures { result ≡ role_of sizes.now (world_in machine.now) at }
{
    let page = at.index as u64 / ENTRIES;
    if at.area.number() != Area::Pool.number() || page >= sizes.pool {
        return 0;
    }
    machine.word(map_of(sizes).word_of(Area::Role, page))
}

// The role that says what an entry's words mean.
fn role_shown(machine: &PlainMachine, sizes: &Sizes, code: u8, at: WordPlace) -> u64
    requires { AreSizes sizes.now }
    ensures { result ≡ role_shown sizes.now (world_in machine.now) code at }
{
    if is_on_entry(code) {
        role_of(machine, sizes, at)
    } else {
        0
    }
}

/// The row of the next turn of the actor at this place, which has a line left: the turn
/// has this number.
pub fn next_row(machine: &PlainMachine, sizes: &Sizes, index: usize, number: u64) -> Row
    requires there { index < length machine.now.hands }
    requires sizes { AreSizes sizes.now }
    requires left { has_line (hand_in mmu (world_in machine.now) index) ≡ true }
    ensures { (k : _) → Enabled (hand_in mmu (world_in machine.now) index) k → result ≡ row_of sizes.now number (world_in machine.now) (step_by index k) }
{
    let hand = machine.hand(index);
    rests(hand);
    let kind = next_kind(hand);
    let place = place_in(&map_of(sizes), kind.word);
    let found = machine.word(kind.word);
    Row {
        first: number,
        count: 1,
        actor: hand.progress().actor,
        code: kind.code,
        place,
        role: role_shown(machine, sizes, kind.code, place),
        found,
        left: kind.after(found),
    }
}

/// How a turn ends whose line begins anew for this cause.
pub fn anew<'a>(sizes: &Sizes, cause: Cause) -> Ending<'a>
    requires { AreSizes sizes.now }
    ensures { ending_text sizes.now result ≡ cause_text sizes.now cause }
{
    match cause {
        Cause::Open {
            count,
            start,
            end,
            ..
        } => Ending::Open { count, start, end },
        Cause::Moved { old, now } => Ending::Moved { old, now },
        Cause::Entry { word, read, seen } => Ending::Lost {
            place: place_in(&map_of(sizes), word),
            read,
            seen,
        },
    }
}
