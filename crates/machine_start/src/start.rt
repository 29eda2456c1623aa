//! The words and hands of a machine at its start.
ghost use Rattle.std.specs.Prelude.{◌≡◌, ◌+◌, ◌^◌, ◌<◌, ◌≤◌, IfOk, length};
ghost use Rattle.core_views.specs.Actors.{is_same};
ghost use Rattle.core_views.specs.Sizes.{AreSizes, actors_of, sizes_of};
ghost use Rattle.core_views.specs.Traces.{IsTrace};
ghost use Rattle.core_views.specs.Whole.{lines_of};
ghost use Rattle.part_steps.specs.Tasks.{map_of};
ghost use Rattle.mmu_core.specs.machine.Worlds.{AreStartWords, free_bits, least, start_hands, start_word};
ghost use Rattle.spte_words.specs.Areas.{size_of};
ghost use Rattle.hands.specs.Cores.{cores_of};

use core_views::{Actor, Line, NoMemory, Sizes};
use part_steps::map_of;
use part_twins::{Hand, SLOT_SET_ROLE};
use spte_words::{Area, HostWord};
use std::alloc::Global;

/// How many bits a word has.
const BITS: u64 = 64;

/// The pool pages that are in use: the root and the published slot set.
const USED_PAGES: u64 = 2;

/// The role of the root's page: a table of level 4.
const ROOT_ROLE: u64 = 4;

fn least(a: u64, b: u64) -> u64
    ensures { result ≡ least a b }
{
    if a <= b { a } else { b }
}

// The word in which the lowest `count` bits are set.
fn low_bits(count: u64) -> u64
    requires { count ≤ 64 }
    ensures { result + 1 ≡ 2 ^ count }
{
    if count == BITS {
        u64::MAX
    } else {
        (1 << count) - 1
    }
}

// Word `i` of a map of bits in which the bits from `first` up to `count` are set.
fn free_bits(first: u64, count: u64, i: u64) -> u64
    requires order { first ≤ count }
    requires small { i < 2 ^ 32 }
    ensures { result ≡ free_bits first count i }
{
    let before = BITS * i;
    let set = low_bits(least(BITS, count.saturating_sub(before)));
    let used = low_bits(least(BITS, first.saturating_sub(before)));
    set - used
}

// What the word of an area holds at the start.
fn start_word(sizes: &Sizes, area: Area, i: u64) -> u64
    requires sizes { AreSizes sizes.now }
    requires within { i < size_of (map_of sizes.now) area }
    ensures { result ≡ start_word sizes.now area i }
{
    match area {
        Area::Slots => 1,
        Area::PoolMap => free_bits(USED_PAGES, sizes.pool, i),
        Area::FrameMap => free_bits(sizes.pages, sizes.frames, i),
        Area::Host => HostWord::new(i, true, true, 1).word(),
        Area::Role if i == 0 => ROOT_ROLE,
        Area::Role if i == 1 => SLOT_SET_ROLE,
        _ => 0,
    }
}

/// The words of a machine of these sizes at its start.
pub fn start_words(alloc: Global, sizes: &Sizes) -> Result<Vec<u64>, NoMemory>
    requires { AreSizes sizes.now }
    ensures { IfOk result (λ v. AreStartWords sizes.now v.items) }
{
    let map = map_of(sizes);
    let mut words = Vec::with_capacity(alloc, map.total() as usize)?;
    for word in 0..map.total() {
        let (area, i) = map.area_of(word);
        words.push(start_word(sizes, area, i))?;
    }
    Ok(words)
}

fn is_same(actor: Actor, other: Actor) -> bool
    ensures { result ≡ is_same actor other }
{
    actor == other
}

// The lines of one actor, in their order.
fn lines_of(alloc: Global, actor: Actor, lines: &[Line]) -> Result<Vec<Line>, NoMemory>
    ensures { IfOk result (λ v. v.items ≡ lines_of actor lines.now) }
{
    let mut own = Vec::new(alloc);
    for line in lines {
        if is_same(actor, line.actor) {
            own.push(line.clone()?)?;
        }
    }
    Ok(own)
}

/// The hands of a machine of these sizes at its start, each with its actor's
/// lines.
pub fn start_hands(alloc: Global, sizes: &Sizes, lines: &[Line]) -> Result<Vec<Hand>, NoMemory>
    requires { AreSizes sizes.now }
    ensures { IfOk result (λ v. cores_of v.items ≡ start_hands sizes.now lines.now (actors_of sizes.now)) }
{
    let mut hands = Vec::new(alloc);
    for index in 0..sizes.actors() {
        let actor = sizes.actor_at(index);
        let own = lines_of(alloc, actor, lines)?;
        hands.push(Hand::new(alloc, *sizes, actor, own)?)?;
    }
    Ok(hands)
}
