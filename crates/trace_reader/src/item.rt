ghost use Rattle.std.specs.Prelude.{◌≡◌, ◌≤◌, ◌<◌, ◌==◌, IfOk, IfSome, length};
ghost use Rattle.core_views.specs.Sizes.{sizes_of};
ghost use Rattle.core_views.specs.Traces.{HasActor, IsItemOf, IsUntilInRange};
ghost use Rattle.trace_reader.specs.Numbers.{is_digit};
ghost use Rattle.trace_reader.specs.Items.{actor_said, begins, item_said, kind_name, kind_number, until_said};

use crate::Reason;
use crate::form::{index_of, is};
use crate::number::number;
use core_views::{Actor, Header, Item, Until};

/// The names of the kinds of step, in the order of their numbers, from 1.
const KINDS: [&str; 41] = [
    "enter", "leave", "walk", "read", "write", "add", "begin", "end", "control", "slot", "host",
    "bring", "swap", "mark", "share", "unshare", "exclude", "release", "claim", "fill", "give",
    "set", "zap", "ask", "await", "change", "copy", "frame", "unframe", "publish", "watch",
    "freeze", "child", "thaw", "reroot", "take", "protect", "pause", "page", "peek", "arm",
];

/// The number of the kind of step that the word names.
fn kind_of(word: &[u8]) -> Option<u8>
    ensures value { result ≡ kind_number word.now }
    ensures low { IfSome result (λ code. 1 ≤ code) }
    ensures high { IfSome result (λ code. code ≤ 41) }
{
    let names: [&str; 41] = KINDS;
    let mut rest = names.as_slice();
    let mut code = 1;
    while let [name, after @ ..] = rest {
        if is(word, name) {
            return Some(code);
        }
        code += 1;
        rest = after;
    }
    None
}

/// The name of the kind of step with this number, 1 to 41. A number of no kind gives
/// the empty text.
pub fn kind_name(code: u8) -> &'static str
    ensures { result.now ≡ kind_name code }
{
    let kinds: [&'static str; 41] = KINDS;
    let names = kinds.as_slice();
    if code == 0 || code > 41 {
        return "";
    }
    names[code as usize - 1]
}

fn begins_with(letter: u8, word: &[u8]) -> bool
    ensures { result ≡ begins (λ c. c == letter) word.now }
{
    match word {
        [] => false,
        [first, ..] => *first == letter,
    }
}

fn begins_with_digit(word: &[u8]) -> bool
    ensures { result ≡ begins is_digit word.now }
{
    match word {
        [] => false,
        [first, ..] => first.is_ascii_digit(),
    }
}

/// Until when the turns of an item go on, by its last word.
#[tactic(auto, unfolding(crate::specs::Items::until_said))]
fn until_of(word: &[u8]) -> Result<Until, Reason>
    ensures value { result ≡ until_said word.now }
    ensures allowed { IfOk result (λ u. IsUntilInRange u) }
{
    if begins_with_digit(word) {
        return match number(word) {
            Some(count) if 1 <= count && count <= 10_000_000 => Ok(Until::Turns(count as u32)),
            _ => Err(Reason::Number),
        };
    }
    if is(word, "end") {
        return Ok(Until::Answered);
    }
    match kind_of(word) {
        Some(code) => Ok(Until::Made(code)),
        None => Err(Reason::Word),
    }
}

/// The actor that the word names.
#[tactic(auto, unfolding(crate::specs::Items::actor_said))]
fn actor_of(header: &Header, word: &[u8]) -> Result<Actor, Reason>
    ensures value { result ≡ actor_said header.now word.now }
    ensures allowed { IfOk result (λ a. HasActor (sizes_of header.now) a) }
{
    if is(word, "vm") {
        return Ok(Actor::Manager);
    }
    if begins_with(b'v', word) {
        let index = index_of(b'v', 15, header.vcpus as u64, word)?;
        return Ok(Actor::Vcpu(index));
    }
    if begins_with(b'h', word) {
        let index = index_of(b'h', 3, header.hosts.as_slice().len() as u64, word)?;
        return Ok(Actor::Host(index));
    }
    let index = index_of(b'w', 3, header.workers as u64, word)?;
    Ok(Actor::Worker(index))
}

/// The item of these two words, behind `>`.
#[tactic(auto, unfolding(crate::specs::Items::item_said))]
pub fn item_of(header: &Header, who: &[u8], last: &[u8]) -> Result<Item, Reason>
    ensures value { result ≡ item_said header.now who.now last.now }
    ensures allowed { IfOk result (λ item. IsItemOf header.now item) }
{
    match until_of(last) {
        Ok(until) => {
            let actor = actor_of(header, who)?;
            Ok(Item { actor, until })
        }
        Err(Reason::Word) => Err(Reason::Word),
        Err(reason) => {
            actor_of(header, who)?;
            Err(reason)
        }
    }
}
