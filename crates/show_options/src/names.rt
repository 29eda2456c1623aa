//! What single words name.
ghost use Rattle.std.specs.Prelude.{◌≡◌, ◌≤◌, Some, true};
ghost use Rattle.std.specs.List.{list_all};
ghost use Rattle.trace_reader.specs.Items.{kind_number};
ghost use Rattle.trace_reader.specs.Numbers.{decimal_number, if_small, is_digit, value};
ghost use Rattle.show_options.specs.Names.{actor_named as named, bound_named as bound_of, numbered};

use crate::asked::Bound;
use core_views::Actor;
use trace_reader::kind_name;

fn are_digits(digits: &[u8]) -> bool
    ensures { result ≡ list_all is_digit digits.now }
{
    digits.iter().all(|byte| byte.is_ascii_digit())
}

// The number that the digits write, below 2^64.
fn value_of(digits: &[u8]) -> Option<u64>
    requires { list_all is_digit digits.now ≡ true }
    ensures { result ≡ if_small (value 10 digits.now) }
{
    let mut total: u64 = 0;
    let mut rest = digits;
    while let [byte, after @ ..] = rest {
        total = total.checked_mul(10)?.checked_add((*byte - b'0') as u64)?;
        rest = after;
    }
    Some(total)
}

/// The number that a word spells in decimal.
pub fn decimal(digits: &[u8]) -> Option<u64>
    ensures { result ≡ decimal_number digits.now }
{
    let canonical = match digits {
        [] => false,
        [_] => true,
        [first, ..] => *first != b'0',
    };
    if canonical && are_digits(digits) {
        value_of(digits)
    } else {
        None
    }
}

// The actor with this number, of those that the letter begins.
fn numbered(letter: u8, number: u64) -> Option<Actor>
    ensures { result ≡ numbered letter (Some number) }
{
    if letter == b'v' && number <= 15 {
        Some(Actor::Vcpu(number as u8))
    } else if letter == b'h' && number <= 3 {
        Some(Actor::Host(number as u8))
    } else if letter == b'w' && number <= 3 {
        Some(Actor::Worker(number as u8))
    } else {
        None
    }
}

/// The actor that a word names, of those that a trace may have.
pub fn actor_named(word: &str) -> Option<Actor>
    ensures { result ≡ named word.now }
{
    if word == "vm" {
        return Some(Actor::Manager);
    }
    match word.as_bytes() {
        [] => None,
        [letter, digits @ ..] => match decimal(digits) {
            Some(number) => numbered(*letter, number),
            None => None,
        },
    }
}

/// The number of the kind of step that a word names.
pub fn kind_named(word: &str) -> Option<u8>
    ensures { result ≡ kind_number word.now }
{
    for before in 0..41u8 {
        let code = before + 1;
        if word == kind_name(code) {
            return Some(code);
        }
    }
    None
}

/// The place in the order of turns that a word names: `go`, or a turn's number.
pub fn bound_named(word: &str) -> Option<Bound>
    ensures { result ≡ bound_of word.now }
{
    if word == "go" {
        return Some(Bound::Go);
    }
    match decimal(word.as_bytes()) {
        Some(number) if 1 <= number => Some(Bound::Turn(number)),
        _ => None,
    }
}
