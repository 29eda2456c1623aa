ghost use Rattle.std.specs.Prelude.{◌≡◌, ◌≤◌, ℕ, true};
ghost use Rattle.std.specs.List.{list_all};
ghost use Rattle.trace_reader.specs.Numbers.{is_digit, is_hex_digit, digit, value, if_small, decimal_number, hex_number, spelled_number};

fn is_hex_digit_byte(byte: u8) -> bool
    ensures { result ≡ is_hex_digit byte }
{
    matches!(byte, b'0'..=b'9' | b'a'..=b'f')
}

fn are_digits(digits: &[u8]) -> bool
    ensures { result ≡ list_all is_digit digits.now }
{
    digits.iter().all(|byte| byte.is_ascii_digit())
}

fn are_hex_digits(digits: &[u8]) -> bool
    ensures { result ≡ list_all is_hex_digit digits.now }
{
    digits.iter().all(|byte| is_hex_digit_byte(*byte))
}

fn digit_of(byte: u8) -> u8
    requires { is_hex_digit byte ≡ true }
    ensures value { result ≡ digit byte }
    ensures small { result ≤ 15 }
{
    if byte <= b'9' {
        byte - b'0'
    } else {
        byte - b'a' + 10
    }
}

fn value_of(radix: u64, digits: &[u8]) -> Option<u64>
    requires radix { 1 ≤ radix }
    requires digits { list_all is_hex_digit digits.now ≡ true }
    ensures { result ≡ if_small (value radix digits.now) }
{
    let mut total: u64 = 0;
    let mut rest = digits;
    while let [byte, after @ ..] = rest {
        total = total
            .checked_mul(radix)?
            .checked_add(digit_of(*byte) as u64)?;
        rest = after;
    }
    Some(total)
}

#[tactic(auto, using(crate::proofs::Values::digits_are_hex))]
pub fn decimal(digits: &[u8]) -> Option<u64>
    ensures { result ≡ decimal_number digits.now }
{
    let canonical = match digits {
        [] => false,
        [_] => true,
        [first, ..] => *first != b'0',
    };
    if canonical && are_digits(digits) {
        value_of(10, digits)
    } else {
        None
    }
}

fn hexadecimal(digits: &[u8]) -> Option<u64>
    ensures { result ≡ hex_number digits.now }
{
    if !digits.is_empty() && digits.len() < 17 && are_hex_digits(digits) {
        value_of(16, digits)
    } else {
        None
    }
}

/// The number that a word spells.
pub fn number(word: &[u8]) -> Option<u64>
    ensures { result ≡ spelled_number word.now }
{
    match word {
        [b'0', b'x', digits @ ..] => hexadecimal(digits),
        digits => decimal(digits),
    }
}
