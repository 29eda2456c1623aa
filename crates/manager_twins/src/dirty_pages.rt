//! The pages whose bits are set, in words of 64 bits each that were read of a dirty log.
ghost use Rattle.std.specs.Prelude.{◌≡◌, ◌<◌, ◌^◌, ◌-◌, None, Some, find, get_or, if◌then◌else◌, nat_lt};
ghost use Rattle.std.specs.List.{range_with_len};
ghost use Rattle.core_views.specs.LogCommands.{has_bit};

use core_views::WORD_PAGES;

// This one of the words, or one without a bit.
fn word_at(words: &[u64], at: u64) -> u64
    ensures { result ≡ get_or words.now at 0 }
{
    words.get(at as usize).copied().unwrap_or(0)
}

// The page, where it is one of so many.
fn below(count: u64, page: u64) -> Option<u64>
    ensures { result ≡ (if nat_lt page count then Some page else None) }
{
    if page < count { Some(page) } else { None }
}

/// The first page from this one on whose bit is set, of so many. Words without a bit are
/// passed at once.
pub(crate) fn first_dirty(words: &[u64], from: u64, count: u64) -> Option<u64>
    requires { from < 2 ^ 63 }
    ensures { result ≡ find (λ page. has_bit words.now page) (range_with_len from (count - from)) }
{
    let first = from / WORD_PAGES;
    let rest = word_at(words, first) >> (from % WORD_PAGES);
    if rest != 0 {
        return below(count, from + rest.trailing_zeros() as u64);
    }
    for at in first + 1..count.div_ceil(WORD_PAGES) {
        let word = word_at(words, at);
        if word != 0 {
            return below(count, WORD_PAGES * at + word.trailing_zeros() as u64);
        }
    }
    None
}
