ghost use Rattle.std.specs.Prelude.{◌≡◌, ◌≤◌, ◌==◌, ℕ, map, IfOk, IfSome, OnOk, IfNone};
ghost use Rattle.std.specs.List.{list_all, position};
ghost use Rattle.trace_reader.specs.Forms.{words_of};
ghost use Rattle.trace_reader.specs.Sayings.{IsSayingOf, said as said_of};
ghost use Rattle.trace_reader.specs.Lines.{is_plain, is_skipped as is_skipped_line, fault_of, content, line_of};
ghost use Rattle.trace_reader.specs.Steps.{ReadsTo};

use crate::Reason;
use crate::refusal::ReadError;
use crate::saying::{Saying, words_said};
use core_views::Header;
use std::alloc::{AllocError, Global};

/// The longest input that is read.
const SIZE: usize = 16_777_216;

/// The last number that a line may have.
const LINES: u32 = 1_000_000;

/// The longest line, its LF not counted.
const LONG: usize = 65_536;

fn is_plain_byte(byte: u8) -> bool
    ensures { result ≡ is_plain byte }
{
    matches!(byte, 0x20..=0x7e)
}

fn are_plain(bytes: &[u8]) -> bool
    ensures { result ≡ list_all is_plain bytes.now }
{
    bytes.iter().all(|byte| is_plain_byte(*byte))
}

/// The first check that a line fails before its words are looked at.
#[tactic(auto, unfolding(crate::specs::Lines::fault_of))]
pub fn fault(number: u32, end: usize, ended: bool, bytes: &[u8]) -> Option<Reason>
    ensures small { IfNone result (end ≤ 16777216) }
    ensures value { result ≡ fault_of (record { number = number; end = end; ended_by_lf = ended; bytes = bytes.now }) }
{
    if end > SIZE {
        Some(Reason::Size)
    } else if number > LINES {
        Some(Reason::Lines)
    } else if !ended && !bytes.is_empty() {
        Some(Reason::Cut)
    } else if bytes.len() > LONG {
        Some(Reason::Long)
    } else if !are_plain(bytes) {
        Some(Reason::Byte)
    } else {
        None
    }
}

fn word_end(bytes: &[u8]) -> Option<usize>
    ensures { result ≡ position (λ b. b == 32) bytes.now }
{
    bytes.iter().position(|byte| *byte == b' ')
}

/// Puts the words of a line, what stands between its spaces, in place of those of the line before.
pub fn put_words<'a>(words: &mut Vec<&'a [u8]>, line: &'a [u8]) -> Result<(), AllocError>
    ensures { OnOk result (map (λ w. w.now) words.new.items ≡ words_of line.now) }
{
    words.clear();
    let mut rest = line;
    while let Some(end) = word_end(rest) {
        words.push(&rest[..end])?;
        rest = &rest[end + 1..];
    }
    words.push(rest)?;
    Ok(())
}

fn is_skipped(bytes: &[u8]) -> bool
    ensures { result ≡ is_skipped_line bytes.now }
{
    match bytes {
        [] => true,
        [first, ..] => *first == b'#',
    }
}

#[tactic(auto, unfolding(crate::specs::Sayings::said))]
fn said<'a>(
    alloc: Global,
    words: &mut Vec<&'a [u8]>,
    header: &Header,
    go_seen: bool,
    number: u32,
    bytes: &'a [u8],
) -> Result<Saying, ReadError>
    requires { header.now.words ≤ 8 }
    ensures read { ReadsTo number (λ s. s) result (said_of header.now go_seen bytes.now) }
    ensures allowed { IfOk result (λ s. IsSayingOf header.now s) }
{
    put_words(words, bytes)?;
    words_said(alloc, header, go_seen, number, words)
}

#[tactic(auto, unfolding(crate::specs::Lines::content))]
fn content_of<'a>(
    alloc: Global,
    words: &mut Vec<&'a [u8]>,
    header: &Header,
    go_seen: bool,
    number: u32,
    bytes: &'a [u8],
) -> Result<Option<Saying>, ReadError>
    requires { header.now.words ≤ 8 }
    ensures read { ReadsTo number (λ x. x) result (content header.now go_seen bytes.now) }
    ensures allowed { IfOk result (λ found. IfSome found (λ s. IsSayingOf header.now s)) }
{
    if is_skipped(bytes) {
        return Ok(None);
    }
    match said(alloc, words, header, go_seen, number, bytes) {
        Ok(says) => Ok(Some(says)),
        Err(error) => Err(error),
    }
}

/// What a line after the header says, if it is not skipped; `go_seen`: whether
/// `go` stands on a line before. `words` is room for its words.
#[tactic(auto, unfolding(crate::specs::Lines::line_of))]
pub fn line<'a>(
    alloc: Global,
    words: &mut Vec<&'a [u8]>,
    header: &Header,
    go_seen: bool,
    number: u32,
    end: usize,
    ended: bool,
    bytes: &'a [u8],
) -> Result<Option<Saying>, ReadError>
    requires { header.now.words ≤ 8 }
    ensures small { OnOk result (end ≤ 16777216) }
    ensures read { ReadsTo number (λ x. x) result
        (line_of header.now go_seen (record { number = number; end = end; ended_by_lf = ended; bytes = bytes.now })) }
    ensures allowed { IfOk result (λ found. IfSome found (λ s. IsSayingOf header.now s)) }
{
    if let Some(reason) = fault(number, end, ended, bytes) {
        return Err(ReadError::Refused {
            line: number,
            reason,
        });
    }
    content_of(alloc, words, header, go_seen, number, bytes)
}
