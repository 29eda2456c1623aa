ghost use Rattle.std.specs.Prelude.{◌≡◌, ◌≤◌, ◌<◌, ◌+◌, ◌==◌, ◌^◌, [], ◌∷◌, length, false, if◌then◌else◌, OnOk, IfOk};
ghost use Rattle.std.specs.List.{position};
ghost use Rattle.trace_reader.specs.Lines.{parts_of, lines_of};
ghost use Rattle.trace_reader.specs.Reading.{with_header};
ghost use Rattle.trace_reader.specs.Steps.{NamesLine, IsBodyOf, trace_with};

use crate::body::Body;
use crate::line::line;
use crate::refusal::ReadError;
use core_views::Header;
use std::alloc::Global;

fn line_end(bytes: &[u8]) -> Option<usize>
    ensures { result ≡ position (λ b. b == 10) bytes.now }
{
    bytes.iter().position(|byte| *byte == b'\n')
}

/// How many bytes a line takes, its LF counts.
pub fn taken(text: &[u8], ended: bool) -> usize
    requires { length text.now < 2 ^ 40 }
    ensures { result ≡ length text.now + (if ended then 1 else 0) }
{
    if ended { text.len() + 1 } else { text.len() }
}

/// The bytes of the first line, whether LF ends it, and the bytes after it.
pub fn first_line(bytes: &[u8]) -> (&[u8], bool, &[u8])
    ensures parts { parts_of bytes.now ≡ result.0.now ∷ (if result.1 then parts_of result.2.now else []) }
    ensures ended { result.1 ≡ false → result.2.now ≡ [] }
    ensures length { length bytes.now ≡ length result.0.now + (if result.1 then 1 else 0) + length result.2.now }
{
    match line_end(bytes) {
        Some(at) => (&bytes[..at], true, &bytes[at + 1..]),
        None => (bytes, false, &[]),
    }
}

/// The lines of an input from line `number` on, in front of which `at` bytes
/// stand, the header among them.
pub fn lines(
    alloc: Global,
    header: &Header,
    number: u32,
    at: usize,
    bytes: &[u8],
) -> Result<Body, ReadError>
    requires words { header.now.words ≤ 8 }
    requires room { at + length bytes.now ≤ 16777217 }
    requires begun { at ≤ 16777216 }
    requires number { number ≤ at + 2 }
    ensures small { OnOk result (at + length bytes.now ≤ 16777216) }
    ensures read { NamesLine (trace_with header.now) result (with_header header.now (lines_of header.now number at false (parts_of bytes.now))) }
    ensures allowed { IfOk result (λ body. IsBodyOf header.now body) }
{
    let mut body = Body::new(alloc);
    let mut words = Vec::new(alloc);
    let mut number = number;
    let mut at = at;
    let mut rest = bytes;
    while !rest.is_empty() {
        let (text, ended, after) = first_line(rest);
        at += taken(text, ended);
        let go_seen = body.go.is_some();
        let found = line(alloc, &mut words, header, go_seen, number, at, ended, text)?;
        body.put(number, found)?;
        number += 1;
        rest = after;
    }
    Ok(body)
}
