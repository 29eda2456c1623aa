ghost use Rattle.std.specs.Prelude.{◌≡◌, ◌≤◌, ◌<◌, ◌^◌, IfOk, map};
ghost use Rattle.trace_reader.specs.Headers.{ranged, field, behind_version, mapped, are_sizes, sizes_of, rising, host_list, hosts_of, header_of};
ghost use Rattle.trace_reader.specs.Steps.{ReadsTo};

use crate::Reason;
use crate::form::is;
use crate::number::number;
use crate::refusal::ReadError;
use core_views::{Header, Words};
use std::alloc::Global;

/// The numbers of a header in front of its host threads.
#[derive(Clone, Copy, Drop)]
pub struct Sizes {
    pub vcpus: u8,
    pub workers: u8,
    pub pages: u64,
    pub frames: u64,
    pub words: u8,
    pub pool: u32,
    pub cache: u8,
    pub manual: u8,
}

#[tactic(auto, unfolding(crate::specs::Headers::ranged))]
fn number_between(low: u64, high: u64, word: &[u8]) -> Result<u64, Reason>
    ensures value { result ≡ ranged low high word.now }
    ensures low { IfOk result (λ n. low ≤ n) }
    ensures high { IfOk result (λ n. n ≤ high) }
{
    match number(word) {
        Some(number) if low <= number && number <= high => Ok(number),
        _ => Err(Reason::Header),
    }
}

#[tactic(auto, unfolding(crate::specs::Headers::field))]
fn field_of<'a, 'b>(
    name: &str,
    low: u64,
    high: u64,
    words: &'a [&'b [u8]],
) -> Result<(u64, &'a [&'b [u8]]), Reason>
    ensures value { mapped (λ x. (x.0, map (λ w. w.now) x.1.now)) result ≡ field name.now low high (map (λ w. w.now) words.now) }
    ensures low { IfOk result (λ x. low ≤ x.0) }
    ensures high { IfOk result (λ x. x.0 ≤ high) }
{
    match words {
        [label, word, rest @ ..] if is(label, name) => Ok((number_between(low, high, word)?, rest)),
        _ => Err(Reason::Header),
    }
}

#[tactic(auto, unfolding(crate::specs::Headers::behind_version))]
fn words_behind_version<'a, 'b>(words: &'a [&'b [u8]]) -> Result<&'a [&'b [u8]], Reason>
    ensures { mapped (λ x. map (λ w. w.now) x.now) result ≡ behind_version (map (λ w. w.now) words.now) }
{
    match words {
        [label, version, rest @ ..] if is(label, "tdp") && is(version, "1") => Ok(rest),
        _ => Err(Reason::Header),
    }
}

#[tactic(auto, unfolding(crate::specs::Headers::are_sizes))]
fn are_sizes_of(frames: u64, words: u64) -> bool
    ensures { result ≡ are_sizes frames words }
{
    if words != 1 && words != 2 && words != 4 && words != 8 {
        return false;
    }
    match frames.checked_mul(words) {
        Some(all) => all <= 8_388_608,
        None => false,
    }
}

/// The sizes, and the words after them.
#[tactic(auto, unfolding(crate::specs::Headers::sizes_of))]
fn read_sizes<'a, 'b>(words: &'a [&'b [u8]]) -> Result<(Sizes, &'a [&'b [u8]]), Reason>
    ensures value { mapped (λ x. (x.0, map (λ w. w.now) x.1.now)) result ≡ sizes_of (map (λ w. w.now) words.now) }
    ensures words { IfOk result (λ x. x.0.words ≤ 8) }
    ensures some { IfOk result (λ x. 1 ≤ x.0.pages) }
    ensures few { IfOk result (λ x. x.0.pages ≤ 1048576) }
{
    let rest = words_behind_version(words)?;
    let (vcpus, rest) = field_of("vcpus", 1, 16, rest)?;
    let (workers, rest) = field_of("workers", 0, 4, rest)?;
    let (pages, rest) = field_of("pages", 1, 1_048_576, rest)?;
    let (frames, rest) = field_of("frames", pages, 2_097_152, rest)?;
    let (words, rest) = field_of("words", 1, 8, rest)?;
    let (pool, rest) = field_of("pool", 4, 16_384, rest)?;
    let (cache, rest) = field_of("cache", 1, 64, rest)?;
    let (manual, rest) = field_of("manual", 0, 2, rest)?;
    if !are_sizes_of(frames, words) {
        return Err(Reason::Header);
    }
    let sizes = Sizes {
        vcpus: vcpus as u8,
        workers: workers as u8,
        pages,
        frames,
        words: words as u8,
        pool: pool as u32,
        cache: cache as u8,
        manual: manual as u8,
    };
    Ok((sizes, rest))
}

/// Strictly rising numbers up to `high`, one a word.
fn rising_of(alloc: Global, high: u64, words: &[&[u8]]) -> Result<Vec<u64>, ReadError>
    requires { high < 2 ^ 60 }
    ensures { ReadsTo 1 (λ v. v.items) result (rising 0 high (map (λ w. w.now) words.now)) }
{
    let mut hosts = Vec::new(alloc);
    let mut low = 0;
    let mut rest = words;
    while let [word, after @ ..] = rest {
        match number_between(low, high, word) {
            Ok(host) => {
                hosts.push(host)?;
                low = host + 1;
            }
            Err(reason) => return Err(ReadError::Refused { line: 1, reason }),
        }
        rest = after;
    }
    Ok(hosts)
}

#[tactic(auto, unfolding(crate::specs::Headers::host_list))]
fn host_list_of(alloc: Global, pages: u64, words: &[&[u8]]) -> Result<Vec<u64>, ReadError>
    requires some { 1 ≤ pages }
    requires few { pages < 2 ^ 60 }
    ensures { ReadsTo 1 (λ v. v.items) result (host_list pages (map (λ w. w.now) words.now)) }
{
    let refused = ReadError::Refused {
        line: 1,
        reason: Reason::Header,
    };
    match words {
        [first, more @ ..] if more.len() <= 3 => match number_between(0, 0, first) {
            Ok(_) => rising_of(alloc, pages - 1, words),
            Err(reason) => Err(ReadError::Refused { line: 1, reason }),
        },
        _ => Err(refused),
    }
}

#[tactic(auto, unfolding(crate::specs::Headers::hosts_of))]
fn hosts(alloc: Global, pages: u64, words: &[&[u8]]) -> Result<Vec<u64>, ReadError>
    requires some { 1 ≤ pages }
    requires few { pages < 2 ^ 60 }
    ensures { ReadsTo 1 (λ v. v.items) result (hosts_of pages (map (λ w. w.now) words.now)) }
{
    match words {
        [label, rest @ ..] if is(label, "hosts") => host_list_of(alloc, pages, rest),
        _ => Err(ReadError::Refused {
            line: 1,
            reason: Reason::Header,
        }),
    }
}

/// The header that the words spell.
#[tactic(auto, unfolding(crate::specs::Headers::header_of))]
pub fn header(alloc: Global, words: &[&[u8]]) -> Result<Header, ReadError>
    ensures value { ReadsTo 1 (λ h. h) result (header_of (map (λ w. w.now) words.now)) }
    ensures small { IfOk result (λ h. h.words ≤ 8) }
{
    let (sizes, rest) = match read_sizes(words) {
        Ok(found) => found,
        Err(reason) => return Err(ReadError::Refused { line: 1, reason }),
    };
    let hosts = hosts(alloc, sizes.pages, rest)?;
    Ok(Header {
        version: 1,
        vcpus: sizes.vcpus,
        workers: sizes.workers,
        pages: sizes.pages,
        frames: sizes.frames,
        words: sizes.words,
        pool: sizes.pool,
        cache: sizes.cache,
        manual: sizes.manual,
        hosts: Words::from_vec(hosts),
    })
}
