//! What the built program can't be run on: a source or a sink that fails, and no words at all. All its other runs are
//! cases (`examples/cases`).
use crate::program::run;
use std::alloc::Global;
use std::process::Abort;
use std::sync::Wait;
use std::test::Fail;
use std::thread::Threads;
use tdp_io::{MemSink, MemSource, NoGate};

const ONE_WRITE: &str =
    "tdp 1 vcpus 2 workers 1 pages 1024 frames 1040 words 1 pool 64 cache 64 manual 0 hosts 0\nvm slot 0 0 16 0\nv0 write 0x1000 7\nv1 read 0x1000\n";

// A trace without a header, and so a refused one.
const HEADLESS: &str = "vm slot 0 0 16 0\nv0 write 0x1000 1\n";

const USAGE: &str = "usage: tdpmmu check | replay | weave | live | gen N\n";

// What fails, if anything does.
#[derive(Clone, Copy, PartialEq, Drop)]
enum Failing {
    Nothing,
    FirstRead,
    FirstWrite,
}

// The number of the first read or write, if it fails.
fn numbers(alloc: Global, fails: bool) -> Result<Vec<u64>, Fail> {
    let mut numbers = Vec::new(alloc);
    if fails {
        numbers.push(0)?;
    }
    Ok(numbers)
}

// Whether the program, called with these words on this trace, ends with this status, and has printed this.
fn ends<R: Threads + Wait + Sync>(
    rt: &R,
    alloc: Global,
    failing: Failing,
    called: &[&str],
    trace: &str,
    code: u8,
    text: &str,
) -> Result<bool, Fail> {
    let mut words = Vec::new(alloc);
    for word in called {
        words.push(String::from_str(alloc, word)?)?;
    }
    let input = trace.as_bytes().to_vec(alloc)?;
    let mut src = MemSource::new(input, numbers(alloc, failing == Failing::FirstRead)?);
    let mut out = MemSink::new(alloc, numbers(alloc, failing == Failing::FirstWrite)?);
    let status = run(rt, alloc, &words, &mut src, &mut out, &NoGate);
    Ok(status.code() == code && out.bytes() == text.as_bytes())
}

fn all_end_so<R: Threads + Wait + Sync>(rt: &R, alloc: Global) -> Result<bool, Fail> {
    let replay = ["tdpmmu", "replay"].as_slice();
    let weave = ["tdpmmu", "weave"].as_slice();
    let live = ["tdpmmu", "live"].as_slice();
    Ok(
        ends(rt, alloc, Failing::Nothing, &[], ONE_WRITE, 2, USAGE)?
            && ends(rt, alloc, Failing::FirstRead, replay, ONE_WRITE, 4, "")?
            && ends(rt, alloc, Failing::FirstWrite, replay, ONE_WRITE, 5, "")?
            && ends(rt, alloc, Failing::FirstWrite, weave, ONE_WRITE, 5, "")?
            && ends(rt, alloc, Failing::FirstRead, live, ONE_WRITE, 4, "")?
            && ends(rt, alloc, Failing::FirstWrite, live, ONE_WRITE, 5, "")?
            && ends(rt, alloc, Failing::FirstWrite, weave, HEADLESS, 5, "")?,
    )
}

// Each of these is so.
fn expect<R: Abort>(rt: &R, is_so: Result<bool, Fail>) -> Result<(), Fail> {
    assert!(rt; is_so?);
    Ok(())
}

#[test]
fn says_which_end_failed(rt: HostRuntime) -> Result<(), Fail> {
    expect(&rt, all_end_so(&rt, rt.alloc()))
}
