//! Weaves with few turns in rounds: how many steps a schedule leaves of a line. The built program has ten million of
//! them, so these are no cases of its own.
use std::alloc::Global;
use std::process::Abort;
use std::test::Fail;
use tdp_io::{MemSink, MemSource};
use trace_reader::{Read, read_trace};
use weave_engine::{How, weave};

// A case is the lines of a trace below this header, and then one or more times `==`, how many turns in rounds there are, and
// what is printed. A line `--` ends it. Where a line reads `;` another one begins behind it. Of a write below `go` each case
// says that it is answered where just as many turns are left as it needs, and not with one less.
const HEADER: &str =
    "tdp 1 vcpus 2 workers 1 pages 1024 frames 1040 words 1 pool 64 cache 64 manual 0 hosts 0\n";

// A cold access makes 1,581 steps: a stay that finds no entry (5), a fault that
// looks up slot and host page (8), shares and checks (4), walks four levels,
// claims, fills and links three tables (516 each), puts the leaf (3), and the stay
// that touches (9). Each kind of step is named that an item may end with, and is made first by the
// 1st turn, the 2nd, 4th, 5th, 6th, 9th, 13th, 14th, 20th, 21st, 534th, 1571st and 1580th.
//
// Where the page is absent the fault brings it in after it has looked at it: that is
// one step more, after the 13th.
//
// A write that meets a leaf of a read-only slot makes 28 steps: a stay that finds the leaf (8), a fast fault, which
// looks up slot and leaf, and doesn't allow the write (12), and a fault that finds the slot again (8).
//
// Where the host forbids the write instead, the fault looks at the host word, too: 29 steps.
//
// Without turns in rounds: a host line makes six steps after its exchange, the end of its invalidation. Where a
// fault brings the page in before the exchange, that is lost, and one more comes before
// the six.
//
// Without turns in rounds: the first line that is open.
const CASES: &str = "\
vm slot 0 0 16 0; go; v0 write 0x1000 5; > v0 enter
== 1580; 2 vm done; 4 v0 frame 1 value 0
== 1579; 2 vm done; unfinished 4 v0
--
vm slot 0 0 16 0; go; v0 write 0x1000 5; > v0 control
== 1579; 2 vm done; 4 v0 frame 1 value 0
== 1578; 2 vm done; unfinished 4 v0
--
vm slot 0 0 16 0; go; v0 write 0x1000 5; > v0 walk
== 1577; 2 vm done; 4 v0 frame 1 value 0
== 1576; 2 vm done; unfinished 4 v0
--
vm slot 0 0 16 0; go; v0 write 0x1000 5; > v0 leave
== 1576; 2 vm done; 4 v0 frame 1 value 0
== 1575; 2 vm done; unfinished 4 v0
--
vm slot 0 0 16 0; go; v0 write 0x1000 5; > v0 begin
== 1575; 2 vm done; 4 v0 frame 1 value 0
== 1574; 2 vm done; unfinished 4 v0
--
vm slot 0 0 16 0; go; v0 write 0x1000 5; > v0 slot
== 1572; 2 vm done; 4 v0 frame 1 value 0
== 1571; 2 vm done; unfinished 4 v0
--
vm slot 0 0 16 0; go; v0 write 0x1000 5; > v0 host
== 1568; 2 vm done; 4 v0 frame 1 value 0
== 1567; 2 vm done; unfinished 4 v0
--
vm slot 0 0 16 0; go; v0 write 0x1000 5; > v0 share
== 1567; 2 vm done; 4 v0 frame 1 value 0
== 1566; 2 vm done; unfinished 4 v0
--
vm slot 0 0 16 0; go; v0 write 0x1000 5; > v0 claim
== 1561; 2 vm done; 4 v0 frame 1 value 0
== 1560; 2 vm done; unfinished 4 v0
--
vm slot 0 0 16 0; go; v0 write 0x1000 5; > v0 fill
== 1560; 2 vm done; 4 v0 frame 1 value 0
== 1559; 2 vm done; unfinished 4 v0
--
vm slot 0 0 16 0; go; v0 write 0x1000 5; > v0 swap
== 1047; 2 vm done; 4 v0 frame 1 value 0
== 1046; 2 vm done; unfinished 4 v0
--
vm slot 0 0 16 0; go; v0 write 0x1000 5; > v0 unshare
== 10; 2 vm done; 4 v0 frame 1 value 0
== 9; 2 vm done; unfinished 4 v0
--
vm slot 0 0 16 0; go; v0 write 0x1000 5; > v0 write
== 1; 2 vm done; 4 v0 frame 1 value 0
== 0; 2 vm done; unfinished 4 v0
--
vm slot 0 0 16 0; h0 evict 1; go; v0 write 0x1000 5; > v0 host
== 1569; 2 vm done; 3 h0 done; 5 v0 frame 1 value 0
== 1568; 2 vm done; 3 h0 done; unfinished 5 v0
--
vm slot 0 0 16 0; h0 evict 1; go; v0 write 0x1000 5; > v0 bring
== 1568; 2 vm done; 3 h0 done; 5 v0 frame 1 value 0
== 1567; 2 vm done; 3 h0 done; unfinished 5 v0
--
vm slot 0 0 16 0; h0 evict 1; go; v0 write 0x1000 5; > v0 share
== 1567; 2 vm done; 3 h0 done; 5 v0 frame 1 value 0
== 1566; 2 vm done; 3 h0 done; unfinished 5 v0
--
vm slot 0 0 16 0; h0 evict 1; go; v0 write 0x1000 5; > v0 claim
== 1561; 2 vm done; 3 h0 done; 5 v0 frame 1 value 0
== 1560; 2 vm done; 3 h0 done; unfinished 5 v0
--
vm slot 0 0 16 0; h0 evict 1; go; v0 write 0x1000 5; > v0 write
== 1; 2 vm done; 3 h0 done; 5 v0 frame 1 value 0
== 0; 2 vm done; 3 h0 done; unfinished 5 v0
--
vm slot 0 0 16 0 ro; v1 read 0x1000; go; v0 write 0x1000 5; > v0 enter
== 27; 2 vm done; 3 v1 frame 1 value 0; 5 v0 mmio
== 26; 2 vm done; 3 v1 frame 1 value 0; unfinished 5 v0
--
vm slot 0 0 16 0 ro; v1 read 0x1000; go; v0 write 0x1000 5; > v0 control
== 26; 2 vm done; 3 v1 frame 1 value 0; 5 v0 mmio
== 25; 2 vm done; 3 v1 frame 1 value 0; unfinished 5 v0
--
vm slot 0 0 16 0 ro; v1 read 0x1000; go; v0 write 0x1000 5; > v0 walk
== 24; 2 vm done; 3 v1 frame 1 value 0; 5 v0 mmio
== 23; 2 vm done; 3 v1 frame 1 value 0; unfinished 5 v0
--
vm slot 0 0 16 0 ro; v1 read 0x1000; go; v0 write 0x1000 5; > v0 leave
== 20; 2 vm done; 3 v1 frame 1 value 0; 5 v0 mmio
== 19; 2 vm done; 3 v1 frame 1 value 0; unfinished 5 v0
--
vm slot 0 0 16 0 ro; v1 read 0x1000; go; v0 write 0x1000 5; > v0 begin
== 19; 2 vm done; 3 v1 frame 1 value 0; 5 v0 mmio
== 18; 2 vm done; 3 v1 frame 1 value 0; unfinished 5 v0
--
vm slot 0 0 16 0 ro; v1 read 0x1000; go; v0 write 0x1000 5; > v0 begin; > v0 control
== 18; 2 vm done; 3 v1 frame 1 value 0; 5 v0 mmio
== 17; 2 vm done; 3 v1 frame 1 value 0; unfinished 5 v0
--
vm slot 0 0 16 0 ro; v1 read 0x1000; go; v0 write 0x1000 5; > v0 slot
== 17; 2 vm done; 3 v1 frame 1 value 0; 5 v0 mmio
== 16; 2 vm done; 3 v1 frame 1 value 0; unfinished 5 v0
--
vm slot 0 0 16 0 ro; v1 read 0x1000; go; v0 write 0x1000 5; > v0 slot; > v0 control
== 13; 2 vm done; 3 v1 frame 1 value 0; 5 v0 mmio
== 12; 2 vm done; 3 v1 frame 1 value 0; unfinished 5 v0
--
vm slot 0 0 16 0 ro; v1 read 0x1000; go; v0 write 0x1000 5; > v0 slot; > v0 walk
== 12; 2 vm done; 3 v1 frame 1 value 0; 5 v0 mmio
== 11; 2 vm done; 3 v1 frame 1 value 0; unfinished 5 v0
--
vm slot 0 0 16 0 ro; v1 read 0x1000; go; v0 write 0x1000 5; > v0 slot; > v0 begin
== 7; 2 vm done; 3 v1 frame 1 value 0; 5 v0 mmio
== 6; 2 vm done; 3 v1 frame 1 value 0; unfinished 5 v0
--
vm slot 0 0 16 0 ro; v1 read 0x1000; go; v0 write 0x1000 5; > v0 begin; > v0 begin
== 7; 2 vm done; 3 v1 frame 1 value 0; 5 v0 mmio
== 6; 2 vm done; 3 v1 frame 1 value 0; unfinished 5 v0
--
vm slot 0 0 16 0 ro; v1 read 0x1000; go; v0 write 0x1000 5; > v0 begin; > v0 begin; > v0 control
== 6; 2 vm done; 3 v1 frame 1 value 0; 5 v0 mmio
== 5; 2 vm done; 3 v1 frame 1 value 0; unfinished 5 v0
--
vm slot 0 0 16 0 ro; v1 read 0x1000; go; v0 write 0x1000 5; > v0 begin; > v0 begin; > v0 slot
== 4; 2 vm done; 3 v1 frame 1 value 0; 5 v0 mmio
== 3; 2 vm done; 3 v1 frame 1 value 0; unfinished 5 v0
--
vm slot 0 0 16 0; h0 protect 1; v0 read 0x1000; go; v0 write 0x1000 5; > v0 leave
== 21; 2 vm done; 3 h0 done; 4 v0 frame 1 value 0; 6 v0 hostfault
== 20; 2 vm done; 3 h0 done; 4 v0 frame 1 value 0; unfinished 6 v0
--
vm slot 0 0 16 0; h0 protect 1; v0 read 0x1000; go; v0 write 0x1000 5; > v0 slot; > v0 walk
== 13; 2 vm done; 3 h0 done; 4 v0 frame 1 value 0; 6 v0 hostfault
== 12; 2 vm done; 3 h0 done; 4 v0 frame 1 value 0; unfinished 6 v0
--
vm slot 0 0 16 0; h0 protect 1; v0 read 0x1000; go; v0 write 0x1000 5; > v0 slot; > v0 begin
== 8; 2 vm done; 3 h0 done; 4 v0 frame 1 value 0; 6 v0 hostfault
== 7; 2 vm done; 3 h0 done; 4 v0 frame 1 value 0; unfinished 6 v0
--
vm slot 0 0 16 0; h0 protect 1; v0 read 0x1000; go; v0 write 0x1000 5; > v0 host
== 1; 2 vm done; 3 h0 done; 4 v0 frame 1 value 0; 6 v0 hostfault
== 0; 2 vm done; 3 h0 done; 4 v0 frame 1 value 0; unfinished 6 v0
--
vm slot 0 0 16 0; h0 evict 2; go; h0 evict 2; v0 read 0x2000; > h0 host; > v0 bring; > h0 change; > h0 6
== 0; 2 vm done; 3 h0 done; unfinished 5 h0
--
vm slot 0 0 16 0; h0 evict 2; go; h0 evict 2; v0 read 0x2000; > h0 host; > v0 bring; > h0 change; > h0 7
== 0; 2 vm done; 3 h0 done; 5 h0 done; unfinished 6 v0
--
vm slot 0 0 16 0; h0 evict 2; go; h0 evict 2; v0 read 0x2000; > v0 host; > h0 host; > h0 change; > h0 5
== 0; 2 vm done; 3 h0 done; unfinished 5 h0
--
vm slot 0 0 16 0; h0 evict 2; go; h0 evict 2; v0 read 0x2000; > v0 host; > h0 host; > h0 change; > h0 6
== 0; 2 vm done; 3 h0 done; 5 h0 done; unfinished 6 v0
--
vm slot 0 0 16 0; go; v0 read 0x0
== 0; 2 vm done; unfinished 4 v0
--
vm slot 0 0 16 0; go; v1 read 0x1000; v0 read 0x0
== 0; 2 vm done; unfinished 4 v1
--
vm slot 0 0 16 0; go; v1 read 0x1000; v0 read 0x0; > v1 end
== 0; 2 vm done; 4 v1 frame 1 value 0; unfinished 5 v0
--
vm slot 0 0 16 0; v0 read 0x0; go
== 0; 2 vm done; 3 v0 frame 0 value 0
--
";

// Whether a weave ended as the last line of this text says: with this line of this actor open, or else with none.
fn is_so(alloc: Global, ended: How, text: &str) -> Result<bool, Fail> {
    match (ended, text.split_once("unfinished ")) {
        (How::Done, None) => Ok(true),
        (How::Unfinished { actor, line }, Some((_, open))) => {
            Ok(format!(in alloc; "{line} {actor}\n")?.as_str() == open)
        }
        _ => Ok(false),
    }
}

// Whether a weave of the trace prints this within so many turns in rounds, and ends as it says.
fn ends(alloc: Global, lines: &str, limit: u64, text: &str) -> Result<bool, Fail> {
    let input = format!(in alloc; "{HEADER}{lines}")?
        .as_bytes()
        .to_vec(alloc)?;
    let mut src = MemSource::new(input, Vec::new(alloc));
    let Read::Trace(trace) = read_trace(alloc, &mut src)? else {
        return Ok(false);
    };
    let mut out = MemSink::new(alloc, Vec::new(alloc));
    let ran = weave(alloc, &trace, limit, &mut out)?;
    Ok(out.bytes() == text.as_bytes() && is_so(alloc, ran.how, text)?)
}

// Whether the part of a case, which follows `== `, is so.
fn part_is_so(alloc: Global, lines: &str, part: &str) -> Result<bool, Fail> {
    let (limit, text) = part.split_once('\n').unwrap_or((part, ""));
    match limit.parse::<u64>() {
        Ok(limit) => ends(alloc, lines, limit, text),
        Err(_) => Ok(false),
    }
}

// How many weaves of the table come out as they stand there, and the first one that doesn't.
fn first_other(alloc: Global, folded: &str) -> Result<(usize, String), Fail> {
    let table = folded.replace(alloc, "; ", "\n")?;
    let mut count = 0usize;
    for case in table.split("--\n") {
        let (lines, parts) = case.split_once("== ").unwrap_or((case, ""));
        for part in parts.split("== ") {
            if !part.is_empty() {
                if !part_is_so(alloc, lines, part)? {
                    return Ok((count, format!(in alloc; "{lines}== {part}")?));
                }
                count = count.saturating_add(1);
            }
        }
    }
    Ok((count, String::new(alloc)))
}

fn expect_all<R: Abort>(rt: &R, alloc: Global, table: &str, count: usize) -> Result<(), Fail> {
    let (found, other) = first_other(alloc, table)?;
    assert_eq!(rt; (found, other.as_str()), (count, ""));
    Ok(())
}

#[test]
fn leaves_the_steps_after_each_kind(rt: HostRuntime) -> Result<(), Fail> {
    expect_all(&rt, rt.alloc(), CASES, 78)
}
