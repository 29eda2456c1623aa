//! What is kept of a trace that no program shows as it stands: the sizes of its header, the numbers of its lines, how many of
//! these stand above `go`, and the number of each kind of step.
use core_views::{Actor, Command, Header, HostChange, Line, Op, RunChange, Trace};
use std::alloc::Global;
use tdp_io::MemSource;
use trace_reader::{Read, kind_name, read_trace};

// The trace that the text is.
fn read(alloc: Global, head: &str, lines: &str) -> Option<Trace> {
    let mut bytes = head.as_bytes().to_vec(alloc).ok()?;
    bytes.extend_from_slice(lines.as_bytes()).ok()?;
    let mut source = MemSource::new(bytes, Vec::new(alloc));
    match read_trace(alloc, &mut source) {
        Ok(Read::Trace(trace)) => Some(trace),
        _ => None,
    }
}

fn access(gfn: u64, word: u8, op: Op) -> (&'static str, [u64; 4]) {
    let word = word as u64;
    match op {
        Op::Read => ("read", [gfn, word, 0, 0]),
        Op::Write(value) => ("write", [gfn, word, value, 0]),
        Op::Add(value) => ("add", [gfn, word, value, 0]),
    }
}

fn change_name(change: HostChange) -> &'static str {
    match change {
        HostChange::Allow => "allow",
        HostChange::Protect => "protect",
        HostChange::Evict => "evict",
        HostChange::Move => "move",
    }
}

// A word for the command, and its numbers.
fn kept(command: &Command) -> (&'static str, [u64; 4]) {
    match command {
        Command::Access { gfn, word, op } => access(*gfn, *word, *op),
        Command::SetSlot { id, slot } => {
            let word = if slot.read_only { "slot ro" } else { "slot" };
            (word, [*id, slot.base, slot.pages, slot.host])
        }
        Command::DeleteSlot { id } => ("delete", [*id, 0, 0, 0]),
        Command::ChangeHost { page, change } => (change_name(*change), [*page, 0, 0, 0]),
        Command::ChangeRun { page, change } => match change {
            RunChange::Huge(level) => ("huge", [*page, *level as u64, 0, 0]),
            RunChange::Small => ("small", [*page, 0, 0, 0]),
        },
        Command::Split { gfn } => ("split", [*gfn, 0, 0, 0]),
        Command::SetLog { id, on: true } => ("logon", [*id, 0, 0, 0]),
        Command::SetLog { id, on: false } => ("logoff", [*id, 0, 0, 0]),
        Command::GetLog { id } => ("get", [*id, 0, 0, 0]),
        Command::ClearLog {
            id,
            first,
            count,
            ..
        } => ("clear", [*id, *first, *count, 0]),
        Command::Migrate { .. } => ("migrate", [0; 4]),
    }
}

/// The number of a line and its actor, what is kept of its command, and the words of a clear.
pub type Row = (u32, Actor, &'static str, [u64; 4], &'static [u64]);

fn is_kept(line: &Line, row: &Row) -> bool {
    let (number, actor, name, numbers, all) = *row;
    let (word, found) = kept(&line.command);
    let words = match &line.command {
        Command::ClearLog { words, .. } => words.as_slice(),
        _ => &[],
    };
    let is_line = line.number == number && line.actor == actor;
    is_line && word == name && found == numbers && words == all
}

// The header's numbers of 96 pages of four words.
fn has_sizes(header: &Header) -> bool {
    let has_actors = header.version == 1 && header.vcpus == 2 && header.workers == 0;
    let has_memory = header.pages == 96 && header.frames == 96 && header.words == 4;
    let has_others = header.pool == 64 && header.cache == 8 && header.manual == 2;
    has_actors && has_memory && has_others && header.hosts.as_slice() == [0, 32].as_slice()
}

const HEAD: &str =
    "tdp 1 vcpus 2 workers 0 pages 96 frames 0x60 words 4 pool 64 cache 8 manual 2 hosts 0 32\n";

fn are_kept(lines: &[Line], rows: &[Row]) -> bool {
    for (i, line) in lines.iter().enumerate() {
        match rows.get(i) {
            Some(row) if is_kept(line, row) => {}
            _ => return false,
        }
    }
    lines.len() == rows.len()
}

/// Whether these rows are what is kept of the trace.
pub fn is_read(alloc: Global, lines: &str, rows: &[Row]) -> bool {
    match read(alloc, HEAD, lines) {
        Some(trace) => has_sizes(&trace.header) && are_kept(trace.lines.as_slice(), rows),
        None => false,
    }
}

/// Lines of each form.
pub const TRACE: &str = "\
vm slot 0 0x10 32 64
v1 read 0x12018
v0 write 8 0xff

# c
v0 add 0 18446744073709551615
h1 allow 0x2a
h0 evict 7
h1 move 9
vm logon 0x20
vm logoff 5
h1 huge 0x200 0x3
h0 small 9
h0 huge 5 2
";

/// What is kept of it.
pub const KEPT: [Row; 12] = [
    (2, Actor::Manager, "slot", [0, 16, 32, 64], &[]),
    (3, Actor::Vcpu(1), "read", [18, 3, 0, 0], &[]),
    (4, Actor::Vcpu(0), "write", [0, 1, 255, 0], &[]),
    (7, Actor::Vcpu(0), "add", [0, 0, u64::MAX, 0], &[]),
    (8, Actor::Host(1), "allow", [42, 0, 0, 0], &[]),
    (9, Actor::Host(0), "evict", [7, 0, 0, 0], &[]),
    (10, Actor::Host(1), "move", [9, 0, 0, 0], &[]),
    (11, Actor::Manager, "logon", [32, 0, 0, 0], &[]),
    (12, Actor::Manager, "logoff", [5, 0, 0, 0], &[]),
    (13, Actor::Host(1), "huge", [512, 3, 0, 0], &[]),
    (14, Actor::Host(0), "small", [9, 0, 0, 0], &[]),
    (15, Actor::Host(0), "huge", [5, 2, 0, 0], &[]),
];

/// Of a deletion the ID alone is kept.
pub const DELETIONS: &str = "\
vm slot 0 0x10 32 64
vm slot 0 0 0 0
vm slot 0x28 0x5 0x0 0x40 ro
vm slot 0 0x10 32 64
";

/// What is kept of it.
pub const KEPT_DELETIONS: [Row; 4] = [
    (2, Actor::Manager, "slot", [0, 16, 32, 64], &[]),
    (3, Actor::Manager, "delete", [0, 0, 0, 0], &[]),
    (4, Actor::Manager, "delete", [40, 0, 0, 0], &[]),
    (5, Actor::Manager, "slot", [0, 16, 32, 64], &[]),
];

/// Each has all its numbers, and a clear its words in their order.
pub const READINGS: &str = "\
vm get 7
vm clear 0x20 64 0x41 5 0xffffffffffffffff
vm clear 1 2 0
vm get 0x8
vm clear 18446744073709551615 3 4 6
";

/// What is kept of it.
pub const KEPT_READINGS: [Row; 5] = [
    (2, Actor::Manager, "get", [7, 0, 0, 0], &[]),
    (3, Actor::Manager, "clear", [32, 64, 65, 0], &[5, u64::MAX]),
    (4, Actor::Manager, "clear", [1, 2, 0, 0], &[]),
    (5, Actor::Manager, "get", [8, 0, 0, 0], &[]),
    (6, Actor::Manager, "clear", [u64::MAX, 3, 4, 0], &[6]),
];

const HEAD_OF_ITEMS: &str =
    "tdp 1 vcpus 2 workers 1 pages 96 frames 96 words 1 pool 64 cache 8 manual 0 hosts 0 32\n";

/// Whether it is kept where `go` stands.
pub fn keeps_where_go_stands(alloc: Global) -> bool {
    let rows: [(&str, usize, Option<u32>); 11] = [
        ("\n", 0, None),
        ("go\n", 0, Some(0)),
        ("go\nv0 read 0\n", 1, Some(0)),
        ("v0 read 0\ngo\n", 1, Some(1)),
        ("v0 read 0\n\n# go\ngo\nv1 read 0\n", 2, Some(1)),
        (
            "v0 read 0\n> v0 end\nv1 read 0\ngo\n> vm exclude\n",
            2,
            Some(2),
        ),
        (
            "v0 read 0\n> v1 3\n> w0 swap\ngo\n> h1 end\nv1 read 0\n> h0 host\n",
            2,
            Some(1),
        ),
        ("go\nvm slot 0 0 1 0\n", 1, Some(0)),
        ("vm slot 0 0 1 0\nvm slot 0 0 1 0\ngo\n", 2, Some(2)),
        ("vm slot 0 0 1 0\ngo\nvm slot 0 0 1 0\n", 2, Some(1)),
        (
            "vm slot 0 0 1 0\nvm slot 0 64 1 0\ngo\nvm slot 0 0 0 0\n",
            3,
            Some(2),
        ),
    ];
    for (lines, count, above) in rows {
        let is_placed = match read(alloc, HEAD_OF_ITEMS, lines) {
            Some(trace) => trace.lines.as_slice().len() == count && trace.go == above,
            None => false,
        };
        if !is_placed {
            return false;
        }
    }
    true
}

// The names of the kinds, in the order of their numbers, which begin with 1.
const KINDS: &str =
    "enter leave walk read write add begin end control slot host bring swap mark share unshare exclude release \
claim fill give set zap ask await change copy frame unframe publish watch freeze child thaw reroot take protect pause page peek arm";

/// Whether these are the names of the kinds.
pub fn knows_each_kind() -> bool {
    let mut code = 0u8;
    for name in KINDS.split(' ') {
        code = code.saturating_add(1);
        if kind_name(code) != name {
            return false;
        }
    }
    code == 41
}
