//! Host words and content words, at a machine.
ghost use Rattle.std.specs.Prelude.{◌≡◌, ◌<◌};
ghost use Rattle.core_views.specs.Sizes.{AreSizes};
ghost use Rattle.host_map.specs.Touching.{touch_kind};

use crate::{Acts, Came, HEAD_OF_POOL_8, all_that_come, go_to, is_next, make_steps};
use core_views::{Actor, HostLook, Kind, Op, Sizes, StepKind};
use host_map::{Changed, bring_in, change, load, look, touch};
use part_steps::{PartStep, map_of};
use std::alloc::Global;
use step_seats::{Hand, PlainMachine, Stepper, allows, next_kind, part_rests, rests};

// The operation on a word of a frame, as the words of the machine see it.
fn touch_kind(sizes: &Sizes, frame: u64, word: u8, op: Op) -> Kind
    requires sizes { AreSizes sizes.now }
    requires frame { frame < sizes.now.frames }
    requires word { word < sizes.now.words }
    ensures { result ≡ touch_kind sizes.now frame word op 0 }
{
    let map = map_of(sizes);
    let (kind, new) = match op {
        Op::Read => (StepKind::Read, 0),
        Op::Write(number) => (StepKind::Write, number),
        Op::Add(number) => (StepKind::Add, number),
    };
    Kind {
        code: kind.code(),
        word: map.word_of_content(map.content_index(frame, word)),
        old: 0,
        new,
        note: 0,
    }
}

// Makes the steps of the seat's line until the next one is this operation, and
// makes it: a read by `load`, the others by `touch`.
fn touch_next<S: Stepper>(seat: &mut S, frame: u64, word: u8, op: Op) -> Came {
    for _ in 0..2000 {
        if seat.reserve().is_err() {
            return Came::no_memory();
        }
        let hand = seat.hand();
        if hand.next_line().is_none() {
            break;
        }
        rests(hand);
        part_rests(hand);
        let sizes = hand.progress().sizes;
        if frame >= sizes.frames || word as u64 >= sizes.words {
            break;
        }
        let kind = next_kind(hand);
        if kind == touch_kind(&sizes, frame, word, op) {
            let found = match op {
                Op::Read => load(seat, frame, word, 0),
                Op::Write(_) | Op::Add(_) => touch(seat, frame, word, op, 0),
            };
            return Came::one("found", found);
        }
        let _ = seat.act(kind);
    }
    Came::only("none is next")
}

fn exchanged(changed: Changed) -> Came {
    match changed {
        Changed::Set => Came::only("set"),
        Changed::Lost(word) => Came::one("lost", word),
    }
}

// Brings the page in that the seat has looked up, if that is the next step of its line.
fn bring_next<S: Stepper>(seat: &mut S) -> Came {
    if seat.reserve().is_err() {
        return Came::no_memory();
    }
    if is_next(seat.hand(), PartStep::Bring, 0) {
        exchanged(bring_in(seat, 0))
    } else {
        Came::only("not next")
    }
}

// Changes the host word that the seat has looked up to this one, if that is the next step of its
// line.
pub(crate) fn change_next<S: Stepper>(seat: &mut S, word: u64) -> Came {
    if seat.reserve().is_err() {
        return Came::no_memory();
    }
    if is_next(seat.hand(), PartStep::Change(word), 0) {
        exchanged(change(seat, word, 0))
    } else {
        Came::only("not next")
    }
}

// Looks at this host page, if it may: the word that is there.
fn look_at<S: Stepper>(seat: &mut S, page: u64) -> Came {
    if seat.reserve().is_err() {
        return Came::no_memory();
    }
    if !allows(seat.hand(), PartStep::Host(page), 0) {
        return Came::not_allowed();
    }
    Came::one("found", look(seat, page, 0))
}

// The host page that the hand has looked up, and the word that it holds of it.
fn held(hand: &Hand) -> Came {
    match hand.topics().host {
        Some(HostLook { page, word }) => Came::two("page, word", page, word),
        None => Came::only("none"),
    }
}

/// So many steps of the seat's lines, or those that are left.
pub(crate) fn run<S: Stepper>(seat: &mut S, most: u64) -> Came {
    match make_steps(seat, most) {
        Ok(_) => Came::only("ran"),
        Err(_) => Came::no_memory(),
    }
}

fn lead<S: Stepper>(seat: &mut S, step: PartStep) -> Came {
    match go_to(seat, step, 0) {
        Ok(()) => Came::only("led"),
        Err(_) => Came::no_memory(),
    }
}

// `run N`: so many steps of the actor's lines, or those that are left. `write N`, `add N` and `read`: the line's steps
// up to this touch of word 1 of frame 66, and what it found.
#[derive(Drop)]
struct Touches;

impl Acts for Touches {
    fn act(&mut self, machine: &mut PlainMachine, actor: Actor, word: &str, number: u64) -> Came {
        let mut seat = machine.as_actor(actor);
        match word {
            "run" => run(&mut seat, number),
            "write" => touch_next(&mut seat, 66, 1, Op::Write(number)),
            "add" => touch_next(&mut seat, 66, 1, Op::Add(number)),
            "read" => touch_next(&mut seat, 66, 1, Op::Read),
            _ => Came::unknown(),
        }
    }
}

// `run N` too. `look N`: a look at this host page. `lead-to-change N` and `lead-to-bring`: the line's steps up to this
// one. `change N`: the host word that was looked up is changed to this one. `bring`: its page is brought in. `held`:
// what the hand holds of the page that it has looked up.
#[derive(Drop)]
struct HostSteps;

impl Acts for HostSteps {
    fn act(&mut self, machine: &mut PlainMachine, actor: Actor, word: &str, number: u64) -> Came {
        let mut seat = machine.as_actor(actor);
        match word {
            "run" => run(&mut seat, number),
            "look" => look_at(&mut seat, number),
            "lead-to-change" => lead(&mut seat, PartStep::Change(number)),
            "lead-to-bring" => lead(&mut seat, PartStep::Bring),
            "change" => change_next(&mut seat, number),
            "bring" => bring_next(&mut seat),
            "held" => held(seat.hand()),
            _ => Came::unknown(),
        }
    }
}

// Each page is at the frame of its own number at first, present, writable and
// small: 4096 times the frame, and 7. There is no page 70.
const TABLE: &str = "\
==
v1 look 0: found 7
v1 held: page, word 0 7
v1 look 66: found 0x42007
v1 held: page, word 66 0x42007
v1 look 69: found 0x45007
v1 held: page, word 69 0x45007
v1 look 70: not allowed
--
vm slot 0 16 4 64
v0 read 0x12008
v1 read 0x12008
h0 evict 66
h0 allow 66
==
// The same slot, a read by each processor, and two lines of h0: the page of the reads is taken
// away, and writes to it are allowed. Its host word is 0x42007 where the page is present, and
// 0x42006 where it isn't.
vm run 524: ran
// The page is taken away, and looked at by h0 again and by both processors.
h0 lead-to-change 0x42006: led
h0 change 0x42006: set
h0 lead-to-change 0x42006: led
v1 lead-to-bring: led
v0 lead-to-bring: led
// The first one brings it in: the second one's exchange is lost.
v0 bring: set
v0 held: page, word 66 0x42007
v0 bring: not next
v0 held: page, word 66 0x42007
v1 bring: lost 0x42007
v1 held: page, word 66 0x42007
// So is that of h0, which tries again with the word that it found.
h0 change 0x42006: lost 0x42007
h0 change 0x42006: not next
h0 change 0x42007: set
// The host words begin at word 18.
machine word 84: 0x42007
machine words: 4452
";

/// How many rows of the table come out as they stand there.
pub fn rows(alloc: Global) -> usize {
    all_that_come(alloc, HEAD_OF_POOL_8, &mut HostSteps, TABLE)
}

// The manager sets slot 0, of which guest frames 16 to 19 are host pages 64 to 67. Three lines of v0 touch word 1 of
// guest frame 18, which is host page 66: a write, an add of -2 and a read. The write's line puts three tables and the
// leaf before. The contents begin at word 4192, with two words a frame.
const TOUCHES: &str = "\
vm slot 0 16 4 64
v0 write 0x12008 77
v0 add 0x12008 0xfffffffffffffffe
v0 read 0x12008
==
vm run 524: ran
v0 write 77: found 0
v0 add 0xfffffffffffffffe: found 77
v0 read: found 75
v0 read: none is next
machine zeros 4192: 133
machine word 4325: 75
machine zeros 4326: 126
machine words: 4452
";

/// The same of a table of touches.
pub fn touched_rows(alloc: Global) -> usize {
    all_that_come(alloc, HEAD_OF_POOL_8, &mut Touches, TOUCHES)
}
