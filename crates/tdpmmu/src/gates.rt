//! Gates that hold an actor's turn until another actor has come to one: workers of `live` run side by side, no line keeps the
//! turns of other actors out, and each turn passes the gate.
use crate::program::run;
use core_views::Actor;
use std::alloc::Global;
use std::process::Abort;
use std::sync::{Mutex, Wait};
use std::test::Fail;
use std::thread::Threads;
use tdp_io::{Gate, MemSink, MemSource};

// So many turns a gate holds a call at most.
const TURNS: u64 = 100_000_000;

// Two lines add to one word: v1's add is made and answered while v0's line is under way.
const CROSSING: &str = "\
tdp 1 vcpus 2 workers 1 pages 1024 frames 1040 words 1 pool 64 cache 64 manual 0 hosts 0
vm slot 0 0 16 0
go
v0 add 0x1000 5
v1 add 0x1000 6
v1 read 0x1000
v0 read 0x1000
";

const CROSSED: &str = "\
2 vm done
4 v0 frame 1 value 6
5 v1 frame 1 value 0
6 v1 frame 1 value 11
7 v0 frame 1 value 11
memory 0:1:0=11
";

// Four actors begin together.
const TOGETHER: &str = "\
tdp 1 vcpus 2 workers 1 pages 1024 frames 1040 words 1 pool 64 cache 64 manual 0 hosts 0
vm slot 0 0 16 0
vm logon 0
go
v0 read 0x0
v1 read 0x0
h0 allow 0
vm get 0
";

const ALL_TOGETHER: &str = "\
2 vm done
3 vm done
5 v0 frame 0 value 0
6 v1 frame 0 value 0
7 h0 done
8 vm bits 0x0
memory
";

// The second read makes four steps: into the guest, the pause, the word, and out of the guest.
const ONE_LINE: &str = "\
tdp 1 vcpus 2 workers 1 pages 1024 frames 1040 words 1 pool 64 cache 64 manual 0 hosts 0
vm slot 0 0 16 0
v0 read 0x1000
go
v0 read 0x1000
";

const ONE_ANSWER: &str = "\
2 vm done
3 v0 frame 1 value 0
5 v0 frame 1 value 0
memory
";

#[derive(Clone, Copy, Drop)]
enum Order {
    // v1's line 5 waits for v0's second turn of line 4, this turn for v1's line 6, and that line for v0's line 7.
    Crossing,
    // Each waits for all others.
    Together,
    // One actor makes four turns of line 5, and waits for nobody.
    Four,
}

// How often the actors have come to a turn, by the number of the line, and whether a gate gave up.
#[derive(Clone, Copy, Drop)]
struct Calls {
    made: [u64; 9],
    gave_up: bool,
}

impl Calls {
    fn come(&mut self, line: u32) {
        if let Some(count) = self.made.get_mut(line as usize) {
            *count = count.saturating_add(1);
        }
    }

    fn made(&self, line: usize) -> u64 {
        self.made.get(line).copied().unwrap_or(0)
    }

    // Whether a turn of this line may be made now.
    fn lets_go(&self, order: Order, line: u32) -> bool {
        match (order, line) {
            (Order::Crossing, 4) => self.made(4) != 2 || self.made(6) > 0,
            (Order::Crossing, 5) => self.made(4) >= 2,
            (Order::Crossing, 6) => self.made(7) > 0,
            (Order::Crossing | Order::Four, _) => true,
            (Order::Together, _) => self.have_come(order),
        }
    }

    // Whether all turns have come that the order is about.
    fn have_come(&self, order: Order) -> bool {
        match order {
            Order::Crossing => {
                self.made(4) > 2 && self.made(5) > 0 && self.made(6) > 0 && self.made(7) > 0
            }
            Order::Together => {
                self.made(5) > 0 && self.made(6) > 0 && self.made(7) > 0 && self.made(8) > 0
            }
            Order::Four => self.made(5) == 4,
        }
    }
}

#[derive(Drop)]
struct HoldingGate {
    order: Order,
    calls: Mutex<Calls>,
}

impl HoldingGate {
    fn new(order: Order) -> HoldingGate {
        let calls = Calls {
            made: [0; 9],
            gave_up: false,
        };
        HoldingGate {
            order,
            calls: Mutex::new(calls),
        }
    }

    // Whether all turns came to the gate that the order is about, and it let none go too early.
    fn kept_order<R: Wait>(&self, rt: &R) -> bool {
        let calls = *self.calls.lock(rt);
        !calls.gave_up && calls.have_come(self.order)
    }
}

impl Gate for HoldingGate {
    fn pass<R: Wait>(&self, rt: &R, _actor: Actor, line: u32) {
        self.calls.lock(rt).come(line);
        for _turn in 0..TURNS {
            if self.calls.lock(rt).lets_go(self.order, line) {
                return;
            }
        }
        self.calls.lock(rt).gave_up = true;
    }
}

// Whether a live run prints this where the gate holds its turns so, and they come in this order.
fn lives<R: Threads + Wait + Sync>(
    rt: &R,
    alloc: Global,
    order: Order,
    trace: &str,
    text: &str,
) -> Result<bool, Fail> {
    let mut words = Vec::new(alloc);
    words.push(String::from_str(alloc, "tdpmmu")?)?;
    words.push(String::from_str(alloc, "live")?)?;
    let mut src = MemSource::new(trace.as_bytes().to_vec(alloc)?, Vec::new(alloc));
    let mut out = MemSink::new(alloc, Vec::new(alloc));
    let gate = HoldingGate::new(order);
    let status = run(rt, alloc, &words, &mut src, &mut out, &gate);
    Ok(status.code() == 0 && out.bytes() == text.as_bytes() && gate.kept_order(rt))
}

fn expect<R: Abort>(rt: &R, is_so: Result<bool, Fail>) -> Result<(), Fail> {
    assert!(rt; is_so?);
    Ok(())
}

#[test]
fn lines_of_two_workers_cross(rt: HostRuntime) -> Result<(), Fail> {
    expect(
        &rt,
        lives(&rt, rt.alloc(), Order::Crossing, CROSSING, CROSSED),
    )
}

#[test]
fn each_turn_passes_the_gate(rt: HostRuntime) -> Result<(), Fail> {
    expect(
        &rt,
        lives(&rt, rt.alloc(), Order::Four, ONE_LINE, ONE_ANSWER),
    )
}

#[test]
fn all_workers_begin_together(rt: HostRuntime) -> Result<(), Fail> {
    expect(
        &rt,
        lives(&rt, rt.alloc(), Order::Together, TOGETHER, ALL_TOGETHER),
    )
}
