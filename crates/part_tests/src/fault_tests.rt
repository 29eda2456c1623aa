//! Faults of the accesses of two processors, beside a manager that sets slot 0: of guest frames 0 to 5, which are host pages 64
//! to 69, at frames 64 to 69. A host thread evicts the last page, or forbids writes to it, in the cases that make the steps of
//! its line.
use crate::turns::{fast_fault, go_to_fault, whole_fault};
use crate::{Acts, Came, HEAD_OF_POOL_8, all_that_come, make_steps};
use core_views::{Actor, FaultPlace};
use std::alloc::Global;
use step_seats::{PlainMachine, Stepper};

fn run<S: Stepper>(seat: &mut S, most: u64) -> Came {
    match make_steps(seat, most) {
        Ok(_) => Came::only("ran"),
        Err(_) => Came::no_memory(),
    }
}

// `run N`: so many steps of the actor's lines, or those that are left. `leave`: the steps of its lines up to the next whole fault.
// `fault`: the same, and then the turns of the job of this fault: what the last of them says, and how many they are. An access
// begins anew where a word was read so, and is seen so. `fault-to-link` and `fault-to-bring`: the same up to this place of it.
// `fast`: the turns of the job of the fast fault in which its line stands.
#[derive(Drop)]
struct Faults;

impl Acts for Faults {
    fn act(&mut self, machine: &mut PlainMachine, actor: Actor, word: &str, number: u64) -> Came {
        let mut seat = machine.as_actor(actor);
        let stop = match word {
            "run" => return run(&mut seat, number),
            "leave" => return go_to_fault(&mut seat),
            "fast" => return fast_fault(&mut seat),
            "fault" => None,
            "fault-to-link" => Some(FaultPlace::Link),
            "fault-to-bring" => Some(FaultPlace::Bring),
            _ => return Came::unknown(),
        };
        let _ = go_to_fault(&mut seat);
        whole_fault(&mut seat, stop)
    }
}

// Both processors access guest frame 5, and then the second one guest frame 4. The pool's map is word 12, and the host word of
// page 69 word 18 + 69. The entries of the root begin at word 96, and those of the pages 1, 3, 4 and 5 at words 608, 1632, 2144
// and 2656; with four pool pages those of the root at word 92. A link to page 3 is 14343.
//
// Fast faults of a write that meets a leaf which forbids it, at guest frame 5. Each doesn't allow the write, leaves the leaf, and
// says what it found.
//

// A whole fault makes 12 turns up to the root, 517 for each table, and 4 from the last one to its end.
const TABLE: &str = "\
vm slot 0 0 6 64
v0 read 0x5000
v1 write 0x5000 7
v1 write 0x4000 7
h0 evict 69
==
// The first fault makes 12 turns up to the root, then for the levels 4, 3 and 2
// the entry, the map, the page, 513 fills and the link each, and the entry, the
// leaf and two turns to the end. The second processor has left the guest for the
// same guest frame before: its fault finds the three tables and the leaf. The next
// one finds the tables alone.
vm run 524: ran
v1 leave: at its fault
v0 fault: installed, turn 1567
v1 fault: installed, turn 18
v1 fault: installed, turn 19
machine word 12: 224
machine word 96: 6151
machine word 608: 14343
machine word 1632: 18439
machine word 2148: 0x600000000044807
machine word 2149: 0x600000000045807
machine words: 4452
--
vm slot 0 0 6 64
v0 read 0x5000
v1 write 0x5000 7
v1 write 0x4000 7
h0 evict 69
==
// The first processor has page 1 ready, and the second one links page 3 at the
// root first: page 1 is given back, and the first one is to begin anew.
vm run 524: ran
v0 fault-to-link: more, turn 528
v1 fault: installed, turn 1567
v0 fault: begins anew, turn, word, read and seen 4 96 0 14343
machine word 12: 194
machine word 96: 14343
machine word 1632: 18439
machine word 2144: 22535
machine word 2661: 0x600000000045807
machine words: 4452
--
vm slot 0 0 6 64
v0 read 0x5000
v1 write 0x5000 7
v1 write 0x4000 7
h0 evict 69
==
// Host page 69 is absent. The first processor brings it in, after 8 turns, and goes on as for a page that is
// present; the second one finds it present.
vm run 524: ran
h0 run 40: ran
v1 leave: at its fault
v0 fault-to-bring: more, turn 8
v0 fault: installed, turn 1560
v1 fault: installed, turn 18
machine word 87: 0x45007
machine word 2149: 0x600000000045807
machine words: 4452
--
vm slot 0 0 6 64
v0 read 0x5000
v1 write 0x5000 7
v1 write 0x4000 7
h0 evict 69
==
// Both processors see the page absent, and the first one brings it in before: the second one
// ends its section, and is to begin anew. Its line finds the leaf then, and its next fault is
// one of guest frame 4, which is present.
vm run 524: ran
h0 run 40: ran
v1 fault-to-bring: more, turn 8
v0 fault: installed, turn 1568
v1 fault: begins anew, turn, word, read and seen 2 87 0x45006 0x45007
v1 fault: installed, turn 19
machine word 87: 0x45007
machine word 2148: 0x600000000044807
machine words: 4452
--
tdp 1 vcpus 2 workers 0 pages 70 frames 130 words 2 pool 4 cache 64 manual 0 hosts 0
vm slot 0 0 6 64
v0 read 0x6000
v1 write 0x6000 7
v1 write 0x4000 7
h0 evict 69
==
// With four pool pages. Guest frame 6 is outside the slot: the four words of slot 0, and the flags of the 31 others.
vm run 524: ran
v0 fault: mmio, turn 39
--
tdp 1 vcpus 2 workers 0 pages 70 frames 130 words 2 pool 4 cache 64 manual 0 hosts 0
vm slot 0 0 6 64
v0 read 0x5000
v1 write 0x5000 7
v1 write 0x4000 7
h0 evict 69
==
// With four pool pages two tables are linked, and there is none for level 1. The entries of the root begin at word 92.
vm run 524: ran
v0 fault: starved, turn 1050
machine word 12: 0
machine word 92: 6151
machine word 604: 14343
machine word 1628: 0
machine words: 2400
--
vm slot 0 0 6 64 ro
v0 read 0x5000
v0 write 0x5000 7
==
// Steps of the read, which puts three tables and the leaf: 5 + 12 + 3 * 517 + 4 + 9; and of the write's stay, which
// meets the leaf, 8: enter, pause, root, four entries, leave. The line of the manager or of the host thread makes less
// than 1000. Steps of a fast fault, 12: begin, slot set, the four words of slot 0, root, four entries, end;
// and where no slot is set 35: begin, slot set, the flags of 32 slots, end.
// The leaf is word 2144 + 5, in page 4, and the word of page 69 in the dirty log is word 17.
// A leaf that is host-writable and not MMU-writable, in a read-only slot.
vm run 524: ran
v0 run 1589: ran
v0 fast: not fast, turn and word 12 0x200000000045805
machine word 2149: 0x200000000045805
machine word 17: 0
--
vm slot 0 0 6 64
v0 read 0x5000
v0 write 0x5000 7
h0 protect 69
==
// One that is neither: the host thread has forbidden writes to the page.
vm run 524: ran
h0 run 1000: ran
v0 run 1589: ran
v0 fast: not fast, turn and word 12 0x45805
machine word 2149: 0x45805
machine word 17: 0
--
vm slot 0 0 6 64 ro
v0 read 0x5000
v0 write 0x5000 7
h0 evict 69
==
// None, since it was zapped: the host thread takes the page away after the stay.
vm run 524: ran
v0 run 1589: ran
h0 run 1000: ran
v0 fast: not fast, turn and word 12 0
machine word 2149: 0
machine word 17: 0
--
vm slot 0 0 6 64 ro
v0 read 0x5000
v0 write 0x5000 7
vm slot 0 0 0 0
==
// No slot: the manager deletes it after the stay.
vm run 524: ran
v0 run 1589: ran
vm run 1000: ran
v0 fast: not fast, turn and word 35 0
machine word 2149: 0
machine word 17: 0
";

/// How many rows of the table come out as they stand there.
pub fn rows(alloc: Global) -> usize {
    let mut acts = Faults;
    all_that_come(alloc, HEAD_OF_POOL_8, &mut acts, TABLE)
}
