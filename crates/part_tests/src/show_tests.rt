//! What the built `show_steps` can't be run on: few turns in rounds, and no words at all. All its other runs are cases
//! (`examples/cases/steps.cases`) and examples.
use core_views::NoMemory;
use run_status::Status;
use std::alloc::Global;
use step_printing::run_within;
use tdp_io::{MemSink, MemSource};

// The number of the exit status with which the program ends that is called with these words on this input, and has so many turns
// in rounds; and what it prints.
fn told(alloc: Global, words: &Vec<String>, turns: u64, input: &str) -> Result<String, NoMemory> {
    let mut src = MemSource::new(input.as_bytes().to_vec(alloc)?, Vec::new(alloc));
    let mut out = MemSink::new(alloc, Vec::new(alloc));
    let status: Status = run_within(alloc, words, turns, &mut src, &mut out);
    let code = status.code();
    let text = String::from_utf8_lossy(alloc, out.bytes())?;
    Ok(format!(in alloc; "{code}\n{text}")?)
}

// Whether this comes of such a call.
fn is_told(alloc: Global, words: &Vec<String>, turns: u64, input: &str, wanted: &str) -> bool {
    match told(alloc, words, turns, input) {
        Ok(text) => text.as_str() == wanted,
        Err(_) => false,
    }
}

// The same of a call with the program's name alone.
fn is_shown(alloc: Global, turns: u64, input: &str, wanted: &str) -> bool {
    let mut words = Vec::new(alloc);
    match String::from_str(alloc, "show_steps") {
        Ok(name) => words.push(name).is_ok() && is_told(alloc, &words, turns, input, wanted),
        Err(_) => false,
    }
}

// Two virtual processors claim a page each, v0 fills some of its own, and both fill in turn, with 7 turns in rounds: an
// item's line parts stores, and so does a turn of another actor. The steps were worked out by hand.
const TWO_READS: &str = "\
tdp 1 vcpus 2 workers 1 pages 1024 frames 1040 words 1 pool 64 cache 64 manual 0 hosts 0
vm slot 0 0 16 0
go
v0 read 0x1000
v1 read 0x1000
> v0 claim
> v1 claim
> v0 2
> v0 3
";

const SEVEN_TURNS: &str = "\
6
1 vm control poolmap[0] 0xfffffffffffffffc
2 vm claim poolmap[0] 0xfffffffffffffffc -> 0xfffffffffffffff8
3 vm fill pool[2][0] 0x0
4 vm fill pool[2][1] 0x0 -> 0x10
5 vm fill pool[2][2] 0x0
6 vm fill pool[2][3] 0x0 -> 0x1
7-514 vm fill pool[2][4..511] 0x0
515 vm fill role[2] 0x0 -> 0x5
516 vm exclude lock 0x0 -> 0x8000000000000000
517 vm control count 0x0
518 vm publish slots 0x1 -> 0x2
519 vm release lock 0x8000000000000000 -> 0x0
520 vm watch state[v0] 0x0 (outside)
521 vm watch state[v1] 0x0 (outside)
522 vm watch state[h0] 0x0 (outside)
523 vm watch state[w0] 0x0 (outside)
524 vm fill role[1] 0x5 -> 0x0
525 vm give poolmap[0] 0xfffffffffffffff8 -> 0xfffffffffffffffa answers done
> v0 claim
526 v0 enter state[v0] 0x0 (outside) -> 0x3 (in guest)
527 v0 control pause 0x0
528 v0 control root 0x0
529 v0 walk pool[0][0] 0x0 (absent)
530 v0 leave state[v0] 0x3 (in guest) -> 0x0 (outside)
531 v0 begin state[v0] 0x0 (outside) -> 0x2 (in section)
532 v0 control seq 0x0
533 v0 control slots 0x2
534 v0 slot pool[2][3] 0x1
535 v0 slot pool[2][0] 0x0
536 v0 slot pool[2][1] 0x10
537 v0 slot pool[2][2] 0x0
538 v0 host host[1] 0x1007 (frame 1 rw)
539 v0 share lock 0x0 -> 0x1
540 v0 control count 0x0
541 v0 control seq 0x0
542 v0 control root 0x0
543 v0 walk pool[0][0] 0x0 (absent)
544 v0 control poolmap[0] 0xfffffffffffffffa
545 v0 claim poolmap[0] 0xfffffffffffffffa -> 0xfffffffffffffff8
> v1 claim
546 v1 enter state[v1] 0x0 (outside) -> 0x3 (in guest)
547 v1 control pause 0x0
548 v1 control root 0x0
549 v1 walk pool[0][0] 0x0 (absent)
550 v1 leave state[v1] 0x3 (in guest) -> 0x0 (outside)
551 v1 begin state[v1] 0x0 (outside) -> 0x2 (in section)
552 v1 control seq 0x0
553 v1 control slots 0x2
554 v1 slot pool[2][3] 0x1
555 v1 slot pool[2][0] 0x0
556 v1 slot pool[2][1] 0x10
557 v1 slot pool[2][2] 0x0
558 v1 host host[1] 0x1007 (frame 1 rw)
559 v1 share lock 0x1 -> 0x2
560 v1 control count 0x0
561 v1 control seq 0x0
562 v1 control root 0x0
563 v1 walk pool[0][0] 0x0 (absent)
564 v1 control poolmap[0] 0xfffffffffffffff8
565 v1 claim poolmap[0] 0xfffffffffffffff8 -> 0xfffffffffffffff0
> v0 2
566-567 v0 fill pool[1][0..1] 0x0
> v0 3
568-570 v0 fill pool[1][2..4] 0x0
rounds
571 v0 fill pool[1][5] 0x0
572 v1 fill pool[3][0] 0x0
573 v0 fill pool[1][6] 0x0
574 v1 fill pool[3][1] 0x0
575 v0 fill pool[1][7] 0x0
576 v1 fill pool[3][2] 0x0
577 v0 fill pool[1][8] 0x0
unfinished 4 v0
";

/// Whether a run ends after seven turns in rounds.
pub fn ends_where_its_turns_do(alloc: Global) -> bool {
    is_shown(alloc, 7, TWO_READS, SEVEN_TURNS)
}

const A_SLOT: &str = "\
tdp 1 vcpus 2 workers 1 pages 1024 frames 1040 words 1 pool 64 cache 64 manual 0 hosts 0
vm slot 0 0 16 0
";

/// Whether a slot line may get no turn.
pub fn makes_no_turn(alloc: Global) -> bool {
    is_shown(alloc, 0, A_SLOT, "6\nrounds\nunfinished 2 vm\n")
}

/// Whether a call may have no words.
pub fn has_no_words(alloc: Global) -> bool {
    let wanted =
        "2\nno text: \nusage: show_steps [steps] [weave | replay] [--from AT] [--to AT] [--actor ACTOR] [--kind KIND] \
        [--word WORD] [--changes] [--help]\nAT is go, the number of a turn, or line and its number\n";
    is_told(alloc, &Vec::new(alloc), 0, A_SLOT, wanted)
}
