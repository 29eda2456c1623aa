//! The tests: each table with how many rows it has, and what else is so, by name. A test costs as much as a table.
use crate::expected::{expect, expect_so};
use crate::{
    fast_tests, fault_tests, find_tests, frame_claim_tests, grace_tests, host_move_tests,
    host_tests, lock_tests, pool_tests, seat_tests, seq_tests, show_tests, table_tests, tlb_tests,
    walk_tests,
};

#[test]
fn tables_come_out(rt: HostRuntime) {
    let alloc = rt.alloc();
    expect(&rt, "fast steps", fast_tests::rows(alloc), 14);
    expect(&rt, "faults", fault_tests::rows(alloc), 72);
    expect(&rt, "searches", find_tests::rows(alloc), 21);
    expect(&rt, "claims of frames", frame_claim_tests::rows(alloc), 18);
    expect(&rt, "watches", grace_tests::rows(alloc), 43);
    expect(&rt, "a moved page", host_move_tests::rows(alloc), 20);
    expect(&rt, "host words", host_tests::rows(alloc), 24);
    expect(&rt, "touches", host_tests::touched_rows(alloc), 9);
    expect(&rt, "the lock", lock_tests::rows(alloc), 16);
    expect(&rt, "the lock, untold", lock_tests::untold_rows(alloc), 4);
    expect(&rt, "pool pages", pool_tests::rows(alloc), 37);
    expect(&rt, "steps", seat_tests::rows(alloc), 13);
    expect(&rt, "checks", seq_tests::rows(alloc), 9);
    expect(&rt, "the guest", tlb_tests::rows(alloc), 7);
    expect(&rt, "a walk", walk_tests::rows(alloc), 5);
    expect_so(&rt, "boards", table_tests::passes_come_together(alloc));
    expect_so(
        &rt,
        "seven turns",
        show_tests::ends_where_its_turns_do(alloc),
    );
    expect_so(&rt, "no turn", show_tests::makes_no_turn(alloc));
    expect_so(&rt, "no words", show_tests::has_no_words(alloc));
}
