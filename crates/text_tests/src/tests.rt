//! The tests: each table with how many rows it has, and what else is so, by name. Each test costs as much as several tables.
use crate::expected::{expect, expect_so};
use crate::flat_tests::all_answered;
use crate::kept_tests::is_read;
use crate::log_command_tests::rows_that_come;
use crate::slot_set_tests::{all_come, first_slot};
use crate::step_tests::are_told;
use crate::{
    answer_tests, flat_tests, io_tests, kept_tests as kept, log_command_tests, need_tests,
    slot_set_tests as sets, spte_tests, step_tests,
};
use core_views::Actor;
use hands::SlotSet;
use tdp_io::{Gate, NoGate};

#[test]
fn tables_come_out(rt: HostRuntime) {
    let alloc = rt.alloc();
    expect(
        &rt,
        "host lines",
        all_answered(alloc, flat_tests::HOSTS),
        45,
    );
    expect(&rt, "dirty logs", all_answered(alloc, flat_tests::LOGS), 90);
    expect(
        &rt,
        "migrations",
        all_answered(alloc, flat_tests::MIGRATIONS),
        42,
    );
    expect(
        &rt,
        "bits asked for",
        rows_that_come(alloc, log_command_tests::ASKS),
        15,
    );
    expect(
        &rt,
        "no log",
        rows_that_come(alloc, log_command_tests::REFUSED),
        18,
    );
    expect_so(&rt, "entries", are_told(alloc, &step_tests::ENTRIES));
    expect_so(&rt, "states", are_told(alloc, &step_tests::STATES));
    expect_so(&rt, "other words", are_told(alloc, &step_tests::OTHERS));
}

#[test]
fn reads_and_writes(rt: HostRuntime) {
    let alloc = rt.alloc();
    let trace = is_read(alloc, kept::TRACE, &kept::KEPT);
    expect_so(&rt, "a trace", trace);
    let deletions = is_read(alloc, kept::DELETIONS, &kept::KEPT_DELETIONS);
    expect_so(&rt, "deletions", deletions);
    let readings = is_read(alloc, kept::READINGS, &kept::KEPT_READINGS);
    expect_so(&rt, "readings", readings);
    expect_so(&rt, "go", kept::keeps_where_go_stands(alloc));
    expect_so(&rt, "kinds", kept::knows_each_kind());
    expect_so(&rt, "need", need_tests::slots_count_for_nothing(alloc));
    let modes = log_command_tests::takes_out_by_the_mode(alloc);
    expect_so(&rt, "modes", modes);
    let answers = answer_tests::prints_line_after_line(alloc);
    expect_so(&rt, "answers", answers == Some(true));
    expect_so(&rt, "endings", step_tests::tells_how_turns_end(alloc));
    expect_so(&rt, "fills", step_tests::tells_fills(alloc));
    expect_so(&rt, "places of steps", step_tests::finds_places());
    let fault = io_tests::reads_nines_after_a_fault(alloc);
    expect_so(&rt, "a fault", matches!(fault, Ok(true)));
    let chunks = io_tests::reads_each_chunk(alloc);
    expect_so(&rt, "chunks", matches!(chunks, Ok(true)));
    let writes = io_tests::writes_one_of_two(alloc);
    expect_so(&rt, "two writes", matches!(writes, Ok(true)));
    expect_so(&rt, "failures", io_tests::tells_failures());
    expect_so(&rt, "a reader", io_tests::reads_abc());
    expect_so(&rt, "a writer", io_tests::writes_four());
    NoGate.pass(&rt, Actor::Vcpu(0), 2);
}

#[test]
fn sets_and_words_are_these(rt: HostRuntime) {
    let empty = SlotSet::empty();
    let first = first_slot();
    expect_so(&rt, "an empty set", all_come(empty, 1024, &sets::EMPTY));
    expect_so(&rt, "refused slots", all_come(first, 1024, &sets::REFUSED));
    expect_so(
        &rt,
        "first refusals",
        all_come(first, 1024, &sets::FIRST_REFUSALS),
    );
    expect_so(&rt, "a logged slot", all_come(first, 1024, &sets::LOGGED));
    expect_so(&rt, "moves", all_come(first, 1024, &sets::MOVES));
    expect_so(&rt, "guest frames", all_come(first, 1024, &sets::FOUND));
    expect_so(&rt, "the last slot", all_come(first, 1024, &sets::LAST));
    expect_so(
        &rt,
        "large numbers",
        all_come(first, u64::MAX, &sets::LARGE),
    );
    expect_so(&rt, "refusals", sets::names_each_refusal());
    expect_so(&rt, "entries", spte_tests::entries_are_these());
    expect_so(&rt, "words below", spte_tests::words_below());
    expect_so(&rt, "host words", spte_tests::host_words_and_flags());
    expect_so(&rt, "places", spte_tests::map_places());
}
