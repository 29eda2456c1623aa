//! The tests of what reads and writes text, `tdp_io`, `trace_reader`, `trace_text` and `step_text`; of `spte_words`, of
//! slot sets, of what a line asks of a dirty log, and of flat guest memory. They stand here and not in these crates,
//! since a crate with tests is proved once without them and once with them.
#![tactic(auto)]

#[cfg(test)]
mod answer_tests;
#[cfg(test)]
mod command;
#[cfg(test)]
mod expected;
#[cfg(test)]
mod flat_tests;
#[cfg(test)]
mod io_tests;
#[cfg(test)]
mod kept_tests;
#[cfg(test)]
mod log_command_tests;
#[cfg(test)]
mod need_tests;
#[cfg(test)]
mod rows;
#[cfg(test)]
mod slot_set_tests;
#[cfg(test)]
mod spte_tests;
#[cfg(test)]
mod step_tests;
#[cfg(test)]
mod tests;
