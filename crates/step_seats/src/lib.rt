//! Seats at the words of the machine: each makes the steps of one actor.
//! It passes on what the crates above need of the code below: a crate above lists this one alone.
#![tactic(auto)]

mod fault;
mod line_turn;
mod owner;
mod part;
mod plain;
mod seat;
mod stepper;
mod turn;

pub use fault::{fault_place, is_fast_place};
pub use line_turn::{take_turn, turn_line};
pub use machine_start::{start_hands, start_words};
pub use mmu_steps::{
    Closing, Hand, SlotSet, WRITER, access_note, advance, allows, asks_flush, has_to_flush,
    has_writer, in_section, knows, needs_line, next_kind, next_step, next_watched, page_of,
    page_owned, part_kind, part_rests, rests, saw_open, swept_to, word_below, word_looked,
    words_filled,
};
pub use owner::MachineOwner;
pub use part::make_part;
pub use plain::PlainMachine;
pub use seat::{ActorSeat, MachineFrame};
pub use stepper::Stepper;
pub use turn::Turn;
