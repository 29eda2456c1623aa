//! What holds of every list of steps of the machine, and rests on its invariant
//! alone: histories are lawful, lines come to their end, alone and beside others, what
//! stands in their way is another actor's, and the pool is enough.
#![tactic(auto)]

mod laws;

pub use laws::{
    a_fault_alone_goes_through, a_fault_goes_on, a_line_alone_goes_through,
    each_delay_has_its_cause, each_step_keeps_the_invariant, every_answer_is_told,
    every_list_of_steps, leaves_agree, readings_ask_for_their_pages, steps_are_bounded,
    steps_tell_what_they_are, the_pool_is_enough, the_steps_can_be_made, turns_come_to_an_end,
};
