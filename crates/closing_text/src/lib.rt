//! What a run leaves, as text: what each line was answered, in file order, and the words of
//! guest memory (KVM's api.rst, `KVM_SET_USER_MEMORY_REGION`: a slot's guest frames are host pages).
#![tactic(auto)]

mod by_line;
mod memory;

pub use by_line::push_by_line;
pub use memory::push_memory;
