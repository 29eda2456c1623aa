//! One line of the manager: a slot's dirty log is read (KVM's api.rst, KVM_GET_DIRTY_LOG and
//! KVM_CLEAR_DIRTY_LOG; kvm_main.c, `kvm_get_dirty_log_protect` and
//! `kvm_clear_dirty_log_protect`). What it reads it takes out of the log, word by word under the
//! lock alone, forbids writes in the leaf of each page that it took, and awaits a flush of what
//! virtual processors have cached; or it loads the words alone.
#![tactic(auto)]

mod job;
mod words;

pub use job::LogJob;
pub use words::{load_bits, take_bits};
