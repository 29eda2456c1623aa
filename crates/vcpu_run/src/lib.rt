//! One line of a virtual processor: a guest access (KVM's mmu.rst, "Page fault";
//! vcpu-requests.rst), from its stay in the guest through its fault to its
//! answer.
#![tactic(auto)]

mod access;

pub use access::AccessJob;
