//! Faults of threads, which are reported to their handlers, over any store of slots.
//! seL4 Reference Manual, "Faults".
#![tactic(auto)]

mod handlers;
mod raising;

pub use raising::raise_fault;
