//! Calls on threads, over any store of slots.
//! seL4 Reference Manual, "Threads and Execution".
#![tactic(auto)]

mod buffers;
mod configuring;
mod spaces;
mod threads;

pub use buffers::set_buffer;
pub use configuring::configure;
pub use spaces::Spaces;
pub use threads::{resume, set_priority, set_register, suspend};
