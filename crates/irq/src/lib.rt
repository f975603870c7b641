//! Interrupt lines: what raising and acknowledging them does, and the calls on their handlers, over any
//! store of slots. seL4 Reference Manual, "Hardware I/O".
#![tactic(auto)]

mod handlers;
mod lines;

pub use handlers::{bind, clear, get_handler};
pub use lines::{ack, raise};
