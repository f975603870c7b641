//! A system in a debugger: gdb's remote serial protocol over a reader and a sink. Each part is a thread, and runs go forwards and back.
//! GDB manual, "Remote Protocol".
#![tactic(auto)]

mod actions;
mod answers;
mod debuggers;
mod descriptions;
mod knowledge;
mod memory;
mod monitors;
mod motions;
mod parts;
mod serving;
mod stop_packets;

pub use debuggers::{Debugger, Scene};
pub use parts::{Part, parts_of};
pub use serving::{ServeFault, serve};
