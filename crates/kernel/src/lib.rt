//! The kernel: a machine that calls set up, a system whose threads run, and what each event does to it.
//! seL4 Reference Manual, "System Bootstrapping" and "System Calls".
#![tactic(auto)]

mod events;
mod failures;
mod instructions;
mod runs;
mod setup;
mod system;
mod system_calls;

pub use kernel_machine::Machine;
pub use setup::Setup;
pub use system::System;
pub use user_memory::Labels;
