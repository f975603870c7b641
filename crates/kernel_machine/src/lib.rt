//! What the kernel keeps, always sound, so that its calls ask nothing of their caller: an empty machine, the calls that set it up, and
//! looks at it. `kernel` lets its threads run.
//! seL4 Reference Manual, "System Bootstrapping" and "System Calls".
#![tactic(auto)]

mod boot_calls;
mod holders;
mod looks;
mod machine;
mod perform_calls;
mod places;
mod puts;
mod stores;

pub use machine::Machine;
pub use perform_calls::{KernelCall, invoke};
pub use stores::Store;
