//! Who runs, over any store of slots: one core, 256 priorities, and slices of ticks.
//! seL4 Reference Manual, "Threads and Execution", "Scheduling".
#![tactic(auto)]

mod turns;

pub use turns::{choose, tick, yield_now};
