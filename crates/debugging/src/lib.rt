//! Runs that are looked at event by event, and had again: a system after any number of its events, and the events before which it stops.
#![tactic(auto)]

mod looks;
mod registers;
mod replays;
mod runs;
mod searches;
mod stops;

pub use looks::{byte_seen, current, place_seen, status};
pub use registers::register_seen;
pub use runs::{NotPut, Run};
pub use searches::{Halt, back_to_stop, run_to_stop};
pub use stops::{Breakpoint, Stops, Watch};
