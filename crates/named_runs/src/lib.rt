//! Runs by the names of a system: events whose words are names, and the lines of a trace with names.
#![tactic(auto)]

mod line_faults;
mod lists;
mod name_sinks;
mod part_bytes;
mod readers;
mod reading;

pub use lists::{ListFault, named_events};
pub use name_sinks::NameSink;
pub use part_bytes::{PartBytes, Printers};
pub use readers::NamedLines;
