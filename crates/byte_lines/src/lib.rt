//! The bytes that the lines of a trace put, alone.
#![tactic(auto)]

mod byte_sinks;
mod held_lines;

pub use byte_sinks::ByteSink;
