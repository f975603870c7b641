//! The kernel's trace in a sink: a system goes on by events, and each puts a line.
#![tactic(auto)]

mod answers;
mod held_lines;
mod line_buffer;
mod traces;

pub use answers::put_answer;
pub use traces::put_trace;
