//! The lines of a trace: one for each label, without its line feed.
#![tactic(auto)]

mod digits;
mod lines;
mod plain_lines;

pub use lines::line;
pub use plain_lines::PlainLine;
