//! The lines of an image's text: each is read by itself, without memory.
#![tactic(auto)]

mod faults;
mod instructions;
mod keywords;
mod lines;
mod names;
mod numbers;
mod operations;
mod parsing;
mod registers;
mod sections;
mod thread_lines;
mod words;

pub use faults::{LineFault, RANGE, SYNTAX};
pub use lines::{Code, Line, Parent, ThreadLine};
pub use names::Name;
pub use parsing::{declared_label, parse_line};
pub use words::Words;
