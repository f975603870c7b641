//! What is wrong with a text by its own lines: what makes no image of it, and what its declarations are refused for.
#![tactic(auto)]

mod forms;
mod item_gaps;
mod lines;
mod syntax;
mod thread_gaps;
mod words;

pub use item_gaps::report_item;
pub use lines::{Text, code_on, push_place};
pub use syntax::report_fault;
