//! The words of the program's command line, and how a program with other commands reads its own.
#![tactic(auto)]

mod commands;
mod requests;

pub use commands::{Form, WordsFault, matches};
pub use requests::{Request, parse};
