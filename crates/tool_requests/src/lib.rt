//! The words of the command line of the program for makers.
#![tactic(auto)]

mod requests;
mod words;

pub use requests::{NoRequest, Request, Shown, ToolRequest, parse_words};
pub use words::VERSION;
