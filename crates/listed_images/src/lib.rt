//! The text of an image, by which it can be built again. Comments say where its objects lie, how much of its memory is free, what
//! its words spell, and what each thread holds.
#![tactic(auto)]

mod entries;
mod faults;
mod holdings;
mod instructions;
mod listing;
mod places;
mod rights_words;
mod sections;
mod spans;
mod thread_lines;
mod values;

pub use faults::ListFault;
pub use listing::list;
pub use model::Refusal;
