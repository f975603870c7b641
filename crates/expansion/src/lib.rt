//! The text of a description: all numbers of memory, slots, badges and addresses are decided here.
#![tactic(auto)]

mod arrows;
mod capabilities;
mod expanding;
mod faults;
mod groups;
mod memory;
mod notes;
mod objects;
mod places;
mod plans;
mod programs;
mod sizes;
mod texts;
mod writer;

pub use expanding::{Expansion, expand};
pub use faults::ExpansionFault;
