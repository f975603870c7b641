//! The lines of a trace, as they are read: the other way from crate `trace`.
#![tactic(auto)]

mod happenings;
mod reading;

pub use happenings::{Happening, Mark};
pub use reading::{hex_byte, hex_word, ran_by, told_by, without_end};
