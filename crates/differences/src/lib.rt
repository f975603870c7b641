//! What the threads of one text of a system may do that those of another may not.
#![tactic(auto)]

mod comparing;
mod contents;
mod faults;
mod holdings;
mod reaches;
mod things;

pub use comparing::{Changes, differences};
pub use faults::DifferencesFault;
