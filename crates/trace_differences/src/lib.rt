//! Where two traces differ.
#![tactic(auto)]

mod comparing;
mod expectations;
mod faults;
mod reports;

pub use comparing::first_difference;
pub use faults::TraceFault;
