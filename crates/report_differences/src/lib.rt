//! What of the data of one report (`report --json`) is not so in another one.
#![tactic(auto)]

mod comparing;
mod faults;
mod flat;

pub use comparing::{ReportChanges, report_differences};
pub use faults::NotCompared;
