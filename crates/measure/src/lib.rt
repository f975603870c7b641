//! Measures of certificates: how much a thread may still run, as a linear form of its registers, and
//! whether it falls on an edge.
#![tactic(auto)]

mod extremes;
mod forms;
mod laws;
mod measures;
mod steps;
mod values;
mod values_at;
mod variables;

pub use extremes::{falls, least, stays_below};
pub use laws::{budgets_stay_below, measures_fall_behind_calls, unwritten_measures_fall};
pub use measures::Measure;
pub use model::TermEntry;
pub use steps::{AfterCall, AfterInstruction, Step, Unchanged, destination};
pub use values::Value;
pub use values_at::value_at;
