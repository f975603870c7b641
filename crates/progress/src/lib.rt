//! How far a long request is, reported from time to time.
#![tactic(auto)]

mod stages;
mod watches;

pub use stages::Stage;
pub use watches::{Progress, Quiet, Told};
