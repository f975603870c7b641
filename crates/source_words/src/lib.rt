//! Words of sources: which one was meant, and what a file is by its first one.
#![tactic(auto)]

mod kinds;
mod nearest;

pub use kinds::{SourceKind, declares, kind_of};
pub use nearest::Nearest;
