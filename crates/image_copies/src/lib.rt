//! Images that are lent from their bytes, as parts of their own.
#![tactic(auto)]

mod copies;
mod lists;

pub use copies::copied;
