//! Copies of capabilities by themselves, apart from the slots that they come from and go to.

mod copies;

pub use copies::{copy_of, minted_copy_of, mutation_of};
