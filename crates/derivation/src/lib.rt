//! Derivation of capabilities over any store of slots.
//! seL4 Reference Manual, "Capability Derivation Tree".
#![tactic(auto)]

mod cap_copies;
mod changes;
mod descent;
mod removals;

pub use cap_copies::{copy_of, minted_copy_of, mutation_of};
pub use changes::{insert_child, relocate, splice_out};
pub use descent::{descends, next_descendant};
pub use removals::remove_descendants;
