//! Calls on CNodes over any store of slots.
//! seL4 Reference Manual, "Capability-based Access Control".
#![tactic(auto)]

mod beginnings;
mod bits;
mod copies;
mod deletions;
mod emptying;
mod leaves;
mod lines;
mod marks;
mod moves;
mod mutations;
mod named;
mod object_lifetimes;
mod refusals;
mod removal;
mod retypes;
mod sets;
mod settling;
mod windows;

pub use copies::{copy, mint};
pub use deletions::{delete, revoke};
pub use moves::move_cap;
pub use mutations::mutate;
pub use named::NodeCall;
pub use object_lifetimes::Kernel;
pub use removal::remove_slot;
pub use retypes::{may_have_child, retype};
