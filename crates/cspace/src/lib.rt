//! Capability lookup over any map of slots.
//! seL4 Reference Manual, "Capability Space Addressing".
#![tactic(auto)]

mod arguments;
mod lookups;

pub use arguments::{argument_slot, called_capability, called_slot, destination_slot, source_slot};
pub use lookups::lookup;
pub use model::{LookupFailure, SlotName};
