//! What Retype makes, and where it places new objects in an untyped.
//! seL4 Reference Manual, "Reusing Memory".
#![tactic(auto)]

mod new_types;
mod placing;

pub use new_types::{asked_type, object_bits};
pub use placing::{NotEnoughMemory, next_place, place, power};
