//! Capabilities as two words of 32 bits.
#![tactic(auto)]

mod fields;
mod validity;
mod words;

pub use fields::read_fields;
pub use model::{Cap, FrameMapping, Rights, TableMapping};
pub use validity::{is_capability, is_guard_word};
pub use words::{pack, unpack};
