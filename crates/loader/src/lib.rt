//! Booting an image, verified or not. What loads it into a machine is `bootstrap`'s.
//! seL4 Reference Manual, "System Bootstrapping".
#![tactic(auto)]

mod systems;

pub use systems::{boot, boot_unverified};
