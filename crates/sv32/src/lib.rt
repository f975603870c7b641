//! Sv32: page table entries, and the walk from a virtual address to a place in memory.
//! RISC-V Privileged Architecture, "Sv32: Page-Based 32-bit Virtual-Memory Systems".
#![tactic(auto)]

mod entries;
mod sizes;
mod walks;

pub use entries::Pte;
pub use model::{Access, PageFault};
pub use walks::{entry_at, place_of, walk};
