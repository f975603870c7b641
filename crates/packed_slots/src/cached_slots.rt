//! A store of slots that keeps leaves of the walks through the page tables in its memory.
//! RISC-V Privileged Architecture, "Supervisor Memory-Management Fence Instruction"; seL4 Reference Manual, "Address
//! Spaces and Virtual Memory".

mod cached;
mod caches;
mod forgetting;
mod leaves;
mod walks;

pub use cached::CachedSlots;
pub use leaves::{leaves_stay_where_entries_do, one_leaf_more_is_kept};
pub use walks::WalkStore;
