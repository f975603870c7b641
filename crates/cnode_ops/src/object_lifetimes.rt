//! How objects begin and end, with their slots, their page tables and their bytes of memory.
//! seL4 Reference Manual, "Kernel Memory Allocation" and "Deletion, Revocation, and Recycling".

mod beginning;
mod ending;
mod kernels;
mod making;

pub(crate) use beginning::begin_objects;
pub(crate) use ending::end_object;
pub use kernels::Kernel;
