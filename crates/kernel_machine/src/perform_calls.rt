//! What a call on a capability does, over any store of slots and the kernel's objects.
//! seL4 Reference Manual, "System Calls" and "seL4 API Reference".

mod calls;
mod cnode_calls;
mod frame_calls;
mod interrupt_calls;
mod loader_calls;
mod performing;
mod table_calls;
mod thread_calls;
mod untyped_calls;

pub use calls::KernelCall;
pub use loader_calls::configure_with_guard;
pub use performing::{invoke, perform};
