//! The system calls of a thread, over any store of slots.
//! seL4 Reference Manual, "System Calls"; the numbers are this project's own.

mod answers;
mod calls;
mod capability_calls;
mod names;
mod receives;
mod replies;
mod send_calls;
mod sends;

pub use calls::system_call;
