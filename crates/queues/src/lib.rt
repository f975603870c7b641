//! Queues of threads as doubly linked lists in the machine's bytes: who waits at an object, and who is ready to run.
//! seL4 Reference Manual, "Endpoints", "Notifications", "Scheduling". Nothing takes memory.
#![tactic(auto)]

mod layout;
mod linking;
pub mod links;
mod queue_laws;
mod ready;
pub mod waiting;
mod words;

pub use layout::Layout;
pub use linking::{begin_head, begin_thread};
pub use queue_laws::{
    kinds_stand_apart, nobody_is_named, objects_begin_empty, ready_stays, waiting_stays,
};
pub use ready::ReadyList;
