//! The objects of the kernel but for slots and the bytes of frames: threads, endpoints, notifications,
//! and which other object is where; with the queues, the ready list and the interrupt lines.
//! seL4 Reference Manual, "Kernel Services and Objects".
#![tactic(auto)]

mod beginnings;
mod calls;
mod held;
mod interrupt_lines;
mod line_calls;
mod lives;
mod records;
mod rights;
mod state_laws;
mod tables;
mod thread_records;
mod threads;
mod waiting;

pub use interrupt_lines::Line;
pub use lives::Live;
pub use records::WaitingSender;
pub use state_laws::{
    a_byte_is_in_memory, a_state_follows_its_frames, a_state_follows_its_slots,
    a_state_follows_other_bytes, a_state_has_its_slots, what_stands_beside_frames,
    what_stands_beside_other_bytes, what_stands_still_does,
};
pub use tables::{FULL_SLICE, Objects};
pub use thread_records::{Fault, Sending, Sent, Status, Thread};
