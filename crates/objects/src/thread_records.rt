//! The record of a thread in its bytes: registers, priority, status, and what it sends.
//! seL4 Reference Manual, "Threads and Execution".

mod codes;
mod places;
mod reads;
mod record_laws;
mod records;
mod writes;

pub use reads::ThreadRecord;
pub use record_laws::{a_record_stays, zero_is_a_new_thread};
pub use records::{Fault, Sending, Sent, Status, Thread};
pub use writes::{
    begin_thread, set_caller, set_fault_address, set_pc, set_priority, set_register, set_registers,
    set_sending, set_slice, set_status,
};
