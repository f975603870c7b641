//! How the threads of an accepted image move on while others and they themselves step: laws on a thread that is left alone, that
//! begins to wait, and whose system call passes, and on all of them together. Each law is the contract of a function
//! that does nothing.

mod below;
mod event_laws;
mod message_laws;
mod moving_laws;
mod plain_laws;
mod promise_laws;
mod standing_laws;

pub use below::laws_below;
pub use event_laws::{
    interrupts_keep_all_standing, reads_keep_all_standing, ticks_keep_all_standing,
    writes_keep_all_standing,
};
pub use message_laws::calls_that_invoke_nothing_go_well;
pub use moving_laws::{
    calls_that_pass_lead_on, threads_begin_to_wait, threads_that_are_left_alone_stand_on,
    waits_that_end_lead_on,
};
pub use plain_laws::plain_steps_go_well;
pub use promise_laws::waiting_messages_keep_their_promises;
pub use standing_laws::{
    all_stand_where_others_rest, what_keeps_slots_and_bytes_touches_no_thread,
};
