//! What is where in memory, and who waits to send.

use crate::thread_records::Sending;

/// What starts at a place in memory, if anything does.
#[derive(Clone, Copy)]
pub(crate) enum Entry {
    Nothing,
    Thread,
    Endpoint,
    Notification,
    CNode { radix: u8 },
    Frame,
    PageTable,
    RootTable,
}

/// A thread that waits to send, and what it sends.
#[derive(Clone, Copy)]
pub struct WaitingSender {
    pub thread: u32,
    pub sending: Sending,
}
