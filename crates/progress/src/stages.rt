//! What a long request comes to.

use std::alloc::{AllocError, Global};

/// What a request has come to.
#[derive(Clone, Copy, Debug, PartialEq, Eq)]
pub enum Stage {
    /// The image of a text is built.
    Built,
    /// Certificates of all threads are found.
    Found,
    /// The verifier has judged the image.
    Judged,
    /// It is known of a record of a thread whether the text is accepted without it; both are counted from 0.
    Tried {
        thread: usize,
        record: usize,
        /// How many records the thread has.
        records: usize,
    },
}

impl Stage {
    /// The line that reports it, so many seconds after the request.
    pub(crate) fn line(self, alloc: Global, seconds: u64) -> Result<String, AllocError> {
        match self {
            Stage::Built => format!(in alloc; ".. {seconds} s: image built\n"),
            Stage::Found => format!(in alloc; ".. {seconds} s: certificates found\n"),
            Stage::Judged => format!(in alloc; ".. {seconds} s: image judged\n"),
            Stage::Tried {
                thread,
                record,
                records,
            } => {
                format!(in alloc;
                    ".. {seconds} s: thread {thread}, record {record} of {records} tried\n"
                )
            }
        }
    }
}
