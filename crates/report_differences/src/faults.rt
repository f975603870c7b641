//! Why two reports are not compared.

use serde_json::Error;
use std::alloc::{AllocError, AllocFailed};

/// Why two reports are not compared.
#[derive(Clone, Copy, Drop)]
pub enum NotCompared {
    /// The text before is no JSON (RFC 8259), by this line, counted from 1.
    Before { line: usize },
    /// The text after is none.
    After { line: usize },
    OutOfMemory,
}

impl From<AllocError> for NotCompared {
    fn from(_refused: AllocError) -> NotCompared {
        NotCompared::OutOfMemory
    }
}

impl<T: Drop> From<AllocFailed<T>> for NotCompared {
    fn from(_refused: AllocFailed<T>) -> NotCompared {
        NotCompared::OutOfMemory
    }
}

/// Why the text before is not read.
pub(crate) fn unread_before(error: Error) -> NotCompared {
    if error.is_memory() {
        NotCompared::OutOfMemory
    } else {
        NotCompared::Before { line: error.line() }
    }
}

/// Why the text after is not read.
pub(crate) fn unread_after(error: Error) -> NotCompared {
    if error.is_memory() {
        NotCompared::OutOfMemory
    } else {
        NotCompared::After { line: error.line() }
    }
}
