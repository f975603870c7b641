//! Why nothing is read of a text.

use std::alloc::{AllocError, AllocFailed};

/// Why nothing is read of a text.
#[derive(Clone, Copy, Debug, PartialEq, Eq)]
pub enum TextFault {
    /// This line, counted from 1, is none of the text form, or names what is not declared.
    Line(u64),
    /// Memory was refused.
    OutOfMemory,
}

impl From<AllocError> for TextFault {
    fn from(_refused: AllocError) -> TextFault {
        TextFault::OutOfMemory
    }
}

impl<T: Drop> From<AllocFailed<T>> for TextFault {
    fn from(_refused: AllocFailed<T>) -> TextFault {
        TextFault::OutOfMemory
    }
}
