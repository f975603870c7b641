//! Why there is no picture.

use source_texts::TextFault;
use std::alloc::{AllocError, AllocFailed};

/// Why there is no picture.
#[derive(Clone, Copy, Debug, PartialEq, Eq)]
pub enum PictureFault {
    /// This line of the text, counted from 1, is none of the text form, or names what is not declared.
    Malformed { line: u64 },
    /// Memory was refused.
    OutOfMemory,
}

impl From<TextFault> for PictureFault {
    fn from(fault: TextFault) -> PictureFault {
        match fault {
            TextFault::Line(line) => PictureFault::Malformed { line },
            TextFault::OutOfMemory => PictureFault::OutOfMemory,
        }
    }
}

impl From<AllocError> for PictureFault {
    fn from(_refused: AllocError) -> PictureFault {
        PictureFault::OutOfMemory
    }
}

impl<T: Drop> From<AllocFailed<T>> for PictureFault {
    fn from(_refused: AllocFailed<T>) -> PictureFault {
        PictureFault::OutOfMemory
    }
}
