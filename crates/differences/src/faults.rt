//! Why two texts are not compared.

use source_texts::TextFault;
use std::alloc::{AllocError, AllocFailed};

/// Why two texts are not compared.
#[derive(Clone, Copy, Debug, PartialEq, Eq)]
pub enum DifferencesFault {
    /// This line of the first, counted from 1, is none of the text form, or names what is not declared.
    Before { line: u64 },
    /// This line of the second is.
    After { line: u64 },
    /// Memory was refused.
    OutOfMemory,
}

impl From<AllocError> for DifferencesFault {
    fn from(_refused: AllocError) -> DifferencesFault {
        DifferencesFault::OutOfMemory
    }
}

impl<T: Drop> From<AllocFailed<T>> for DifferencesFault {
    fn from(_refused: AllocFailed<T>) -> DifferencesFault {
        DifferencesFault::OutOfMemory
    }
}

/// A fault of the first text.
pub(crate) fn in_first(fault: TextFault) -> DifferencesFault {
    match fault {
        TextFault::Line(line) => DifferencesFault::Before { line },
        TextFault::OutOfMemory => DifferencesFault::OutOfMemory,
    }
}

/// A fault of the second text.
pub(crate) fn in_second(fault: TextFault) -> DifferencesFault {
    match fault {
        TextFault::Line(line) => DifferencesFault::After { line },
        TextFault::OutOfMemory => DifferencesFault::OutOfMemory,
    }
}
