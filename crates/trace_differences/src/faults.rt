//! Why two traces are not compared.

use source_texts::TextFault;
use std::alloc::{AllocError, AllocFailed};

/// Why two traces are not compared. Lines are counted from 1.
#[derive(Clone, Copy, Debug, PartialEq, Eq)]
pub enum TraceFault {
    /// This line of the text is none of the text form, or names what is not declared.
    Text { line: u64 },
    /// This line of the trace is none of a trace, as that of a refusal.
    Trace { line: u64 },
    /// This line of what is expected is not of the form that its first line has.
    Expected { line: u64 },
    /// Memory was refused.
    OutOfMemory,
}

impl From<AllocError> for TraceFault {
    fn from(_refused: AllocError) -> Self {
        TraceFault::OutOfMemory
    }
}

impl<T: Drop> From<AllocFailed<T>> for TraceFault {
    fn from(_refused: AllocFailed<T>) -> Self {
        TraceFault::OutOfMemory
    }
}

impl From<TextFault> for TraceFault {
    fn from(fault: TextFault) -> Self {
        match fault {
            TextFault::Line(line) => TraceFault::Text { line },
            TextFault::OutOfMemory => TraceFault::OutOfMemory,
        }
    }
}
