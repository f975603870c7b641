//! Why there is no picture.

use sinks::SinkFault;
use source_texts::TextFault;
use std::alloc::{AllocError, AllocFailed};

/// Why there is no picture, or not a whole one.
#[derive(Clone, Copy, Debug, PartialEq, Eq)]
pub enum DrawingFault {
    /// This line, counted from 1, is none of the text of a system, or none of a trace.
    Malformed { line: u64 },
    /// The output takes no more.
    Output,
    /// Memory was refused.
    OutOfMemory,
}

impl From<AllocError> for DrawingFault {
    fn from(_refused: AllocError) -> DrawingFault {
        DrawingFault::OutOfMemory
    }
}

impl<T: Drop> From<AllocFailed<T>> for DrawingFault {
    fn from(_refused: AllocFailed<T>) -> DrawingFault {
        DrawingFault::OutOfMemory
    }
}

impl From<SinkFault> for DrawingFault {
    fn from(_fault: SinkFault) -> DrawingFault {
        DrawingFault::Output
    }
}

impl From<TextFault> for DrawingFault {
    fn from(fault: TextFault) -> DrawingFault {
        match fault {
            TextFault::Line(line) => DrawingFault::Malformed { line },
            TextFault::OutOfMemory => DrawingFault::OutOfMemory,
        }
    }
}
