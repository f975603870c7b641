//! Why there is no report.

use model::Refusal;
use source_texts::TextFault;
use std::alloc::{AllocError, AllocFailed};

/// Why there is no report on an image.
#[derive(Clone, Copy, Debug)]
pub enum ReportFault {
    /// The image is refused.
    Refused(Refusal),
    /// This line of the text, counted from 1, is none of the text form.
    Malformed { line: u64 },
    /// A line of a trace says nothing.
    Disagreement,
    /// Memory was refused.
    OutOfMemory,
}

impl From<Refusal> for ReportFault {
    fn from(refusal: Refusal) -> ReportFault {
        match refusal {
            Refusal::OutOfMemory => ReportFault::OutOfMemory,
            refusal => ReportFault::Refused(refusal),
        }
    }
}

impl From<TextFault> for ReportFault {
    fn from(fault: TextFault) -> ReportFault {
        match fault {
            TextFault::Line(line) => ReportFault::Malformed { line },
            TextFault::OutOfMemory => ReportFault::OutOfMemory,
        }
    }
}

impl From<AllocError> for ReportFault {
    fn from(_refused: AllocError) -> ReportFault {
        ReportFault::OutOfMemory
    }
}

impl<T: Drop> From<AllocFailed<T>> for ReportFault {
    fn from(_refused: AllocFailed<T>) -> ReportFault {
        ReportFault::OutOfMemory
    }
}
