//! What becomes of an explanation.

use std::alloc::{AllocError, AllocFailed};

/// What a text turned out to be.
#[derive(Drop)]
pub enum Explanation {
    /// It makes an image, and that is accepted.
    Accepted,
    /// It is no text of an image, or its image is refused: why, in lines.
    Refused(String),
}

/// Why nothing is explained.
#[derive(Clone, Copy, Debug, PartialEq, Eq)]
pub enum ExplainFault {
    /// Two parts of the program say different things of the text.
    Disagreement,
    /// Memory was refused.
    OutOfMemory,
}

impl From<AllocError> for ExplainFault {
    fn from(_refused: AllocError) -> ExplainFault {
        ExplainFault::OutOfMemory
    }
}

impl<T: Drop> From<AllocFailed<T>> for ExplainFault {
    fn from(_refused: AllocFailed<T>) -> ExplainFault {
        ExplainFault::OutOfMemory
    }
}
