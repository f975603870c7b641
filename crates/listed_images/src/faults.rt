//! Why there is no text of an image.

use model::Refusal;
use std::alloc::{AllocError, AllocFailed};

/// Why there is no text of an image.
#[derive(Clone, Copy, Debug, PartialEq, Eq)]
pub enum ListFault {
    /// The bytes spell no image, by a refusal from 1 to 5.
    Refused(Refusal),
    /// Memory was refused.
    OutOfMemory,
}

impl From<Refusal> for ListFault {
    fn from(refusal: Refusal) -> ListFault {
        ListFault::Refused(refusal)
    }
}

impl From<AllocError> for ListFault {
    fn from(_refused: AllocError) -> ListFault {
        ListFault::OutOfMemory
    }
}

impl<T: Drop> From<AllocFailed<T>> for ListFault {
    fn from(_refused: AllocFailed<T>) -> ListFault {
        ListFault::OutOfMemory
    }
}
