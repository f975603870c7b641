//! Why nothing is told of how soon a system rests.

use model::Refusal;
use source_texts::TextFault;
use std::alloc::{AllocError, AllocFailed};

/// Why nothing is told.
#[derive(Drop)]
pub enum NotTold {
    /// This line of the text, counted from 1, is none of its form.
    Line(u64),
    /// The image is refused.
    Image(Refusal),
    /// Words are no rates, as this line says.
    Wrong(String),
    /// Parts do not keep what they are to, as these lines say.
    Broken(String),
    /// Memory was refused.
    OutOfMemory,
}

impl From<AllocError> for NotTold {
    fn from(_refused: AllocError) -> NotTold {
        NotTold::OutOfMemory
    }
}

impl<T: Drop> From<AllocFailed<T>> for NotTold {
    fn from(_refused: AllocFailed<T>) -> NotTold {
        NotTold::OutOfMemory
    }
}

impl From<TextFault> for NotTold {
    fn from(fault: TextFault) -> NotTold {
        match fault {
            TextFault::Line(line) => NotTold::Line(line),
            TextFault::OutOfMemory => NotTold::OutOfMemory,
        }
    }
}

/// Why an image has no responses.
pub(crate) fn refused(refusal: Refusal) -> NotTold {
    match refusal {
        Refusal::OutOfMemory => NotTold::OutOfMemory,
        refusal => NotTold::Image(refusal),
    }
}
