//! Why there are no notes on a system.

use asm::SourceFault;
use certifying::Unfit;
use source_texts::TextFault;
use std::alloc::{AllocError, AllocFailed};

/// Why there are no notes on a system.
#[derive(Clone, Copy, Debug, PartialEq, Eq)]
pub enum NotesFault {
    /// It is refused, or is no text of an image.
    Refused,
    /// Memory was refused.
    OutOfMemory,
}

impl From<AllocError> for NotesFault {
    fn from(_refused: AllocError) -> NotesFault {
        NotesFault::OutOfMemory
    }
}

impl<T: Drop> From<AllocFailed<T>> for NotesFault {
    fn from(_refused: AllocFailed<T>) -> NotesFault {
        NotesFault::OutOfMemory
    }
}

impl From<TextFault> for NotesFault {
    fn from(fault: TextFault) -> NotesFault {
        match fault {
            TextFault::Line(_) => NotesFault::Refused,
            TextFault::OutOfMemory => NotesFault::OutOfMemory,
        }
    }
}

impl From<SourceFault> for NotesFault {
    fn from(_fault: SourceFault) -> NotesFault {
        NotesFault::Refused
    }
}

impl From<Unfit> for NotesFault {
    fn from(fault: Unfit) -> NotesFault {
        match fault {
            Unfit::OutOfMemory => NotesFault::OutOfMemory,
            Unfit::Refused(_) | Unfit::Thread { .. } => NotesFault::Refused,
        }
    }
}
