//! Why there is no text of a description.

use std::alloc::{AllocError, AllocFailed};

/// Why there is no text of a description.
#[derive(Drop)]
pub enum ExpansionFault {
    /// The description is refused, and this line says where and why.
    Refused(String),
    /// Memory was refused.
    OutOfMemory,
}

impl From<AllocError> for ExpansionFault {
    fn from(_refused: AllocError) -> ExpansionFault {
        ExpansionFault::OutOfMemory
    }
}

/// Why a description that can be read has no text.
#[derive(Drop)]
pub(crate) enum Fault {
    /// For what is said of this line, counted from 1.
    Line { line: u64, said: String },
    /// Memory was refused.
    OutOfMemory,
}

impl From<AllocError> for Fault {
    fn from(_refused: AllocError) -> Fault {
        Fault::OutOfMemory
    }
}

impl<T: Drop> From<AllocFailed<T>> for Fault {
    fn from(_refused: AllocFailed<T>) -> Fault {
        Fault::OutOfMemory
    }
}

/// The fault for what is said of a line, if there is the memory to say it.
pub(crate) fn refused(line: u64, said: Result<String, AllocError>) -> Fault {
    match said {
        Ok(said) => Fault::Line { line, said },
        Err(_) => Fault::OutOfMemory,
    }
}
