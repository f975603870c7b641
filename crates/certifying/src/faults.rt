//! Why no certificate is found.

use model::Refusal;
use std::alloc::{AllocError, AllocFailed};

/// What is wrong at a point of a program.
#[derive(Clone, Copy, Debug, PartialEq, Eq)]
pub enum Reason {
    /// The rules of acceptance refuse the instruction or the system call there.
    Refused(Refusal),
    /// A way on leads out of the program, or to no instruction.
    LeavesProgram,
    /// The slots after it differ from those on another way to the point that it leads to.
    SlotsDiffer,
    /// No measure is found that falls over the loop that begins there.
    NoMeasure,
    /// It needs a record, in which more slots would have to be noted than a record has.
    TooManySlots,
    /// It has a record already.
    NotBare,
}

/// Why a thread gets no certificate.
#[derive(Clone, Copy, Debug, PartialEq, Eq)]
pub enum Fault {
    /// For what is wrong at a point of its program, from 0.
    At { point: u32, reason: Reason },
    /// Out of memory.
    OutOfMemory,
}

impl Fault {
    /// A rule that is broken at a point.
    pub(crate) fn refused(point: u32, refusal: Refusal) -> Self {
        Fault::At {
            point,
            reason: Reason::Refused(refusal),
        }
    }
}

impl From<AllocError> for Fault {
    fn from(_refused: AllocError) -> Fault {
        Fault::OutOfMemory
    }
}

impl<T: Drop> From<AllocFailed<T>> for Fault {
    fn from(_refused: AllocFailed<T>) -> Fault {
        Fault::OutOfMemory
    }
}
