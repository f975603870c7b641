//! What a trace says of each event.

use crate::{FaultKind, KError};

/// What one event did.
#[derive(Clone, Copy, Debug, PartialEq, Eq)]
pub enum Label {
    /// A step without a thread to run.
    Idle,
    /// A tick of the timer.
    Ticked,
    /// An interrupt on this line.
    Raised(u8),
    /// The world outside stored a word.
    Wrote {
        /// The physical address of its first byte.
        address: u32,
        /// The word.
        word: u32,
    },
    /// The world outside looked at a word.
    Showed {
        /// The physical address of its first byte.
        address: u32,
        /// What it saw.
        word: u32,
    },
    /// A thread ran one instruction.
    Ran {
        /// The thread: the physical address of its TCB.
        thread: u32,
        /// The virtual address of the instruction.
        pc: u32,
        /// What came of it.
        outcome: Outcome,
    },
}

/// What came of one instruction. Where several fit, the first counts in the order fault, error,
/// completed, byte, wait, plain.
#[derive(Clone, Copy, Debug, PartialEq, Eq)]
pub enum Outcome {
    /// The thread faulted.
    Faulted(FaultKind),
    /// An invocation, a send or a signal was refused.
    Refused(KError),
    /// An invocation was carried out.
    Completed,
    /// This byte was put out.
    Put(u8),
    /// A receive, or a send or call on an endpoint, whether it blocked or not.
    Waited,
    /// All else.
    Plain,
}
