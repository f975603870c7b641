//! What lines say.

use std::alloc::AllocError;

/// What came of an instruction. Errors and faults are named by their numbers.
#[derive(Clone, Copy, Debug, PartialEq, Eq)]
pub enum Mark {
    Plain,
    Wait,
    Completed,
    Refused(u8),
    Put(u8),
    Faulted(u8),
}

/// What one line of a trace says. A thread is named by the physical address of its TCB.
#[derive(Clone, Copy, Debug, PartialEq, Eq)]
pub enum Happening {
    Idle,
    Tick,
    Interrupt(u8),
    Ran { thread: u32, pc: u32, mark: Mark },
    /// The world writes a word at a physical address.
    Wrote { address: u32, word: u32 },
    /// The world reads a word at a physical address.
    Showed { address: u32, word: u32 },
}

impl Mark {
    /// Puts it as a trace has it.
    ///
    /// # Errors
    ///
    /// Memory is refused.
    pub fn push(self, to: &mut String) -> Result<(), AllocError> {
        match self {
            Mark::Plain => to.push_str("plain"),
            Mark::Wait => to.push_str("wait"),
            Mark::Completed => to.push_str("ok"),
            Mark::Refused(number) => write!(to, "error {number}"),
            Mark::Put(byte) => write!(to, "byte {byte:02x}"),
            Mark::Faulted(number) => write!(to, "fault {number}"),
        }
    }
}

impl Happening {
    /// The byte that an instruction puts.
    pub fn byte(self) -> Option<u8> {
        match self {
            Happening::Ran {
                mark: Mark::Put(byte),
                ..
            } => Some(byte),
            _ => None,
        }
    }

    /// Puts its line, without a line feed.
    ///
    /// # Errors
    ///
    /// Memory is refused.
    pub fn push(self, to: &mut String) -> Result<(), AllocError> {
        match self {
            Happening::Idle => to.push_str("idle"),
            Happening::Tick => to.push_str("tick"),
            Happening::Interrupt(number) => write!(to, "irq {number}"),
            Happening::Ran { thread, pc, mark } => {
                write!(to, "{thread:08x} {pc:08x} ")?;
                mark.push(to)
            }
            Happening::Wrote { address, word } => write!(to, "write {address:08x} {word:08x}"),
            Happening::Showed { address, word } => write!(to, "read {address:08x} {word:08x}"),
        }
    }
}
