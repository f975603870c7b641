//! What happens to the machine from outside.

/// One event. Each gives one [`crate::Label`] of the trace.
#[derive(Clone, Copy, Debug, PartialEq, Eq)]
pub enum Event {
    /// The current thread runs one instruction.
    Step,
    /// The timer ticks.
    Tick,
    /// An interrupt line is raised. Lines above 63 do nothing.
    Irq(u8),
    /// The world outside stores a word into a frame. Elsewhere it does nothing.
    Write {
        /// The physical address of its first byte.
        address: u32,
        /// The word, whose lowest byte comes first.
        word: u32,
    },
    /// The world outside looks at a word of a frame. Elsewhere it sees 0.
    Read {
        /// The physical address of its first byte.
        address: u32,
    },
}
