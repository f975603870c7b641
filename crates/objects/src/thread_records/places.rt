//! Where the fields of a record lie, in bytes from the first of the thread.

/// The address of the next instruction, in a word.
pub(crate) const PC: u32 = 48;

/// The priority, in the low byte of a word.
pub(crate) const PRIORITY: u32 = 52;

/// The ticks that are left, in the low byte of a word.
pub(crate) const SLICE: u32 = 56;

/// Where faults go, in a word.
pub(crate) const FAULT_ADDRESS: u32 = 60;

/// Registers 0 to 31, in a word each.
pub(crate) const REGISTERS: u32 = 64;

/// The code of the status, and the queue that it names.
pub(crate) const STATUS: u32 = 192;

/// Whether there is a right to reply, and to whom.
pub(crate) const CALLER: u32 = 200;

/// What is sent, in nine words.
pub(crate) const SENDING: u32 = 208;

/// Where the record begins.
pub(crate) const FIRST: u32 = 48;

/// How many bytes the record has.
pub(crate) const LENGTH: u32 = 196;
