//! Registers and memory of a part, in the digits of packets.

use crate::debuggers::Debugger;
use debugging::{byte_seen, register_seen};
use model::Access;
use remote_packets::{push_byte, push_word};
use std::alloc::AllocError;

/// How many bytes are shown at once at most: their digits fit into a packet.
const MOST_SHOWN: u32 = 2048;

/// How many registers there are: x0 to x31, and the program counter after them.
const REGISTERS: u32 = 33;

impl Debugger<'_, '_, '_, '_> {
    /// A register of the part that is shown, as the debugger counts them: x0 to x31, and then the program counter.
    pub(crate) fn register(&self, number: u32) -> Option<u32> {
        register_seen(self.run.system(), self.thread_of(self.selected)?, number)
    }

    /// Appends all registers.
    pub(crate) fn push_registers(&self, to: &mut Vec<u8>) -> Result<(), AllocError> {
        for number in 0..REGISTERS {
            self.push_register(number, to)?;
        }
        Ok(())
    }

    /// Appends a register, or an error.
    pub(crate) fn push_register(&self, number: u32, to: &mut Vec<u8>) -> Result<(), AllocError> {
        match self.register(number) {
            Some(word) => push_word(to, word),
            None => to.extend_from_slice(b"xxxxxxxx"),
        }
    }

    /// The byte at an address of the part that is shown, where it may read it or run it.
    pub(crate) fn byte(&self, address: u32) -> Option<u8> {
        let thread = self.thread_of(self.selected)?;
        let system = self.run.system();
        match byte_seen(system, thread, address, Access::Load) {
            Some(byte) => Some(byte),
            None => byte_seen(system, thread, address, Access::Fetch),
        }
    }

    /// Appends the bytes from an address on, as far as there are some, or an error.
    pub(crate) fn push_memory(
        &self,
        address: u32,
        length: u32,
        to: &mut Vec<u8>,
    ) -> Result<(), AllocError> {
        let mut at = address;
        for _ in 0..length.min(MOST_SHOWN) {
            match self.byte(at) {
                Some(byte) => push_byte(to, byte)?,
                None => break,
            }
            at = at.wrapping_add(1);
        }
        if to.is_empty() && length > 0 {
            to.extend_from_slice(b"E03")?;
        }
        Ok(())
    }
}
