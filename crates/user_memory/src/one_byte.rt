//! Memory for instructions that reach none.

ghost use Rattle.user_memory.specs.Reaching.{one_byte};

use model::{Access, MemoryFault};
use rv32_exec::View;

/// Memory of one byte, at the address 0.
#[derive(Drop)]
pub(crate) struct OneByte {
    bytes: [u8; 1],
}

impl OneByte {
    /// The byte is 0.
    #[inline]
    pub(crate) fn new() -> OneByte {
        OneByte { bytes: [0] }
    }
}

impl View for OneByte {
    ghost content = { λ memory. one_byte memory.bytes };

    ghost Rest = { Unit {0} };

    ghost rest = { λ memory. tt };

    fn place(&self, address: u32, access: Access) -> Result<u32, MemoryFault> {
        if address < 1 {
            Ok(address)
        } else {
            Err(MemoryFault { address, access })
        }
    }

    fn byte(&self, place: u32) -> u8 {
        self.bytes[place as usize]
    }

    fn set_byte(&mut self, place: u32, value: u8) {
        self.bytes[place as usize] = value;
    }
}
