//! A lawful memory: some bytes from one address on, whose owner holds something else.

ghost use Rattle.std.specs.Prelude.{ℕ, ◌≡◌, Some, None, ◌+◌, ◌-◌, ◌&&◌, nat_le, nat_lt, length, slice_index, if◌then◌else◌};

use model::{Access, MemoryFault};
use rv32_exec::View;

/// Bytes from [`Flat::BASE`] on, which can be loaded, stored and fetched, and a number beside them.
#[derive(Drop)]
pub(crate) struct Flat {
    bytes: [u8; 32],
    beside: u32,
}

impl Flat {
    pub const BASE: u32 = 0x2_0000;

    pub const END: u32 = 0x2_0020;

    /// Zeros, with this number beside them.
    pub(crate) fn new(beside: u32) -> Self
        ensures { result.beside ≡ beside }
    {
        Flat {
            bytes: [0; 32],
            beside,
        }
    }

    /// The number beside the bytes. No instruction changes it.
    pub(crate) fn beside(&self) -> u32
        ensures { result ≡ self.now.beside }
    {
        self.beside
    }
}

impl View for Flat {
    ghost content = { λ memory. record {
      place = λ access address.
          if nat_le 0x20000 address && nat_lt address (0x20000 + length memory.bytes)
          then Some (address - 0x20000)
          else None;
      byte = λ place. slice_index memory.bytes place;
    } };

    ghost Rest = { ℕ };

    ghost rest = { λ memory. memory.beside };

    fn place(&self, address: u32, access: Access) -> Result<u32, MemoryFault> {
        if Flat::BASE <= address && address < Flat::END {
            Ok(address - Flat::BASE)
        } else {
            Err(MemoryFault { address, access })
        }
    }

    fn byte(&self, place: u32) -> u8 {
        self.bytes[place as usize]
    }

    fn set_byte(&mut self, place: u32, value: u8) {
        self.bytes[place as usize] = value;
    }
}
