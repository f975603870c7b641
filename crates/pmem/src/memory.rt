//! The bytes of the machine.

ghost use Rattle.std.specs.Prelude.{◌≡◌, ◌+◌, ◌*◌, ◌^◌, ◌<◌, ◌≤◌, [], ◌∷◌, IfOk, OnOk, drop, length, max, replicate, slice_index, take};
ghost use Rattle.model.specs.Shared.Bytes.{AreBytes, word_at, word_bytes, written};
ghost use Rattle.pmem.specs.Words.{words_at, words_bytes};

use byteorder::{ByteOrder, LittleEndian};
use std::alloc::{AllocError, Global};
use std::marker::Model;

/// The physical memory of a machine, 2^16 to 2^24 bytes. Places in it are offsets in bytes from its
/// first byte. A clause sees the list of its bytes.
#[derive(Drop)]
pub struct Mem {
    bytes: Vec<u8>,
}

impl Model for Mem {
    ghost use Rattle.std.specs.Prelude.{ℕ, List, length, ◌^◌, ◌≤◌};
    ghost use Rattle.model.specs.Shared.Bytes.{AreBytes};

    ghost Value = { List ℕ };

    ghost view = { λ memory. memory.bytes.items };

    ghost invariant = { λ memory. (length memory.bytes.items ≤ 2 ^ 24) × AreBytes memory.bytes.items };
}

impl Mem {
    /// Memory of 2^`bits` bytes, all zero.
    ///
    /// # Errors
    ///
    /// Memory may be refused.
    pub fn new(alloc: Global, bits: u32) -> Result<Self, AllocError>
        requires least { 16 ≤ bits }
        requires most { bits ≤ 24 }
        ensures { IfOk result (λ memory. memory ≡ replicate (2 ^ bits) 0) }
    {
        let size = 1usize << bits;
        Ok(Mem {
            bytes: vec![in alloc; 0; size]?,
        })
    }

    /// How many bytes there are. Each is below 256.
    pub fn len(&self) -> u32
        ensures value { result ≡ length self.now }
        ensures most { result ≤ 2 ^ 24 }
        ensures bytes { AreBytes self.now }
    {
        self.bytes.len() as u32
    }

    /// The byte at `offset`.
    pub fn read8(&self, offset: u32) -> u8
        requires { offset < length self.now }
        ensures { result ≡ slice_index self.now offset }
    {
        let place = offset as usize;
        self.bytes[place]
    }

    /// The little-endian number in the four bytes from `offset` on. They may lie at any offset.
    pub fn read32(&self, offset: u32) -> u32
        requires { offset + 4 ≤ length self.now }
        ensures { result ≡ word_at self.now offset }
    {
        LittleEndian::read_u32(&self.bytes[offset as usize..])
    }

    /// Reads as many little-endian numbers of four bytes as there is room for, one after the other, from `offset` on.
    pub fn read_words(&self, offset: u32, words: &mut [u32])
        requires { offset + 4 * length words.old ≤ length self.now }
        ensures { words.new ≡ words_at self.now offset (length words.old) }
    {
        let start = offset as usize;
        LittleEndian::read_u32_into(&self.bytes[start..start + 4 * words.len()], words);
    }

    /// Writes one byte.
    pub fn write8(&mut self, offset: u32, byte: u8)
        requires { offset < length self.old }
        ensures bytes { self.new ≡ written self.old offset (byte ∷ []) }
        ensures length { length self.new ≡ length self.old }
    {
        self.bytes[offset as usize] = byte;
    }

    /// Writes a number into the four bytes from `offset` on, the lowest byte first.
    pub fn write32(&mut self, offset: u32, word: u32)
        requires { offset + 4 ≤ length self.old }
        ensures bytes { self.new ≡ written self.old offset (word_bytes word) }
        ensures length { length self.new ≡ length self.old }
    {
        let mut piece = [0; 4];
        LittleEndian::write_u32(&mut piece, word);
        let start = offset as usize;
        self.bytes[start..start + 4].copy_from_slice(&piece);
    }

    /// Writes numbers into four bytes each, one after the other, from `offset` on, the lowest byte of each first.
    pub fn write_words(&mut self, offset: u32, words: &[u32])
        requires { offset + 4 * length words.now ≤ length self.old }
        ensures bytes { self.new ≡ written self.old offset (words_bytes words.now) }
        ensures length { length self.new ≡ length self.old }
    {
        let start = offset as usize;
        LittleEndian::write_u32_into(words, &mut self.bytes[start..start + 4 * words.len()]);
    }

    /// Copies `count` words of four bytes each from `source` on to `target` on, as they were before. The two may overlap.
    pub fn copy_words(&mut self, source: u32, target: u32, count: u32)
        requires { max source target + 4 * count ≤ length self.old }
        ensures bytes { self.new ≡ written self.old target (take (4 * count) (drop source self.old)) }
        ensures length { length self.new ≡ length self.old }
    {
        let start = source as usize;
        self.bytes
            .copy_within(start..start + 4 * count as usize, target as usize);
    }

    /// Writes zero into the `count` bytes from `offset` on.
    pub fn zero(&mut self, offset: u32, count: u32)
        requires { offset + count ≤ length self.old }
        ensures bytes { self.new ≡ written self.old offset (replicate count 0) }
        ensures length { length self.new ≡ length self.old }
    {
        let start = offset as usize;
        self.bytes[start..start + count as usize].fill(0);
    }
}
