//! The words of a slot.

ghost use Rattle.std.specs.Prelude.{ℕ, ◌≡◌, ◌+◌, ◌*◌, ◌%◌, ◌^◌, ◌<◌, ◌≤◌, [], ◌∷◌, drop, length, max, replicate, take};
ghost use Rattle.model.specs.Shared.Bytes.{word_bytes, written};
ghost use Rattle.pmem.specs.Words.{words_bytes};
ghost use Rattle.packed_slots.specs.Words.{back_word, blanked, depth_in, is_one, link_word, next_in, previous_in, with_back};
ghost use Rattle.packed_slots.specs.Words.{with_back_at, with_link, with_next_at, with_word, word_of};

use model::Slot;
use pmem::Mem;
use std::marker::Model;

/// Bytes of a slot.
pub(crate) const SLOT_SIZE: u32 = 16;

/// One in the field of a depth.
const DEPTH: u32 = 0x10_0000;

/// How many depths there are.
const DEPTHS: u32 = 0x100;

/// The bit that is set where there is a next slot.
const HAS_NEXT: u32 = 0x1000_0000;

/// The bit that is set where there is a previous slot, one above the field of its number.
const HAS_PREVIOUS: u32 = 0x10_0000;

/// The bytes of the machine: those of whole slots.
#[derive(Drop)]
pub(crate) struct SlotMemory {
    pub(crate) bytes: Mem,
}

impl Model for SlotMemory {
    ghost use Rattle.std.specs.Prelude.{ℕ, ◌≡◌, ◌%◌, List, length};

    ghost Value = { List ℕ };

    ghost view = { λ memory. memory.bytes };

    ghost invariant = { λ memory. length memory.bytes % 16 ≡ 0 };
}

/// One of the four words of a slot: 0 beyond the end of memory.
#[tactic(auto, using(crate::proofs::WordsBehind::word_past))]
pub(crate) fn word(memory: &SlotMemory, slot: Slot, number: u32) -> u32
    requires { number < 4 }
    ensures { result ≡ word_of memory.now slot number }
{
    let place = SLOT_SIZE * slot.number() + 4 * number;
    if place >= memory.bytes.len() {
        return 0;
    }
    memory.bytes.read32(place)
}

/// The slot after another.
pub(crate) fn next(memory: &SlotMemory, slot: Slot) -> Option<Slot>
    ensures { result ≡ next_in (word_of memory.now slot 2) }
{
    let word = word(memory, slot, 2);
    if word / HAS_NEXT == 1 {
        Some(Slot::new(word % DEPTH))
    } else {
        None
    }
}

/// The depth of a slot: 0 beyond the end of memory.
pub(crate) fn depth(memory: &SlotMemory, slot: Slot) -> u32
    ensures value { result ≡ depth_in (word_of memory.now slot 2) }
    ensures small { result < 256 }
    ensures inside { 0 < result → 16 * (slot + 1) ≤ length memory.now }
{
    let _ = &memory.bytes;
    word(memory, slot, 2) / DEPTH % DEPTHS
}

/// The slot before another.
pub(crate) fn previous(memory: &SlotMemory, slot: Slot) -> Option<Slot>
    ensures { result ≡ previous_in (word_of memory.now slot 3) }
{
    let word = word(memory, slot, 3);
    if word / HAS_PREVIOUS == 1 {
        Some(Slot::new(word % HAS_PREVIOUS))
    } else {
        None
    }
}

/// Writes one of the four words of a slot.
pub(crate) fn put_word(memory: &mut SlotMemory, slot: Slot, number: u32, word: u32)
    requires inside { 16 * (slot + 1) ≤ length memory.old }
    requires small { number < 4 }
    ensures bytes { memory.new ≡ with_word memory.old slot number word }
    ensures size { length memory.new ≡ length memory.old }
{
    memory
        .bytes
        .write32(SLOT_SIZE * slot.number() + 4 * number, word);
}

/// Word 2, of the next slot and the depth.
fn link_word(next: &Option<Slot>, depth: u32) -> u32
    requires { depth < 256 }
    ensures { result ≡ link_word next.now depth }
{
    match next {
        Some(slot) => slot.number() + DEPTH * depth + HAS_NEXT,
        None => DEPTH * depth,
    }
}

/// Word 3, of the previous slot.
fn back_word(previous: &Option<Slot>) -> u32
    ensures { result ≡ back_word previous.now }
{
    match previous {
        Some(slot) => slot.number() + HAS_PREVIOUS,
        None => 0,
    }
}

/// Writes the next slot and the depth of a slot.
pub(crate) fn put_link(memory: &mut SlotMemory, slot: Slot, next: &Option<Slot>, depth: u32)
    requires inside { 16 * (slot + 1) ≤ length memory.old }
    requires small { depth < 256 }
    ensures bytes { memory.new ≡ with_link memory.old slot next.now depth }
    ensures size { length memory.new ≡ length memory.old }
{
    put_word(memory, slot, 2, link_word(next, depth));
}

/// Writes the previous slot of a slot.
pub(crate) fn put_back(memory: &mut SlotMemory, slot: Slot, previous: &Option<Slot>)
    requires inside { 16 * (slot + 1) ≤ length memory.old }
    ensures bytes { memory.new ≡ with_back memory.old slot previous.now }
    ensures size { length memory.new ≡ length memory.old }
{
    put_word(memory, slot, 3, back_word(previous));
}

/// Writes zero into the bytes of so many slots.
pub(crate) fn blank(memory: &mut SlotMemory, slot: Slot, count: u32)
    requires { 16 * (slot + count) ≤ length memory.old }
    ensures bytes { memory.new ≡ blanked memory.old slot count }
    ensures size { length memory.new ≡ length memory.old }
{
    prove!(count <= memory.bytes.len());
    memory
        .bytes
        .zero(SLOT_SIZE * slot.number(), SLOT_SIZE * count);
}

/// Whether there is a slot, and it is this one.
pub(crate) fn is_slot(found: Option<Slot>, slot: Slot) -> bool
    ensures { result ≡ is_one slot found }
{
    match found {
        Some(other) => other.number() == slot.number(),
        None => false,
    }
}

impl SlotMemory {
    /// Writes one byte.
    pub(crate) fn write8(&mut self, offset: u32, byte: u8)
        requires { offset < length self.old }
        ensures { self.new ≡ written self.old offset (byte ∷ []) }
    {
        self.bytes.write8(offset, byte);
    }

    /// Writes a number into four bytes, the lowest first.
    pub(crate) fn write32(&mut self, offset: u32, word: u32)
        requires { offset + 4 ≤ length self.old }
        ensures { self.new ≡ written self.old offset (word_bytes word) }
    {
        self.bytes.write32(offset, word);
    }

    /// Writes numbers into four bytes each, one after the other, the lowest byte of each first.
    pub(crate) fn write_words(&mut self, offset: u32, words: &[u32])
        requires { offset + 4 * length words.now ≤ length self.old }
        ensures { self.new ≡ written self.old offset (words_bytes words.now) }
    {
        self.bytes.write_words(offset, words);
    }

    /// Copies `count` words of four bytes each from one place to another, as they were before.
    pub(crate) fn copy_words(&mut self, source: u32, target: u32, count: u32)
        requires { max source target + 4 * count ≤ length self.old }
        ensures { self.new ≡ written self.old target (take (4 * count) (drop source self.old)) }
    {
        self.bytes.copy_words(source, target, count);
    }

    /// Writes zero into `count` bytes.
    pub(crate) fn zero(&mut self, offset: u32, count: u32)
        requires { offset + count ≤ length self.old }
        ensures { self.new ≡ written self.old offset (replicate count 0) }
    {
        self.bytes.zero(offset, count);
    }
}
