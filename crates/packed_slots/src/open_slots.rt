//! Which slots are open.

ghost use Rattle.std.specs.Prelude.{ℕ, ◌≡◌, ◌≢◌, ◌==◌, ◌+◌, ◌*◌, ◌%◌, ◌^◌, ◌<◌, ◌≤◌, Bool, false, IfOk, length, replicate, if◌then◌else◌};
ghost use Rattle.std.specs.Int.{bit_at};
ghost use Rattle.model.specs.Capabilities.Slots.{is_within};
ghost use Rattle.packed_slots.specs.Bits.{is_bit};
ghost use Rattle.packed_slots.specs.Packing.{is_open_in};

use model::Slot;
use std::alloc::{AllocError, Global};
use std::marker::Model;

/// How many slots a word has a bit for.
const WORD_SLOTS: u32 = 64;

/// For each slot, whether it is open: one bit each. A clause sees the list of it.
#[derive(Drop)]
pub(crate) struct OpenSlots {
    words: Vec<u64>,
    count: u32,
}

impl Model for OpenSlots {
    ghost use Rattle.std.specs.Prelude.{Bool, List};
    ghost use Rattle.packed_slots.specs.Bits.{IsBits, bits_of};

    ghost Value = { List Bool };

    ghost view = { λ slots. bits_of slots.words.items slots.count };

    ghost invariant = { λ slots. IsBits slots.words.items slots.count };
}

impl OpenSlots {
    /// So many slots, none of them open.
    pub(crate) fn closed(alloc: Global, count: u32) -> Result<Self, AllocError>
        requires { count ≤ 2 ^ 20 }
        ensures { IfOk result (λ slots. slots ≡ replicate count false) }
    {
        let mut words = Vec::new(alloc);
        words.resize(count.div_ceil(WORD_SLOTS) as usize, 0)?;
        Ok(OpenSlots { words, count })
    }

    /// How many slots there are.
    pub(crate) fn len(&self) -> u32
        ensures value { result ≡ length self.now }
        ensures most { result ≤ 2 ^ 20 }
    {
        self.count
    }

    /// Whether a slot is open.
    pub(crate) fn contains(&self, slot: Slot) -> bool
        ensures { result ≡ is_open_in self.now slot }
    {
        slot.number() < self.count && is_set(&self.words, slot.number())
    }

    /// Opens or closes a range of slots.
    pub(crate) fn set(&mut self, first: Slot, count: u32, value: bool)
        requires { first + count ≤ length self.old }
        ensures each { (s : ℕ) → is_open_in self.new s ≡ (if is_within first count s then value else is_open_in self.old s) }
        ensures size { length self.new ≡ length self.old }
    {
        set_range(&mut self.words, first.number(), count, value);
    }
}

/// Whether a bit of a word is 1, counted modulo 64.
fn has_bit(word: u64, bit: u32) -> bool
    ensures { result ≡ (bit_at word (bit % 64) == 1) }
{
    word >> (bit % WORD_SLOTS) & 1 == 1
}

/// A word with another value of one bit, counted modulo 64.
fn with_bit(word: u64, bit: u32, value: bool) -> u64
    ensures own { (bit_at result (bit % 64) == 1) ≡ value }
    ensures others { (i : ℕ) → i < 64 → i ≢ bit % 64 → bit_at result i ≡ bit_at word i }
{
    if value {
        word | 1 << (bit % WORD_SLOTS)
    } else {
        word & !(1 << (bit % WORD_SLOTS))
    }
}

/// Whether one of the bits of a slice is 1.
fn is_set(words: &[u64], place: u32) -> bool
    requires { place < 64 * length words.now }
    ensures { result ≡ is_bit words.now place }
{
    has_bit(words[(place / WORD_SLOTS) as usize], place)
}

/// Gives one of the bits of a slice another value.
fn set_one(words: &mut [u64], place: u32, value: bool)
    requires { place < 64 * length words.old }
    ensures own { is_bit words.new place ≡ value }
    ensures others { (s : ℕ) → s ≢ place → is_bit words.new s ≡ is_bit words.old s }
{
    let at = (place / WORD_SLOTS) as usize;
    words[at] = with_bit(words[at], place, value);
}

/// Gives a range of the bits of a slice one value.
fn set_range(words: &mut [u64], first: u32, count: u32, value: bool)
    requires within { first + count ≤ 64 * length words.old }
    requires few { first + count ≤ 2 ^ 20 }
    ensures { (s : ℕ) → is_bit words.new s ≡ (if is_within first count s then value else is_bit words.old s) }
{
    'range: for place in first..first + count {
        set_one(words, place, value);
    }
}
