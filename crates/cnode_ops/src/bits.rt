//! Bits of a word of 64.

ghost use Rattle.std.specs.Prelude.{ℕ, ◌≡◌, ◌≢◌, ◌==◌, ◌%◌, ◌<◌};
ghost use Rattle.std.specs.Int.{bit_at};

/// How many bits a word has.
const BITS: u32 = 64;

/// Whether a bit of a word is 1, counted modulo 64.
pub(crate) fn has_bit(word: u64, bit: u32) -> bool
    ensures { result ≡ (bit_at word (bit % 64) == 1) }
{
    word >> (bit % BITS) & 1 == 1
}

/// A word with one bit set, counted modulo 64.
pub(crate) fn with_bit(word: u64, bit: u32) -> u64
    ensures own { bit_at result (bit % 64) ≡ 1 }
    ensures others { (i : ℕ) → i < 64 → i ≢ bit % 64 → bit_at result i ≡ bit_at word i }
{
    word | 1 << (bit % BITS)
}
