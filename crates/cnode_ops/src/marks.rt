//! A mark for each slot, so that a set of slots says of each at once whether it is one of them.

ghost use Rattle.std.specs.Prelude.{ℕ, ◌≡◌, ◌≢◌, ◌^◌, false, true, replicate};
ghost use Rattle.cnode_ops.specs.Marked.{is_marked};

use crate::bits::{has_bit, with_bit};
use model::Slot;
use std::marker::Model;

/// How many slots a word has marks of.
const WORD_SLOTS: u32 = 64;

/// Words for all slots of the largest memory.
const WORDS: usize = 0x4000;

/// For each slot, whether it is marked: one bit each. A clause sees the words of these bits.
#[derive(Drop)]
pub(crate) struct Marks {
    words: [u64; WORDS],
}

impl Model for Marks {
    ghost use Rattle.std.specs.Prelude.{ℕ, ◌≡◌, ◌^◌, List, length};

    ghost Value = { List ℕ };

    ghost view = { λ marks. marks.words };

    ghost invariant = { λ marks. length marks.words ≡ 2 ^ 14 };
}

impl Marks {
    /// No slot is marked.
    pub(crate) fn none() -> Self
        ensures { (s : ℕ) → is_marked result s ≡ false }
    {
        Marks { words: zeros() }
    }

    /// Whether a slot is marked.
    pub(crate) fn contains(&self, slot: Slot) -> bool
        ensures { result ≡ is_marked self.now slot }
    {
        let number = slot.number();
        has_bit(self.words[(number / WORD_SLOTS) as usize], number)
    }

    /// Marks a slot.
    pub(crate) fn mark(&mut self, slot: Slot)
        ensures own { is_marked self.new slot ≡ true }
        ensures others { (s : ℕ) → s ≢ slot → is_marked self.new s ≡ is_marked self.old s }
    {
        let number = slot.number();
        let at = (number / WORD_SLOTS) as usize;
        self.words[at] = with_bit(self.words[at], number);
    }
}

/// Words without a bit.
fn zeros() -> [u64; WORDS]
    ensures { result ≡ replicate (2 ^ 14) 0 }
{
    [0; WORDS]
}
