//! Sets of the numbers of objects, of which two with nothing in common are soon told apart.

ghost use Rattle.std.specs.Prelude.{ℕ, ◌≡◌, ◌==◌, ◌/◌, ◌%◌, ◌<◌, ◌&&◌, not, false, true, IfErr, IfOk, OnOk, bit_and, length, slice_index_or};
ghost use Rattle.std.specs.Int.{bit_at};
ghost use Rattle.model.specs.Acceptance.ThreadRules.{is_member};
ghost use Rattle.model.specs.declared.refusals.Refusal.TheVariants.{OutOfMemory};
ghost use Rattle.parts.specs.ObjectSets.{AreMarked, ShareNoBit, has_bit};

use model::Refusal;
use std::alloc::Global;
use std::marker::Model;
use wellformed::NumberSet;

/// How many numbers a word has bits of.
const BITS: usize = 64;

/// A set of numbers, in the order in which they were put in. Each has a bit: that of number N is bit N % 64 of word N / 64.
#[derive(Drop)]
pub(crate) struct ObjectSet {
    numbers: NumberSet,
    words: Vec<u64>,
}

impl Model for ObjectSet {
    ghost use Rattle.std.specs.Prelude.{ℕ, List};
    ghost use Rattle.parts.specs.ObjectSets.{AreMarked};

    ghost Value = { List ℕ };

    ghost view = { λ s. s.numbers };

    ghost invariant = { λ s. AreMarked s.numbers s.words.items };
}

impl ObjectSet {
    /// The set of these numbers. Memory may be refused.
    pub(crate) fn of(alloc: Global, numbers: NumberSet) -> Result<ObjectSet, Refusal>
        ensures numbers { IfOk result (λ set. set ≡ numbers) }
        ensures memory { IfErr result (λ refusal. refusal ≡ OutOfMemory) }
    {
        let words = words_of(alloc, &numbers)?;
        Ok(ObjectSet { numbers, words })
    }

    /// Its numbers.
    pub(crate) fn numbers(&self) -> &NumberSet
        ensures { result.now ≡ self.now }
    {
        let _ = &self.words;
        &self.numbers
    }

    /// Whether the number is in the set.
    pub(crate) fn contains(&self, number: u32) -> bool
        ensures { result ≡ is_member number self.now }
    {
        let _ = &self.words;
        self.numbers.contains(number)
    }

    /// Whether it is seen at once that no number is in both sets.
    pub(crate) fn is_apart(&self, other: &ObjectSet) -> bool
        ensures { result ≡ true → (n : ℕ) → (is_member n self.now && is_member n other.now) ≡ false }
    {
        let _ = &self.numbers;
        let _ = &other.numbers;
        share_no_bit(self.words.as_slice(), other.words.as_slice())
    }
}

/// A word by its place, or that of no numbers.
fn word_at(words: &[u64], place: usize) -> u64
    ensures { result ≡ slice_index_or words.now place 0 }
{
    match words.get(place) {
        Some(word) => *word,
        None => 0,
    }
}

/// Whether two words at a place have a bit in common.
fn share_bit(one: &[u64], other: &[u64], place: usize) -> bool
    ensures { result ≡ not (bit_and (slice_index_or one.now place 0) (slice_index_or other.now place 0) == 0) }
{
    word_at(one, place) & word_at(other, place) != 0
}

/// Whether no two words at one place have a bit in common.
fn share_no_bit(one: &[u64], other: &[u64]) -> bool
    ensures { result ≡ true → ShareNoBit one.now other.now }
{
    for place in 0..one.len() {
        if share_bit(one, other, place) {
            return false;
        }
    }
    true
}

/// Makes the words reach up to that of a number. Memory may be refused.
fn make_room(words: &mut Vec<u64>, number: u32) -> Result<(), Refusal>
    ensures same { (k : ℕ) → slice_index_or words.new.items k 0 ≡ slice_index_or words.old.items k 0 }
    ensures room { OnOk result (number / 64 < length words.new.items) }
    ensures memory { IfErr result (λ refusal. refusal ≡ OutOfMemory) }
{
    let place = number as usize / BITS;
    if words.len() <= place {
        words.resize(place + 1, 0)?;
    }
    Ok(())
}

/// A word with one bit set, counted modulo 64.
fn with_bit(word: u64, bit: u32) -> u64
    ensures own { bit_at result (bit % 64) ≡ 1 }
    ensures kept { (i : ℕ) → bit_at word i ≡ 1 → bit_at result i ≡ 1 }
{
    word | 1 << (bit % 64)
}

/// Sets the bit of a number. Memory may be refused.
fn mark(words: &mut Vec<u64>, number: u32) -> Result<(), Refusal>
    ensures own { OnOk result (has_bit words.new.items number ≡ true) }
    ensures kept { OnOk result ((n : ℕ) → has_bit words.old.items n ≡ true → has_bit words.new.items n ≡ true) }
    ensures memory { IfErr result (λ refusal. refusal ≡ OutOfMemory) }
{
    make_room(words, number)?;
    let place = number as usize / BITS;
    words[place] = with_bit(words[place], number);
    Ok(())
}

/// The words with the bits of all numbers. Memory may be refused.
fn words_of(alloc: Global, numbers: &NumberSet) -> Result<Vec<u64>, Refusal>
    ensures marked { IfOk result (λ words. AreMarked numbers.now words.items) }
    ensures memory { IfErr result (λ refusal. refusal ≡ OutOfMemory) }
{
    let mut words = Vec::new(alloc);
    for place in 0..numbers.len() {
        mark(&mut words, numbers.at(place))?;
    }
    Ok(words)
}
