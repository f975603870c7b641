//! Sections: entries of one size, one after the other, whose keys rise.

ghost use Rattle.std.specs.Prelude.{◌≡◌, ◌+◌, ◌<◌, ◌^◌, ℕ, IfOk, Some, None, if◌then◌else◌, is_ok, length, map, slice_get, true};
ghost use Rattle.std.specs.Iterator.{YieldsFirst, item_count};
ghost use Rattle.model.specs.Images.Format.{Format, end_of, ordered, values_of};
ghost use Rattle.image_reading.specs.Sizes.{HasSize};
ghost use Rattle.image_reading.specs.image_entries.Keys.{DoRise, IsPlaceOf};
ghost use Rattle.image_reading.specs.declared.entries.Counts.{Counts};

use crate::fields::item_offset;
use crate::spelled::Spelled;
use model::Refusal;
use std::marker::{Model, PhantomData};

/// What the ranges of an entry's fields depend on.
#[derive(Clone, Copy, Drop)]
pub struct Counts {
    pub version: u32,
    pub untypeds: u32,
    pub objects: u32,
    pub interrupts: u32,
    /// How many words the program of the thread at hand has.
    pub words: u32,
}

impl Counts {
    /// The same counts, for a thread whose program has so many words.
    pub fn with_words(self, words: u32) -> Counts
        ensures { result ≡ record self { words = words } }
    {
        Counts { words, ..self }
    }
}

/// Something that has a key, by which those of its kind are in order.
pub trait Keyed {
    /// The key. It is 0 where there is no order.
    ghost key: { Self → ℕ };

    fn key(&self) -> u64
        ensures { result ≡ key self.now };
}

/// Something that a section lists: an entry, or one with lists of its own.
pub trait Listed: Keyed + Spelled {
    /// The format of one whose key is not below a number.
    ghost format: { Counts → ℕ → Format Self };

    /// The least key of the one after it.
    ghost next: { Self → ℕ };

    /// The least key of the one after this one, if the key of this one is not below `least` and all its
    /// fields are in their ranges.
    fn fits(&self, counts: Counts, least: u64) -> Option<u64>
        ensures { result ≡ (if (format counts least).fits self.now then Some (next self.now) else None) };
}

/// An entry of a section, all of whose fields are numbers.
pub trait Entry: Listed + Sized + Drop {
    /// How many bytes each of its kind has.
    fn size() -> usize
        ensures { (counts : Counts) (least : ℕ) → HasSize result (Self.format counts least) (Self.format counts 0) };

    /// The entry at `at` and the offset after it. Its key is not below `least`.
    ///
    /// # Errors
    ///
    /// The bytes end within it, or hold no such entry.
    fn read(bytes: &[u8], at: usize, counts: Counts, least: u64) -> Result<(Self, usize), Refusal>
        ensures reads { result ≡ (Self.format counts least).reads bytes.now at }
        ensures bounded { IfOk result (λ x. Self.next x.0 < 2 ^ 64) };

    fn least_after(&self) -> u64
        requires { Self.next self.now < 2 ^ 64 }
        ensures { result ≡ Self.next self.now };
}

/// The offset after `count` entries from `start`, the first of which has a key not below `first`.
pub(crate) fn entries_end<E: Entry>(
    bytes: &[u8],
    start: usize,
    counts: Counts,
    first: u64,
    count: u32,
) -> Result<usize, Refusal>
    ensures { result ≡ end_of ((ordered first (E.format counts) E.next count).reads bytes.now start) }
{
    let mut at = start;
    let mut least = first;
    for _ in 0..count {
        let (entry, next) = E::read(bytes, at, counts, least)?;
        least = entry.least_after();
        at = next;
    }
    Ok(at)
}

/// A section: its entries in rising order of their keys, lent from the file.
#[derive(Drop)]
pub struct Section<'a, E: Entry> {
    pub(crate) bytes: &'a [u8],
    pub(crate) at: usize,
    pub(crate) counts: Counts,
    pub(crate) least: u64,
    pub(crate) left: u32,
    pub(crate) kind: PhantomData<E>,
}

impl<'a, E: Entry> Model for Section<'a, E> {
    ghost use Rattle.std.specs.Prelude.{◌≡◌, List, true, is_ok};
    ghost use Rattle.model.specs.Images.Format.{many_read, values_of};

    ghost Value = { List E };

    ghost view = { λ r. values_of (many_read (E.format r.counts) E.next r.least r.left r.bytes.now r.at) };

    ghost invariant = { λ r. is_ok (many_read (E.format r.counts) E.next r.least r.left r.bytes.now r.at) ≡ true };
}

impl<'a, E: Entry> Section<'a, E> {
    /// The `count` entries from `at`, the first of which has a key not below `first`.
    pub(crate) fn new(
        bytes: &'a [u8],
        at: usize,
        counts: Counts,
        first: u64,
        count: u32,
    ) -> Section<'a, E>
        requires { is_ok (end_of ((ordered first (E.format counts) E.next count).reads bytes.now at)) ≡ true }
        ensures { result ≡ values_of ((ordered first (E.format counts) E.next count).reads bytes.now at) }
    {
        Section {
            bytes,
            at,
            counts,
            least: first,
            left: count,
            kind: PhantomData,
        }
    }

    /// Entry `number` of those that are left.
    pub fn entry(&self, number: u32) -> E
        requires { number < length self.now }
        ensures { slice_get self.now number ≡ Some result }
    {
        let at = item_offset(self.bytes.len(), self.at, E::size(), number);
        match E::read(self.bytes, at, self.counts, 0) {
            Ok((entry, _)) => entry,
            Err(_) => unreachable!(),
        }
    }

    /// How many keys are left.
    fn key_count(&self) -> u32
        ensures { result ≡ length (map E.key self.now) }
    {
        self.left
    }

    /// Key `number` of those that are left.
    fn key_at(&self, number: u32) -> u64
        requires { number < length (map E.key self.now) }
        ensures { slice_get (map E.key self.now) number ≡ Some result }
    {
        self.entry(number).key()
    }

    /// How many of the keys are below a number. It halves those that are left.
    pub(crate) fn place_of(&self, number: u64) -> u32
        requires { DoRise (map E.key self.now) }
        ensures { IsPlaceOf number (map E.key self.now) result }
    {
        let mut low = 0;
        let mut high = self.key_count();
        while low < high {
            let middle = low + (high - low) / 2;
            if self.key_at(middle) < number {
                low = middle + 1;
            } else {
                high = middle;
            }
        }
        low
    }
}

impl<'a, E: Entry> Iterator for Section<'a, E> {
    type Item = E;

    ghost next_gives = { YieldsFirst (λ s. s) };

    ghost remaining = { item_count (λ s. s) };

    fn next(&mut self) -> Option<E> {
        if self.left == 0 {
            return None;
        }
        match E::read(self.bytes, self.at, self.counts, self.least) {
            Ok((entry, next)) => {
                self.least = entry.least_after();
                self.at = next;
                self.left -= 1;
                Some(entry)
            }
            Err(_) => unreachable!(),
        }
    }
}
