//! The objects that threads take and may change, as bits of words.

use parts::Parts;
use std::alloc::{AllocError, Global};
use wellformed::NumberSet;

/// How many objects a word has bits of.
const BITS: usize = 64;

/// The objects that a thread takes, and those that it may change: bit N % 64 of word N / 64 is object N.
#[derive(Drop)]
pub(crate) struct ThreadObjects {
    takes: Vec<u64>,
    changes: Vec<u64>,
}

/// The bit of an object in its word.
fn bit_of(object: usize) -> u64 {
    1u64 << ((object % BITS) as u32)
}

/// A word by its place, or that of no objects.
fn word_at(words: &[u64], place: usize) -> u64 {
    match words.get(place) {
        Some(word) => *word,
        None => 0,
    }
}

/// The words of those numbers of a set that are of objects, of which there are so many.
fn words_of(
    alloc: Global,
    objects: usize,
    numbers: Option<&NumberSet>,
) -> Result<Vec<u64>, AllocError> {
    let mut words = Vec::new(alloc);
    words.resize(objects / BITS + 1, 0u64)?;
    if let Some(numbers) = numbers {
        for place in 0..numbers.len() {
            let object = numbers.at(place) as usize;
            if object < objects {
                if let Some(word) = words.get_mut(object / BITS) {
                    *word |= bit_of(object);
                }
            }
        }
    }
    Ok(words)
}

/// Whether two sets have an object in common.
fn share_some(one: &[u64], other: &[u64]) -> bool {
    for (word, beside) in one.iter().zip(other.iter()) {
        if *word & *beside != 0 {
            return true;
        }
    }
    false
}

impl ThreadObjects {
    /// Those of a thread of an image with so many objects.
    pub(crate) fn of(
        alloc: Global,
        objects: usize,
        parts: &Parts<'_, '_>,
        thread: usize,
    ) -> Result<Self, AllocError> {
        Ok(ThreadObjects {
            takes: words_of(alloc, objects, parts.taken_by(thread))?,
            changes: words_of(alloc, objects, parts.changed_by(thread))?,
        })
    }

    /// Whether the thread takes something that another may change.
    pub(crate) fn takes_from(&self, other: &ThreadObjects) -> bool {
        share_some(self.takes.as_slice(), other.changes.as_slice())
    }
}

/// What one thread takes and another may change.
#[derive(Clone, Copy)]
pub(crate) struct Between<'o> {
    taker: &'o ThreadObjects,
    other: &'o ThreadObjects,
    /// Whether those objects count that are so the other way, too.
    has_both: bool,
}

impl<'o> Between<'o> {
    pub(crate) fn new(taker: &'o ThreadObjects, other: &'o ThreadObjects, has_both: bool) -> Self {
        Between {
            taker,
            other,
            has_both,
        }
    }

    /// How many words there are.
    pub(crate) fn places(&self) -> usize {
        self.taker.takes.len()
    }

    /// The objects with the word at a place that are so the other way.
    fn turned(&self, place: usize) -> u64 {
        word_at(self.other.takes.as_slice(), place) & word_at(self.taker.changes.as_slice(), place)
    }

    /// The objects with the word at a place.
    pub(crate) fn word(&self, place: usize) -> u64 {
        let taken = word_at(self.taker.takes.as_slice(), place)
            & word_at(self.other.changes.as_slice(), place);
        if self.has_both {
            taken
        } else {
            taken & !self.turned(place)
        }
    }

    /// How many objects there are.
    pub(crate) fn count(&self) -> u32 {
        let mut count = 0u32;
        for place in 0..self.places() {
            count = count.saturating_add(self.word(place).count_ones());
        }
        count
    }

    /// Whether an object is so the other way.
    pub(crate) fn is_both(&self, object: usize) -> bool {
        self.turned(object / BITS) & bit_of(object) != 0
    }
}

/// The first object with a word at a place.
pub(crate) fn first_object(place: usize, word: u64) -> usize {
    place
        .saturating_mul(BITS)
        .saturating_add(word.trailing_zeros() as usize)
}

/// A word without the first object.
pub(crate) fn without_first(word: u64) -> u64 {
    word & word.wrapping_sub(1)
}
