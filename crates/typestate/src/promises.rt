//! What the endpoints of an image promise of their messages, found by where the endpoints lie. Such promises are this project's own.

ghost use Rattle.std.specs.Prelude.{ℕ, ◌≡◌, ◌==◌, ◌≤◌, [], IfOk, None, Some, if◌then◌else◌, length, option_map};
ghost use Rattle.std.specs.Option.{option_or};
ghost use Rattle.model.specs.Acceptance.Promises.{promise_at};
ghost use Rattle.model.specs.Acceptance.RangeRules.{range};
ghost use Rattle.ranges.specs.Orders.{IsOrdered};
ghost use Rattle.typestate.specs.Promises.{placed_at, range_at};

use crate::Space;
use image_reading::{PromiseRef, Section};
use model::{PromisedWord, Range};
use std::alloc::{AllocError, Global};
use std::collections::btree_map::BTreeMap;
use std::marker::Model;

/// What is promised of the messages to an endpoint: no range of it is empty, and its words have registers.
#[derive(Drop)]
pub struct MessagePromise<'a> {
    pub promise: PromiseRef<'a>,
}

impl<'a> Model for MessagePromise<'a> {
    ghost use Rattle.model.specs.Images.Image.{ImagePromise};
    ghost use Rattle.typestate.specs.Promises.{IsPromise};

    ghost Value = { ImagePromise };

    ghost view = { λ promise. promise.promise };

    ghost invariant = { λ promise. IsPromise promise.promise };
}

impl<'a> MessagePromise<'a> {
    /// The badges of the messages.
    pub fn badges(&self) -> Range
        ensures value { result ≡ range self.now.header.badge_low self.now.header.badge_high }
        ensures ordered { IsOrdered result }
    {
        let header = self.promise.header();
        Range {
            low: header.badge_low,
            high: header.badge_high,
        }
    }

    /// How many words are promised.
    pub fn count(&self) -> u32
        ensures { result ≡ length self.now.words }
    {
        self.promise.header().words
    }

    /// The ranges of the promised words, from the first word on.
    pub fn words(&self) -> Section<'a, PromisedWord>
        ensures value { result ≡ self.now.words }
        ensures few { length result ≤ 8 }
    {
        self.promise.words()
    }

    /// The range of a word: any value where nothing is promised of it.
    pub(crate) fn word_range(&self, index: u32) -> Range
        ensures value { result ≡ range_at self.now.words index }
        ensures ordered { IsOrdered result }
    {
        if index >= self.count() {
            return Range::FULL;
        }
        let word = self.promise.words().entry(index);
        Range {
            low: word.low,
            high: word.high,
        }
    }
}

/// The promises of an image by the offsets of their endpoints. A clause sees their list.
#[derive(Drop)]
pub struct PlacedPromises<'a> {
    placed: BTreeMap<u32, MessagePromise<'a>>,
}

impl<'a> Model for PlacedPromises<'a> {
    ghost use Rattle.std.specs.Prelude.{ℕ, List};
    ghost use Rattle.model.specs.Images.Image.{ImagePromise};

    ghost Value = { List (ℕ × ImagePromise) };

    ghost view = { λ promises. promises.placed.entries };
}

impl<'a> PlacedPromises<'a> {
    /// None.
    pub fn new(alloc: Global) -> Self
        ensures { result ≡ [] }
    {
        PlacedPromises {
            placed: BTreeMap::new(alloc),
        }
    }

    /// Puts what is promised at an offset among the others, unless something is promised there already.
    ///
    /// # Errors
    ///
    /// Memory may be refused.
    pub fn put(&mut self, offset: u32, promise: MessagePromise<'a>) -> Result<(), AllocError>
        ensures { IfOk result (λ _. (other : ℕ) → placed_at self.new other
            ≡ option_or (placed_at self.old other) (if offset == other then Some promise.entry else None)) }
    {
        match self.placed.get(&offset) {
            Some(_) => Ok(()),
            None => {
                self.placed.insert(offset, promise)?;
                Ok(())
            }
        }
    }

    /// What is promised at an offset.
    pub(crate) fn at(&self, offset: u32) -> Option<&MessagePromise<'a>>
        ensures { option_map (λ p. p.now) result ≡ placed_at self.now offset }
    {
        self.placed.get(&offset)
    }
}

impl<'a> Space<'a, '_> {
    /// What is promised of the messages to the endpoint at an offset.
    pub fn promise_at(&self, endpoint: u32) -> Option<&MessagePromise<'a>>
        ensures { option_map (λ p. p.now) result ≡ promise_at self.now.image.now endpoint }
    {
        self.promises.at(endpoint)
    }
}
