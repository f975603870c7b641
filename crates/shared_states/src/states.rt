//! States: maps from numbers of 63 bits, which share what is the same.

ghost use Rattle.std.specs.Prelude.{ℕ, ◌≡◌, ◌≢◌, ◌<◌, ◌^◌, IfOk, None, true};
ghost use Rattle.shared_states.specs.States.{IsIn, KeepsTrees, at_number, in_puts};

use crate::{Puts, Sames, Trees};
use std::alloc::{AllocError, Global};
use std::marker::Model;

/// How many bits a number has.
const HEIGHT: u32 = 63;

/// States, each a map from numbers to values, and which of them were found to be the same: so all comparisons together cost at most what
/// the states have of their own. A clause sees the list of what they share.
#[derive(Drop)]
pub struct States {
    trees: Trees,
    sames: Sames,
}

impl Model for States {
    ghost use Rattle.std.specs.Prelude.{List};
    ghost use Rattle.shared_states.specs.Entries.{AreNoted};
    ghost use Rattle.shared_states.specs.declared.entries.Entry.{Entry};

    ghost Value = { List Entry };

    ghost view = { λ states. states.trees };

    ghost invariant = { λ states. AreNoted states.trees states.sames };
}

impl States {
    /// The empty state alone.
    ///
    /// # Errors
    ///
    /// Memory may be refused.
    pub fn new(alloc: Global) -> Result<Self, AllocError> {
        let trees = Trees::new(alloc)?;
        Ok(States {
            trees,
            sames: Sames::new(alloc),
        })
    }

    /// Whether there is a state of this number.
    pub fn has(&self, state: u32) -> bool
        ensures { result ≡ true → IsIn self.now state }
    {
        self.trees.has(state)
    }

    /// The empty state, which there always is.
    pub fn empty(&self) -> u32
        ensures within { IsIn self.now result }
        ensures nothing { (key : ℕ) → at_number self.now result key ≡ None }
    {
        self.trees.empty()
    }

    /// What a state holds at a number.
    pub fn get(&self, state: u32, key: u64) -> Option<u64>
        ensures { result ≡ at_number self.now state key }
    {
        self.trees.get(HEIGHT, state, key)
    }

    /// A state that holds what is put at numbers, and else what another one holds. All other states stay. It costs what is put: numbers
    /// near one another share their way. Where another state holds that already, it may be a new one all the same.
    ///
    /// # Errors
    ///
    /// Memory may be refused, or a list has 2^32 entries: then all states stay as they were.
    pub fn with(&mut self, state: u32, puts: &Puts) -> Result<u32, AllocError>
        requires { IsIn self.old state }
        ensures within { IfOk result (IsIn self.new) }
        ensures held { IfOk result (λ made. (key : ℕ) → key < 2 ^ 63 → at_number self.new made key ≡ in_puts puts.now key (at_number self.old state key)) }
        ensures kept { KeepsTrees self.old self.new }
    {
        let made = self.trees.with(HEIGHT, state, 0, puts)?;
        Ok(made)
    }

    /// Whether two states are the same: they hold the same at all numbers. It costs what differs and was not found before, up to the first
    /// difference.
    ///
    /// # Errors
    ///
    /// Memory may be refused.
    pub fn is_same(&mut self, one: u32, other: u32) -> Result<bool, AllocError>
        requires one { IsIn self.old one }
        requires other { IsIn self.old other }
        ensures same { IfOk result (λ is. (key : ℕ) → is ≡ true → at_number self.new one key ≡ at_number self.new other key) }
        ensures differ { IfOk result (λ is. ((key : ℕ) → key < 2 ^ 63 → at_number self.new one key ≡ at_number self.new other key) → is ≡ true) }
        ensures kept { self.new ≡ self.old }
    {
        let is = self.trees.is_same(HEIGHT, one, other, &mut self.sames)?;
        Ok(is)
    }

    /// Whether two states hold the same at all numbers at which a third one holds something: `false` says nothing. It costs what differs
    /// there, up to the first difference.
    pub fn agree(&self, one: u32, other: u32, asked: u32) -> bool
        ensures { (key : ℕ) → result ≡ true → at_number self.now asked key ≢ None → at_number self.now one key ≡ at_number self.now other key }
    {
        self.trees.agree(HEIGHT, one, other, asked)
    }
}
