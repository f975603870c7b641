//! Values that are put at numbers, all at once.

ghost use Rattle.std.specs.Prelude.{ℕ, ◌≡◌, ◌==◌, ◌≤◌, ◌+◌, ◌<◌, ◌^◌, IfOk, None, Some, if◌then◌else◌, true};
ghost use Rattle.shared_states.specs.Puts.{put_at};

use std::alloc::{AllocError, Global};
use std::collections::btree_map::BTreeMap;
use std::marker::Model;

/// How many numbers are below a bit.
pub(crate) fn half(height: u32) -> u64
    requires { height < 64 }
    ensures value { result ≡ 2 ^ height }
    ensures twice { (above : ℕ) → above ≡ height + 1 → 2 ^ above ≡ 2 ^ height + 2 ^ height }
{
    1 << height
}

/// Values to be put at numbers, or nothing to be left there. A clause sees their list.
#[derive(Drop)]
pub struct Puts {
    values: BTreeMap<u64, Option<u64>>,
}

impl Model for Puts {
    ghost use Rattle.std.specs.Prelude.{ℕ, List, Option};

    ghost Value = { List (ℕ × Option ℕ) };

    ghost view = { λ puts. puts.values.entries };
}

impl Puts {
    /// Nothing is put.
    pub fn new(alloc: Global) -> Self
        ensures { (key : ℕ) → put_at result key ≡ None }
    {
        Puts {
            values: BTreeMap::new(alloc),
        }
    }

    /// Puts a value at a number, or nothing, in place of what was put there.
    ///
    /// # Errors
    ///
    /// Memory may be refused: then all stays as it was.
    pub fn put(&mut self, key: u64, value: Option<u64>) -> Result<(), AllocError>
        ensures { IfOk result (λ _. (other : ℕ) → put_at self.new other ≡ (if key == other then Some value else put_at self.old other)) }
    {
        self.values.insert(key, value)?;
        Ok(())
    }

    /// What is put at a number.
    pub fn at(&self, key: u64) -> Option<Option<u64>>
        ensures { result ≡ put_at self.now key }
    {
        self.values.get(&key).copied()
    }

    /// Whether nothing is put from one number on to another one.
    fn has_none_between(&self, first: u64, end: u64) -> bool
        requires { first ≤ end }
        ensures { (key : ℕ) → result ≡ true → first ≤ key → key < end → put_at self.now key ≡ None }
    {
        let mut between = self.values.range(first..end);
        match between.next() {
            Some(_) => false,
            None => true,
        }
    }

    /// Whether nothing is put at the numbers from one on, as many as are below a bit.
    pub(crate) fn is_apart(&self, height: u32, base: u64) -> bool
        ensures { (key : ℕ) → result ≡ true → base ≤ key → key < base + 2 ^ height → put_at self.now key ≡ None }
    {
        if height >= 64 {
            return false;
        }
        match base.checked_add(half(height)) {
            Some(end) => self.has_none_between(base, end),
            None => false,
        }
    }
}
