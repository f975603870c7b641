//! Names of families: what was derived from a slot is kept by a name, which stays where that slot moves.

ghost use Rattle.std.specs.Prelude.{ℕ, ◌≡◌, ◌==◌, IfErr, IfOk, if◌then◌else◌, is_some, true};
ghost use Rattle.std.specs.Map.{lookup};
ghost use Rattle.std.specs.Ordering.{is_eq, nat_cmp};
ghost use Rattle.typestate.specs.Names.{AreInverse, renamed, turned_number};

use std::alloc::{AllocError, Global};
use std::collections::btree_map::BTreeMap;

/// Which slot stands for each name, and which name for each slot, by their numbers. A name is the number of a slot: that of the slot
/// that it stands for, unless slots have changed places.
#[derive(Drop)]
pub struct Names {
    slots: BTreeMap<u64, u64>,
    names: BTreeMap<u64, u64>,
}

/// The number that stands for another one.
fn renamed(map: &BTreeMap<u64, u64>, number: u64) -> u64
    ensures { result ≡ renamed map.now.entries number }
{
    match map.get(&number) {
        Some(other) => *other,
        None => number,
    }
}

/// Notes that a number stands for itself, if none is noted for it. Memory may be refused.
fn hold(map: &mut BTreeMap<u64, u64>, number: u64) -> Result<(), AllocError>
    ensures same { (n : ℕ) → renamed map.new.entries n ≡ renamed map.old.entries n }
    ensures kept { (n : ℕ) → is_some (lookup (λ k. is_eq (nat_cmp n k)) map.old.entries) ≡ true
        → is_some (lookup (λ k. is_eq (nat_cmp n k)) map.new.entries) ≡ true }
    ensures held { IfOk result (λ _. is_some (lookup (λ k. is_eq (nat_cmp number k)) map.new.entries) ≡ true) }
{
    match map.get(&number) {
        Some(_) => Ok(()),
        None => {
            map.insert(number, number)?;
            Ok(())
        }
    }
}

/// Notes another number in place of the one that is noted.
fn set(map: &mut BTreeMap<u64, u64>, number: u64, other: u64)
    requires held { is_some (lookup (λ k. is_eq (nat_cmp number k)) map.old.entries) ≡ true }
    ensures set { (n : ℕ) → renamed map.new.entries n ≡ (if number == n then other else renamed map.old.entries n) }
    ensures kept { (n : ℕ) → is_some (lookup (λ k. is_eq (nat_cmp n k)) map.old.entries) ≡ true
        → is_some (lookup (λ k. is_eq (nat_cmp n k)) map.new.entries) ≡ true }
{
    match map.insert(number, other) {
        Ok(_) => (),
        Err(_) => unreachable!(),
    }
}

impl Names {
    /// Each slot has its own number.
    pub(crate) fn new(alloc: Global) -> Self
        ensures { AreInverse result.slots.entries result.names.entries }
    {
        Names {
            slots: BTreeMap::new(alloc),
            names: BTreeMap::new(alloc),
        }
    }

    /// The slot that stands for a name.
    pub(crate) fn slot(&self, name: u64) -> u64
        ensures { result ≡ renamed self.now.slots.entries name }
    {
        renamed(&self.slots, name)
    }

    /// The name that stands for a slot.
    pub(crate) fn name(&self, slot: u64) -> u64
        ensures { result ≡ renamed self.now.names.entries slot }
    {
        renamed(&self.names, slot)
    }

    /// Two slots change places. Where memory is refused all stays as it was.
    pub(crate) fn swap(&mut self, one: u64, other: u64) -> Result<(), AllocError>
        requires { AreInverse self.old.slots.entries self.old.names.entries }
        ensures inverse { AreInverse self.new.slots.entries self.new.names.entries }
        ensures swapped { IfOk result (λ _. (n : ℕ) → renamed self.new.slots.entries n ≡ turned_number one other (renamed self.old.slots.entries n)) }
        ensures kept { IfErr result (λ _. (n : ℕ) → renamed self.new.slots.entries n ≡ renamed self.old.slots.entries n) }
    {
        let first = self.name(one);
        let second = self.name(other);
        hold(&mut self.slots, first)?;
        hold(&mut self.slots, second)?;
        hold(&mut self.names, one)?;
        hold(&mut self.names, other)?;
        set(&mut self.slots, first, other);
        set(&mut self.slots, second, one);
        set(&mut self.names, one, second);
        set(&mut self.names, other, first);
        Ok(())
    }
}
