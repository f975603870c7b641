//! Roots from which other ones are made.

ghost use Rattle.std.specs.Prelude.{ℕ, ◌≡◌, ◌≢◌, ◌*◌, ◌<◌, ◌^◌, IfOk, List, None, Some};
ghost use Rattle.part_roots.specs.Held.{held_with, names_in};
ghost use Rattle.part_roots.specs.Looks.{name_of, put_in};
ghost use Rattle.shared_states.specs.States.{put_at};
ghost use Rattle.shared_states.specs.declared.entries.Entry.{Entry};

use crate::SlotNumber;
use shared_states::{Puts, States};
use std::alloc::{AllocError, Global};

/// What is known of slots, as three states: what each holds, with the name of what it was derived from; which slot stands for each name;
/// and of which names something was a child.
#[derive(Clone, Copy)]
pub struct Root {
    pub(crate) slots: u32,
    pub(crate) names: u32,
    pub(crate) parents: u32,
}

/// What is put into the three states.
#[derive(Drop)]
pub struct Draft {
    pub(crate) slots: Puts,
    pub(crate) names: Puts,
    pub(crate) parents: Puts,
}

/// A root, from which a draft goes on.
#[derive(Clone, Copy)]
pub struct Base<'s> {
    pub(crate) states: &'s States,
    pub(crate) root: Root,
}

impl Draft {
    /// Nothing is put.
    pub(crate) fn new(alloc: Global) -> Self
        ensures slots { (key : ℕ) → put_at result.slots key ≡ None }
        ensures names { (key : ℕ) → put_at result.names key ≡ None }
        ensures parents { (key : ℕ) → put_at result.parents key ≡ None }
    {
        Draft {
            slots: Puts::new(alloc),
            names: Puts::new(alloc),
            parents: Puts::new(alloc),
        }
    }
}

/// Puts a value at a number, or nothing. Memory may be refused.
pub(crate) fn put(puts: &mut Puts, key: u64, value: Option<u64>) -> Result<(), AllocError>
    ensures { IfOk result (λ _. key < 2 ^ 63 → (entries : List Entry) (root other : ℕ)
        → held_with entries root puts.new other ≡ put_in (held_with entries root puts.old) key value other) }
{
    puts.put(key, value)?;
    Ok(())
}

/// Notes that something is a child of what a name stands for, if there is one. Memory may be refused.
pub(crate) fn note_parent(puts: &mut Puts, name: Option<u64>) -> Result<(), AllocError>
    ensures noted { IfOk result (λ _. (entries : List Entry) (root n : ℕ) → name ≡ Some n → n < 2 ^ 61 → held_with entries root puts.new (2 * n) ≢ None) }
    ensures kept { IfOk result (λ _. (entries : List Entry) (root n : ℕ) → held_with entries root puts.old n ≢ None
        → held_with entries root puts.new n ≢ None) }
{
    let Some(number) = name else {
        return Ok(());
    };
    let Some(name) = SlotNumber::new(number) else {
        return Ok(());
    };
    put(puts, name.first_place(), Some(1))?;
    Ok(())
}

impl Base<'_> {
    /// What is held of names at a number.
    fn at(&self, draft: &Draft, key: u64) -> Option<u64>
        ensures { key < 2 ^ 63 → result ≡ names_in self.now draft.now key }
    {
        match draft.names.at(key) {
            Some(value) => value,
            None => self.states.get(self.root.names, key),
        }
    }

    /// The name of a slot.
    pub(crate) fn name(&self, draft: &Draft, slot: SlotNumber) -> u64
        ensures { result ≡ name_of (names_in self.now draft.now) slot.number }
    {
        match self.at(draft, slot.second_place()) {
            Some(name) => name,
            None => slot.number,
        }
    }
}
