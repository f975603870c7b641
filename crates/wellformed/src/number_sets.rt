//! Sets of the numbers of objects.

ghost use Rattle.std.specs.Prelude.{ℕ, ◌≡◌, ◌+◌, ◌<◌, [], ◌∷◌, ◌++◌, IfErr, IfOk, OnErr, OnOk, Some, if◌then◌else◌, length, false, slice_get, slice_index_or};
ghost use Rattle.model.specs.Acceptance.ThreadRules.{is_member};
ghost use Rattle.model.specs.declared.refusals.Refusal.TheVariants.{OutOfMemory};

use model::Refusal;
use std::alloc::Global;
use std::marker::Model;

/// A set of numbers, in the order in which they were put in. It keeps a mark for each number up to the greatest.
#[derive(Drop)]
pub struct NumberSet {
    numbers: Vec<u32>,
    marks: Vec<bool>,
}

impl Model for NumberSet {
    ghost use Rattle.std.specs.Prelude.{ℕ, ◌≡◌, List, false, slice_index_or};
    ghost use Rattle.model.specs.Acceptance.ThreadRules.{is_member};

    ghost Value = { List ℕ };

    ghost view = { λ s. s.numbers.items };

    ghost invariant = { λ s. (n : ℕ) → slice_index_or s.marks.items n false ≡ is_member n s.numbers.items };
}

impl NumberSet {
    /// A set of no numbers.
    pub fn new(alloc: Global) -> NumberSet
        ensures { result ≡ [] }
    {
        NumberSet {
            numbers: Vec::new(alloc),
            marks: Vec::new(alloc),
        }
    }

    /// How many numbers there are.
    pub fn len(&self) -> usize
        ensures { result ≡ length self.now }
    {
        self.numbers.len()
    }

    /// A number by its place in the order.
    pub fn at(&self, place: usize) -> u32
        requires { place < length self.now }
        ensures { slice_get self.now place ≡ Some result }
    {
        self.numbers[place]
    }

    /// Whether the number is in the set.
    pub fn contains(&self, number: u32) -> bool
        ensures { result ≡ is_member number self.now }
    {
        let _ = &self.numbers;
        match self.marks.get(number as usize) {
            Some(mark) => *mark,
            None => false,
        }
    }

    /// Puts a number in, after the others, if it is not there.
    ///
    /// # Errors
    ///
    /// Memory may be refused.
    pub fn insert(&mut self, number: u32) -> Result<(), Refusal>
        ensures put { OnOk result (self.new ≡ (if is_member number self.old then self.old else self.old ++ number ∷ [])) }
        ensures memory { IfErr result (λ refusal. refusal ≡ OutOfMemory) }
    {
        if self.contains(number) {
            return Ok(());
        }
        make_room(&mut self.marks, number)?;
        self.numbers.push(number)?;
        self.marks[number as usize] = true;
        Ok(())
    }
}

/// Makes the marks reach up to a number.
fn make_room(marks: &mut Vec<bool>, number: u32) -> Result<(), Refusal>
    ensures same { (n : ℕ) → slice_index_or marks.new.items n false ≡ slice_index_or marks.old.items n false }
    ensures room { OnOk result (number < length marks.new.items) }
    ensures memory { IfErr result (λ refusal. refusal ≡ OutOfMemory) }
{
    let place = number as usize;
    if marks.len() <= place {
        marks.resize(place + 1, false)?;
    }
    Ok(())
}
