//! Trees that share what is the same.

ghost use Rattle.std.specs.Prelude.{ℕ, ◌≡◌, ◌≤◌, ◌+◌, ◌<◌, ◌^◌, Bool, IfOk, List, None, Some, false, length, slice_get, true};
ghost use Rattle.shared_states.specs.Entries.{Agree, AreClosed, AreNoted, AreSame, IsIn, KeepsTrees, below, end_of, held_at, is_high, path_of, side_of};
ghost use Rattle.shared_states.specs.Entries.{value_of};
ghost use Rattle.shared_states.specs.Puts.{in_puts, number_of};
ghost use Rattle.shared_states.specs.declared.entries.Entry.{Entry as ListedEntry};

use crate::puts::half;
use crate::{Entry, Puts, Sames};
use std::alloc::{AllocError, Global};
use std::marker::Model;

/// Trees whose entries are shared. A clause sees the list of entries.
#[derive(Drop)]
pub(crate) struct Trees {
    entries: Vec<Entry>,
}

impl Model for Trees {
    ghost use Rattle.std.specs.Prelude.{List};
    ghost use Rattle.shared_states.specs.Entries.{AreClosed};
    ghost use Rattle.shared_states.specs.declared.entries.Entry.{Entry};

    ghost Value = { List Entry };

    ghost view = { λ trees. trees.entries.items };

    ghost invariant = { λ trees. AreClosed trees.entries.items };
}

/// Whether the bit of a number is 1 at a height.
fn is_high(key: u64, height: u32) -> bool
    requires { height < 64 }
    ensures { result ≡ is_high key height }
{
    (key >> height) % 2 == 1
}

/// A place in a list, if it has 32 bits. Else memory is refused.
fn narrowed(place: usize) -> Result<u32, AllocError>
    ensures { IfOk result (λ narrow. narrow ≡ place) }
{
    match u32::try_from(place) {
        Ok(narrow) => Ok(narrow),
        Err(_) => Err(AllocError),
    }
}

impl Trees {
    /// The empty tree, which all have.
    const EMPTY: u32 = 0;

    /// The empty tree alone. Memory may be refused.
    pub(crate) fn new(alloc: Global) -> Result<Self, AllocError> {
        let mut entries = Vec::new(alloc);
        entries.push(Entry::Pair { low: 0, high: 0 })?;
        Ok(Trees { entries })
    }

    /// Whether there is a tree of this number.
    pub(crate) fn has(&self, tree: u32) -> bool
        ensures { result ≡ true → IsIn self.now tree }
    {
        (tree as usize) < self.entries.len()
    }

    /// The empty tree.
    pub(crate) fn empty(&self) -> u32
        ensures within { IsIn self.now result }
        ensures nothing { (path : List Bool) → held_at self.now path result ≡ None }
    {
        let _ = &self.entries;
        Trees::EMPTY
    }

    /// An entry, if it is there.
    fn entry(&self, tree: u32) -> Option<Entry>
        ensures is { result ≡ slice_get self.now tree }
        ensures closed { AreClosed self.now }
    {
        self.entries.get(tree as usize).copied()
    }

    /// The tree below on a side.
    fn side(&self, tree: u32, side: bool) -> u32
        ensures same { result ≡ side_of self.now tree side }
        ensures within { IsIn self.now result }
    {
        match self.entry(tree) {
            Some(entry) => entry.below(side),
            None => 0,
        }
    }

    /// What an entry holds.
    fn value(&self, tree: u32) -> Option<u64>
        ensures { result ≡ value_of self.now tree }
    {
        match self.entries.get(tree as usize) {
            Some(Entry::Leaf(value)) => Some(*value),
            _ => None,
        }
    }

    /// The tree at the end of one of this height at a number.
    pub(crate) fn end(&self, height: u32, tree: u32, key: u64) -> u32
        requires height { height ≤ 64 }
        ensures same { result ≡ end_of self.now (path_of height key) tree }
        ensures within { IsIn self.now tree → IsIn self.now result }
        ensures closed { AreClosed self.now }
    {
        let _ = &self.entries;
        if height == 0 {
            return tree;
        }
        let below = height - 1;
        let side = self.side(tree, is_high(key, below));
        self.end(below, side, key)
    }

    /// What a tree of this height holds at a number.
    pub(crate) fn get(&self, height: u32, tree: u32, key: u64) -> Option<u64>
        requires { height ≤ 64 }
        ensures { result ≡ held_at self.now (path_of height key) tree }
    {
        self.value(self.end(height, tree, key))
    }

    /// Appends an entry. Memory may be refused.
    fn push(&mut self, entry: Entry) -> Result<u32, AllocError>
        requires { (side : Bool) → IsIn self.old (below entry side) }
        ensures within { IfOk result (IsIn self.new) }
        ensures side { IfOk result (λ tree. (side : Bool) → side_of self.new tree side ≡ below entry side) }
        ensures value { IfOk result (λ tree. (value : ℕ) → entry ≡ ListedEntry.Leaf value → value_of self.new tree ≡ Some value) }
        ensures kept { KeepsTrees self.old self.new }
    {
        let tree = narrowed(self.entries.len())?;
        self.entries.push(entry)?;
        Ok(tree)
    }

    /// A tree with these two below it: the empty one, where both are empty. Memory may be refused.
    fn pair(&mut self, low: u32, high: u32) -> Result<u32, AllocError>
        requires low { IsIn self.old low }
        requires high { IsIn self.old high }
        ensures within { IfOk result (IsIn self.new) }
        ensures low { IfOk result (λ tree. side_of self.new tree false ≡ low) }
        ensures high { IfOk result (λ tree. side_of self.new tree true ≡ high) }
        ensures kept { KeepsTrees self.old self.new }
    {
        let _ = &self.entries;
        if low == Trees::EMPTY && high == Trees::EMPTY {
            return Ok(Trees::EMPTY);
        }
        let tree = self.push(Entry::Pair { low, high })?;
        Ok(tree)
    }

    /// A tree with these two below it: one that has them already is it itself. Memory may be refused.
    fn joined(&mut self, tree: u32, low: u32, high: u32) -> Result<u32, AllocError>
        requires tree { IsIn self.old tree }
        requires low { IsIn self.old low }
        requires high { IsIn self.old high }
        ensures within { IfOk result (IsIn self.new) }
        ensures low { IfOk result (λ tree. side_of self.new tree false ≡ low) }
        ensures high { IfOk result (λ tree. side_of self.new tree true ≡ high) }
        ensures kept { KeepsTrees self.old self.new }
    {
        let _ = &self.entries;
        if self.side(tree, false) == low {
            if self.side(tree, true) == high {
                return Ok(tree);
            }
        }
        self.pair(low, high)
    }

    /// A tree without height that holds a value, or nothing. Memory may be refused.
    fn with_value(&mut self, tree: u32, value: Option<u64>) -> Result<u32, AllocError>
        requires { IsIn self.old tree }
        ensures within { IfOk result (IsIn self.new) }
        ensures value { IfOk result (λ made. value_of self.new made ≡ value) }
        ensures kept { KeepsTrees self.old self.new }
    {
        let _ = &self.entries;
        match value {
            None => Ok(Trees::EMPTY),
            Some(value) => self.with_leaf(tree, value),
        }
    }

    /// A tree without height that holds a value. Memory may be refused.
    fn with_leaf(&mut self, tree: u32, value: u64) -> Result<u32, AllocError>
        requires { IsIn self.old tree }
        ensures within { IfOk result (IsIn self.new) }
        ensures value { IfOk result (λ made. value_of self.new made ≡ Some value) }
        ensures kept { KeepsTrees self.old self.new }
    {
        if let Some(held) = self.value(tree) {
            if held == value {
                return Ok(tree);
            }
        }
        self.push(Entry::Leaf(value))
    }

    /// A tree without height that holds what is put at a number, or else what another one holds. Memory may be refused.
    fn with_put(&mut self, tree: u32, key: u64, puts: &Puts) -> Result<u32, AllocError>
        requires { IsIn self.old tree }
        ensures within { IfOk result (IsIn self.new) }
        ensures value { IfOk result (λ made. value_of self.new made ≡ in_puts puts.now key (value_of self.old tree)) }
        ensures kept { KeepsTrees self.old self.new }
    {
        let Some(value) = puts.at(key) else {
            let _ = &self.entries;
            return Ok(tree);
        };
        let made = self.with_value(tree, value)?;
        Ok(made)
    }

    /// A tree that holds what is put at numbers, and else what another one holds, with which it shares the rest: this is the first number
    /// of both. Where that is so already, it is the tree itself. Memory may be refused.
    pub(crate) fn with(
        &mut self,
        height: u32,
        tree: u32,
        base: u64,
        puts: &Puts,
    ) -> Result<u32, AllocError>
        requires height { height ≤ 64 }
        requires within { IsIn self.old tree }
        requires base { base + 2 ^ height ≤ 2 ^ 64 }
        ensures within { IfOk result (IsIn self.new) }
        ensures held { IfOk result (λ made. (path : List Bool) → length path ≡ height
            → held_at self.new path made ≡ in_puts puts.now (base + number_of path) (held_at self.old path tree)) }
        ensures kept { KeepsTrees self.old self.new }
    {
        if puts.is_apart(height, base) {
            return Ok(tree);
        }
        if height == 0 {
            let made = self.with_put(tree, base, puts)?;
            return Ok(made);
        }
        let below = height - 1;
        let half = half(below);
        let low_before = self.side(tree, false);
        let high_before = self.side(tree, true);
        let low = self.with(below, low_before, base, puts)?;
        let high = self.with(below, high_before, base + half, puts)?;
        let made = self.joined(tree, low, high)?;
        Ok(made)
    }

    /// Whether two entries hold the same.
    fn have_same_value(&self, one: u32, other: u32) -> bool
        ensures same { result ≡ true → value_of self.now one ≡ value_of self.now other }
        ensures differ { value_of self.now one ≡ value_of self.now other → result ≡ true }
    {
        match (self.value(one), self.value(other)) {
            (None, None) => true,
            (Some(one), Some(other)) => one == other,
            _ => false,
        }
    }

    /// Whether two trees of this height hold the same at all numbers. What they share is not looked at, nor what was found to be the
    /// same, nor what comes after the first difference. What is found to be the same is noted. Memory may be refused.
    pub(crate) fn is_same(
        &self,
        height: u32,
        one: u32,
        other: u32,
        sames: &mut Sames,
    ) -> Result<bool, AllocError>
        requires one { IsIn self.now one }
        requires other { IsIn self.now other }
        requires noted { AreNoted self.now sames.old }
        ensures same { IfOk result (λ is. is ≡ true → AreSame self.now height one other) }
        ensures differ { IfOk result (λ is. AreSame self.now height one other → is ≡ true) }
        ensures noted { AreNoted self.now sames.new }
    {
        let first = sames.first(height, one);
        let second = sames.first(height, other);
        if first == second {
            return Ok(true);
        }
        if height == 0 {
            return Ok(self.have_same_value(first, second));
        }
        let below = height - 1;
        let low = self.is_same(
            below,
            self.side(first, false),
            self.side(second, false),
            sames,
        )?;
        if !low {
            return Ok(false);
        }
        let high = self.is_same(
            below,
            self.side(first, true),
            self.side(second, true),
            sames,
        )?;
        if !high {
            return Ok(false);
        }
        sames.note(height, first, second)?;
        Ok(true)
    }

    /// Whether two trees of this height hold the same at all numbers at which a third one holds something. It costs what differs there, up
    /// to the first difference.
    pub(crate) fn agree(&self, height: u32, one: u32, other: u32, asked: u32) -> bool
        ensures { result ≡ true → Agree self.now height one other asked }
    {
        let _ = &self.entries;
        if one == other {
            return true;
        }
        if asked == Trees::EMPTY {
            return true;
        }
        if height == 0 {
            return self.have_same_value(one, other);
        }
        let below = height - 1;
        let low = self.agree(
            below,
            self.side(one, false),
            self.side(other, false),
            self.side(asked, false),
        );
        if !low {
            return false;
        }
        self.agree(
            below,
            self.side(one, true),
            self.side(other, true),
            self.side(asked, true),
        )
    }
}
