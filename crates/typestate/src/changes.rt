//! Changes to slots, each found by the number of its slot, and by what that was derived from.

ghost use Rattle.std.specs.Prelude.{ℕ, ◌≡◌, ◌≤◌, ◌+◌, [], IfErr, IfOk, None, Some, flat_map, if◌then◌else◌, length, map, option_and_then, true, ◌<◌, ◌^◌};
ghost use Rattle.std.specs.Iterator.{YieldsFirst, item_count};
ghost use Rattle.model.specs.Acceptance.NotedStates.{NotedSlot, SlotKey, is_same_key, number_of, slot_at};
ghost use Rattle.typestate.specs.Families.{children_in, children_of, found, in_block};
ghost use Rattle.typestate.specs.Left.{parent_left};
ghost use Rattle.typestate.specs.Orders.{AreNarrow, Rise};
ghost use Rattle.typestate.specs.Replays.{exchanged};

use crate::families::{Families, block_of};
use crate::names::Names;
use crate::packed_change::PackedChange;
use crate::packed_changes::low;
use crate::packed_slot::PackedSlot;
use crate::slot_runs::SlotRun;
use crate::{NotedSlot, SlotKey};
use std::alloc::{AllocError, Global};
use std::collections::btree_map::{BTreeMap, Iter, Range};
use std::collections::btree_set::Range as Links;
use std::marker::Model;

/// Changes to slots, one to each. A clause sees their list, whose keys rise.
#[derive(Drop)]
pub struct Changes {
    packed: BTreeMap<u64, PackedChange>,
    names: Names,
    families: Families,
}

impl Model for Changes {
    ghost use Rattle.std.specs.Prelude.{List, map};
    ghost use Rattle.model.specs.Acceptance.NotedStates.{NotedSlot};
    ghost use Rattle.typestate.specs.Families.{LastIsLinked};
    ghost use Rattle.typestate.specs.Names.{AreInverse};
    ghost use Rattle.typestate.specs.PackedChanges.{AreLinked, unpacked_entry};

    ghost Value = { List NotedSlot };

    ghost view = { λ changes. map (unpacked_entry changes.names.slots.entries) changes.packed.entries };

    ghost invariant = { λ changes. AreInverse changes.names.slots.entries changes.names.names.entries
        × AreLinked changes.packed.entries changes.families.links.keys × LastIsLinked changes.families.links.keys changes.families.last };
}

/// Changes in the order of their keys. A clause sees their list.
#[derive(Drop)]
pub struct ChangesLeft<'c> {
    left: Iter<'c, u64, PackedChange>,
    names: &'c Names,
}

impl<'c> Model for ChangesLeft<'c> {
    ghost use Rattle.std.specs.Prelude.{List, map};
    ghost use Rattle.model.specs.Acceptance.NotedStates.{NotedSlot};
    ghost use Rattle.typestate.specs.PackedChanges.{unpacked_entry};

    ghost Value = { List NotedSlot };

    ghost view = { λ changes. map (unpacked_entry changes.names.now.slots.entries) changes.left };
}

impl<'c> Iterator for ChangesLeft<'c> {
    type Item = NotedSlot;

    ghost next_gives = { YieldsFirst (λ s. s) };

    ghost remaining = { item_count (λ s. s) };

    fn next(&mut self) -> Option<NotedSlot> {
        match self.left.next() {
            Some((number, packed)) => Some(packed.at(*number, self.names)),
            None => None,
        }
    }
}

/// The changes to slots of a block, in the order of their keys. A clause sees their list.
#[derive(Drop)]
pub(crate) struct BlockChanges<'c> {
    left: Range<'c, u64, PackedChange>,
    block: u64,
    has_ended: bool,
    names: &'c Names,
}

impl<'c> Model for BlockChanges<'c> {
    ghost use Rattle.std.specs.Prelude.{List, [], if◌then◌else◌, map};
    ghost use Rattle.model.specs.Acceptance.NotedStates.{NotedSlot};
    ghost use Rattle.typestate.specs.PackedChanges.{begin_in, unpacked_entry};

    ghost Value = { List NotedSlot };

    ghost view = { λ changes. if changes.has_ended then [] else map (unpacked_entry changes.names.now.slots.entries) (begin_in changes.block changes.left) };
}

impl<'c> Iterator for BlockChanges<'c> {
    type Item = PackedSlot;

    ghost next_gives = { YieldsFirst (λ s. s) };

    ghost remaining = { item_count (λ s. s) };

    fn next(&mut self) -> Option<PackedSlot> {
        if self.has_ended {
            return None;
        }
        let (number, packed) = self.left.next()?;
        if block_of(*number) == self.block {
            Some(packed.packed_at(*number, self.names))
        } else {
            self.has_ended = true;
            None
        }
    }
}

impl Changes {
    /// No changes.
    pub(crate) fn new(alloc: Global) -> Self
        ensures { result ≡ [] }
    {
        Changes {
            packed: BTreeMap::new(alloc),
            names: Names::new(alloc),
            families: Families::new(alloc),
        }
    }

    /// How many there are.
    pub(crate) fn len(&self) -> usize
        ensures value { result ≡ length self.now }
        ensures small { result < 2 ^ 63 }
    {
        self.packed.len()
    }

    /// The changes in the order of their keys.
    pub fn iter(&self) -> ChangesLeft<'_>
        ensures { result ≡ self.now }
    {
        ChangesLeft {
            left: self.packed.iter(),
            names: &self.names,
        }
    }

    /// The change to the slot of a number.
    pub(crate) fn numbered(&self, number: u64) -> Option<NotedSlot>
        ensures { result ≡ found self.now number }
    {
        match self.packed.get(&number) {
            Some(packed) => Some(packed.at(number, &self.names)),
            None => None,
        }
    }

    /// The same in few bytes.
    pub(crate) fn packed_at(&self, number: u64) -> Option<PackedSlot>
        ensures { result ≡ found self.now number }
    {
        match self.packed.get(&number) {
            Some(packed) => Some(packed.packed_at(number, &self.names)),
            None => None,
        }
    }

    /// Whether no change is to one of some slots of a CNode.
    pub(crate) fn has_none_of(&self, run: &SlotRun) -> bool
        ensures { result ≡ true → (n : ℕ) → number_of run.now.first ≤ n → n < number_of run.now.first + run.now.count → found self.now n ≡ None }
    {
        let first = run.first.number();
        let end = run.end();
        let mut between = self.packed.range(first..end);
        match between.next() {
            Some(_) => false,
            None => true,
        }
    }

    /// The change to the slot of a key.
    pub(crate) fn at(&self, key: SlotKey) -> Option<NotedSlot>
        ensures { result ≡ slot_at self.now key }
    {
        self.numbered(key.number())
    }

    /// What the slot of a key is derived from that a change leaves there, if there is one.
    pub(crate) fn parent_left(&self, key: SlotKey) -> Option<SlotKey>
        ensures { result ≡ option_and_then parent_left (slot_at self.now key) }
    {
        match self.packed.get(&key.number()) {
            Some(packed) => packed.parent_left(&self.names),
            None => None,
        }
    }

    /// Links to the blocks in which changes leave slots that were derived from the slot of this key, in their order.
    pub(crate) fn links(&self, parent: SlotKey) -> Links<'_, (u64, u64)>
        requires { Rise self.now }
        ensures { flat_map (λ q. children_in self.now parent q.1) result ≡ children_of self.now parent }
    {
        self.families.named(self.names.name(parent.number()))
    }

    /// The changes to slots of a block.
    pub(crate) fn block(&self, block: u64) -> BlockChanges<'_>
        ensures { result ≡ in_block self.now block }
    {
        BlockChanges {
            left: self.packed.range(block..),
            block,
            has_ended: false,
            names: &self.names,
        }
    }

    /// Whether no slot was derived from the slot of this key, where the last of all links shows that.
    pub(crate) fn is_childless(&self, parent: SlotKey) -> bool
        ensures { Rise self.now → result ≡ true → children_of self.now parent ≡ [] }
    {
        self.families.has_none(self.names.name(parent.number()))
    }

    /// Puts a change among the others, and answers the one to the same slot in whose place it is. Memory may be refused.
    pub(crate) fn put(&mut self, change: PackedSlot) -> Result<Option<PackedSlot>, AllocError>
        ensures before { IfOk result (λ before. before ≡ slot_at self.old change.key) }
        ensures rising { IfOk result (λ _. Rise self.new) }
        ensures same { IfOk result (λ _. (key : SlotKey) → slot_at self.new key ≡ (if is_same_key change.key key then Some change else slot_at self.old key)) }
        ensures narrow { IfOk result (λ _. AreNarrow self.new) }
        ensures kept { IfErr result (λ _. self.new ≡ self.old) }
    {
        let number = change.key.number();
        let packed = PackedChange::of(change, &self.names);
        self.families.add(&packed, number)?;
        match self.packed.insert(number, packed)? {
            Some(before) => {
                self.families
                    .replace(&self.packed, before.parent_name(), &packed, number);
                Ok(Some(before.packed_at(number, &self.names)))
            }
            None => Ok(None),
        }
    }

    /// What was derived from the one slot is derived from the other one, and the other way round. Where memory is refused all stays as it
    /// was.
    pub(crate) fn swap(&mut self, one: SlotKey, other: SlotKey) -> Result<(), AllocError>
        ensures swapped { IfOk result (λ _. self.new ≡ map (exchanged one other) self.old) }
        ensures narrow { IfOk result (λ _. AreNarrow self.new) }
        ensures kept { IfErr result (λ _. self.new ≡ self.old) }
    {
        low(one.index);
        low(other.index);
        self.names.swap(one.number(), other.number())?;
        Ok(())
    }
}
