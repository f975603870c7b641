//! Look-ups in the slots at a point.

ghost use Rattle.std.specs.Prelude.{◌≡◌, [], ◌∷◌, ◌++◌, IfOk, false, flat_map, if◌then◌else◌, true};
ghost use Rattle.model.specs.Acceptance.NotedStates.{slot_at};
ghost use Rattle.model.specs.Capabilities.CapabilityWords.{IsCapability};
ghost use Rattle.model.specs.declared.capabilities.Cap.TheVariants.{Empty};
ghost use Rattle.std.specs.Option.{option_map_or, option_to_list};
ghost use Rattle.typestate.specs.Differences.{left_by, slots_of};
ghost use Rattle.typestate.specs.Families.{children_in, children_of, found, has_parent};
ghost use Rattle.typestate.specs.Orders.{Rise};

use crate::change_lists::is_parent;
use crate::packed_slot::PackedSlot;
use crate::{NotedSlot, NotedSlots, SlotKey};
use model::Cap;
use std::alloc::AllocError;

/// What a change leaves in its slot.
pub(crate) fn left(change: NotedSlot) -> Option<NotedSlot>
    ensures { result ≡ left_by change }
{
    match change.capability {
        Cap::Empty => None,
        _ => Some(change),
    }
}

/// Appends what a look-up found. Memory may be refused.
pub(crate) fn note_found(
    found: Option<PackedSlot>,
    list: &mut Vec<PackedSlot>,
) -> Result<(), AllocError>
    ensures { IfOk result (λ _. list.new.items ≡ list.old.items ++ option_to_list found) }
{
    if let Some(slot) = found {
        list.push(slot)?;
    }
    Ok(())
}

/// Whether the slot that a change leaves was derived from the slot of this key.
pub(crate) fn leaves_child(key: SlotKey, change: &PackedSlot) -> bool
    ensures { result ≡ has_parent key (left_by change.now) }
{
    if change.is_empty() {
        false
    } else {
        is_parent(key, change.parent())
    }
}

/// Appends a change, if the slot that it leaves was derived from the slot of this key. Memory may be refused.
fn note_child(
    parent: SlotKey,
    change: PackedSlot,
    list: &mut Vec<PackedSlot>,
) -> Result<(), AllocError>
    ensures { IfOk result (λ _. list.new.items ≡ list.old.items ++ (if has_parent parent (left_by change) then change ∷ [] else [])) }
{
    if leaves_child(parent, &change) {
        list.push(change)?;
    }
    Ok(())
}

impl NotedSlots<'_> {
    /// Appends the changes of a block whose slots were derived from the slot of this key, in the order of their keys. Memory may be
    /// refused.
    fn note_children_in(
        &self,
        parent: SlotKey,
        block: u64,
        found: &mut Vec<PackedSlot>,
    ) -> Result<(), AllocError>
        ensures { IfOk result (λ _. found.new.items ≡ found.old.items ++ children_in self.now.changes.now parent block) }
    {
        for change in self.changes.block(block) {
            note_child(parent, change, found)?;
        }
        Ok(())
    }

    /// Appends the changes whose slots were derived from the slot of this key, in the order of their keys. Memory may be refused.
    pub(crate) fn note_children_of(
        &self,
        parent: SlotKey,
        found: &mut Vec<PackedSlot>,
    ) -> Result<(), AllocError>
        ensures { IfOk result (λ _. found.new.items ≡ found.old.items ++ children_of self.now.changes.now parent) }
    {
        if self.changes.is_childless(parent) {
            return Ok(());
        }
        for link in self.changes.links(parent) {
            self.note_children_in(parent, link.1, found)?;
        }
        Ok(())
    }

    /// Whether a change of a block leaves a slot that was derived from the slot of this key.
    fn has_child_in(&self, parent: SlotKey, block: u64) -> bool
        ensures { result ≡ false → children_in self.now.changes.now parent block ≡ [] }
    {
        for change in self.changes.block(block) {
            if leaves_child(parent, &change) {
                return true;
            }
        }
        false
    }

    /// Whether a change leaves a slot that was derived from the slot of this key.
    fn has_child(&self, parent: SlotKey) -> bool
        ensures { result ≡ false → children_of self.now.changes.now parent ≡ [] }
    {
        if self.changes.is_childless(parent) {
            return false;
        }
        for link in self.changes.links(parent) {
            if self.has_child_in(parent, link.1) {
                return true;
            }
        }
        false
    }

    /// Whether no change leaves a slot that was derived from one of these.
    pub(crate) fn are_childless(&self, slots: &[PackedSlot]) -> bool
        ensures { result ≡ true → flat_map (λ s. children_of self.now.changes.now s.key) slots.now ≡ [] }
    {
        for slot in slots {
            if self.has_child(slot.key()) {
                return false;
            }
        }
        true
    }

    /// The slot of this key, if it is full.
    pub fn at(&self, key: SlotKey) -> Option<NotedSlot>
        ensures { result ≡ slot_at (slots_of self.now) key }
    {
        match self.changes.at(key) {
            Some(change) => left(change),
            None => listed(self.image, key),
        }
    }

    /// The capability in the slot of this key: an empty one where there is none.
    pub fn capability(&self, key: SlotKey) -> Cap
        ensures value { result ≡ option_map_or (λ slot. slot.capability) (slot_at (slots_of self.now) key) Empty }
        ensures valid { IsCapability result }
    {
        match self.at(key) {
            Some(slot) => slot.capability,
            None => Cap::Empty,
        }
    }
}

/// The slot of this key in a list whose keys rise.
pub(crate) fn listed(slots: &[NotedSlot], key: SlotKey) -> Option<NotedSlot>
    requires { Rise slots.now }
    ensures { result ≡ slot_at slots.now key }
{
    numbered(slots, key.number())
}

/// The slot of this number in a list whose keys rise.
fn numbered(slots: &[NotedSlot], number: u64) -> Option<NotedSlot>
    requires { Rise slots.now }
    ensures { result ≡ found slots.now number }
{
    match slots.binary_search_by_key(&number, |slot| slot.key.number()) {
        Ok(place) => Some(slots[place]),
        Err(_) => None,
    }
}
