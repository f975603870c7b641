//! What the neighbours of a slot show: whether it is the last one that names its object, which others do, and its
//! parent's last child.

ghost use Rattle.std.specs.Prelude.{ℕ, ◌≡◌, Some, None, IfSome, IsTrue, true, false};
ghost use Rattle.std.specs.Option.{ForSome};
ghost use Rattle.model.specs.Capabilities.Orders.{IsOrderOf, next_in};
ghost use Rattle.model.specs.Capabilities.Slots.{IsFull};
ghost use Rattle.packed_slots.specs.Sharing.{IsOther, has_like_edge, has_like_neighbour, if_naming, is_as_deep, is_named_at};
ghost use Rattle.packed_slots.specs.Packing.{packed_order, packed_slots};
ghost use Rattle.packed_slots.specs.Words.{words_in};
ghost use Rattle.slots.specs.Listed.{is_naming, naming};

use crate::PackedSlots;
use model::Slot;
use slots::{SlotMap, object_of};

impl PackedSlots {
    /// Whether there is a slot, and its capability names the object at an offset.
    fn is_named_at(&self, offset: u32, found: Option<Slot>) -> bool
        ensures { result ≡ is_named_at (packed_slots self.now) offset found }
    {
        match found {
            Some(slot) => object_of(self.capability(slot)) == Some(offset),
            None => false,
        }
    }

    /// Whether a neighbour of a slot names the object that this names. Two slots are looked at.
    pub(crate) fn has_like_neighbour(&self, slot: Slot) -> bool
        ensures { result ≡ has_like_neighbour self.now slot }
    {
        match object_of(self.capability(slot)) {
            Some(offset) => {
                self.is_named_at(offset, self.linked_before(slot))
                    || self.is_named_at(offset, self.linked_after(slot))
            }
            None => false,
        }
    }

    /// Whether a root, or the slot after the last one that descends from it, names what a slot names. Two slots are looked at.
    pub(crate) fn has_like_edge(&self, root: Slot, last: Slot, slot: Slot) -> bool
        ensures { result ≡ has_like_edge self.now root last slot }
    {
        match object_of(self.capability(slot)) {
            Some(offset) => {
                self.is_named_at(offset, Some(root))
                    || self.is_named_at(offset, self.linked_after(last))
            }
            None => false,
        }
    }

    /// Whether there is a slot, and it is as deep as a depth, or deeper.
    pub(crate) fn is_as_deep(&self, own_depth: u32, found: Option<Slot>) -> bool
        ensures { result ≡ is_as_deep (words_in self.now.memory) own_depth found }
    {
        match found {
            Some(slot) => self.noted_depth(slot) >= own_depth,
            None => false,
        }
    }

    /// A slot, if there is one and its capability names the object at an offset.
    fn if_naming(&self, offset: u32, found: Option<Slot>) -> Option<Slot>
        ensures { result ≡ if_naming (packed_slots self.now) offset found }
    {
        match found {
            Some(slot) if object_of(self.capability(slot)) == Some(offset) => Some(slot),
            _ => None,
        }
    }

    /// The first slot that names the object which a slot names: the first one back, before which there is another.
    fn first_naming(&self, offset: u32, slot: Slot) -> Slot
        requires { is_naming (packed_slots self.now) offset slot ≡ true }
        ensures { Some result ≡ next_in (naming (packed_order self.now) (packed_slots self.now) offset) None }
    {
        let mut here = slot;
        'back: while let Some(before) = self.if_naming(offset, self.linked_before(here)) {
            here = before;
        }
        here
    }

    /// The slot after `previous` in the store's order that names an object, or the first one: some slot is known that
    /// names it, if one does.
    pub(crate) fn next_alike(
        &self,
        object: u32,
        previous: Option<Slot>,
        known: Option<Slot>,
    ) -> Option<Slot>
        requires names { ForSome previous (λ slot. IsTrue (is_naming (packed_slots self.now) object slot)) }
        requires some { ForSome known (λ slot. IsTrue (is_naming (packed_slots self.now) object slot)) }
        requires none { known ≡ None → (slot : ℕ) → is_naming (packed_slots self.now) object slot ≡ false }
        ensures next { result ≡ next_in (naming (packed_order self.now) (packed_slots self.now) object) previous }
        ensures lists { IsOrderOf (packed_order self.now) (packed_slots self.now) }
        ensures found_full { IfSome result (IsFull (packed_slots self.now)) }
        ensures found_known { IfSome result (λ slot. IsTrue (is_naming (packed_slots self.now) object slot)) }
    {
        prove!(self.is_packed());
        match (previous, known) {
            (Some(slot), _) => self.if_naming(object, self.linked_after(slot)),
            (None, Some(slot)) => Some(self.first_naming(object, slot)),
            (None, None) => None,
        }
    }

    /// Another slot that names the object which a slot names, if one does: a neighbour.
    pub(crate) fn other_alike(&self, object: u32, slot: Slot) -> Option<Slot>
        requires { is_naming (packed_slots self.now) object slot ≡ true }
        ensures { IsOther (packed_slots self.now) object slot result }
    {
        match self.if_naming(object, self.linked_before(slot)) {
            Some(before) => Some(before),
            None => self.if_naming(object, self.linked_after(slot)),
        }
    }
}
