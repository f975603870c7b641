//! What slots that are packed hold, and how they are linked.

ghost use Rattle.std.specs.Prelude.{ℕ, ◌≡◌, None, IsTrue, length, true};
ghost use Rattle.std.specs.Option.{ForSome};
ghost use Rattle.model.specs.Capabilities.CapabilityFields.{fields_of};
ghost use Rattle.model.specs.Capabilities.CapabilityKinds.{frame_of, root_of};
ghost use Rattle.model.specs.Capabilities.CapabilityWords.{IsCapability};
ghost use Rattle.model.specs.Capabilities.Orders.{descendants, next_in};
ghost use Rattle.model.specs.Capabilities.Slots.{IsOpen, capability_at, is_descendant, is_full};
ghost use Rattle.packed_slots.specs.Packing.{IsPacked, packed_order, packed_slots};
ghost use Rattle.packed_slots.specs.Words.{words_in};
ghost use Rattle.slots.specs.preorder.Chains.{back_above, if_deeper};

use crate::PackedSlots;
use crate::links::back_above;
use crate::words::{depth, next, previous, word};
use capwords::read_fields;
use model::{Cap, Slot};
use slots::SlotMap;

/// How many slots the largest memory has.
const SLOTS: u32 = 0x10_0000;

impl PackedSlots {
    /// Whether the slots are packed as they have to be: they always are.
    pub(crate) fn is_packed(&self) -> bool
        ensures value { result ≡ true }
        ensures packed { IsPacked self.now }
    {
        self.open_slots.len() <= SLOTS
    }

    /// The slot that is linked after another.
    pub(crate) fn linked_after(&self, slot: Slot) -> Option<Slot>
        ensures value { result ≡ (words_in self.now.memory).next slot }
        ensures packed { IsPacked self.now }
    {
        next(&self.memory, slot)
    }

    /// The slot that another is linked after.
    pub(crate) fn linked_before(&self, slot: Slot) -> Option<Slot>
        ensures value { result ≡ (words_in self.now.memory).previous slot }
        ensures packed { IsPacked self.now }
    {
        previous(&self.memory, slot)
    }

    /// The depth in the words of a slot.
    pub(crate) fn noted_depth(&self, slot: Slot) -> u32
        ensures value { result ≡ (words_in self.now.memory).depth slot }
        ensures packed { IsPacked self.now }
    {
        depth(&self.memory, slot)
    }

    /// The first slot from one on, back along the list, that is less deep than a depth.
    pub(crate) fn back_above(&self, limit: u32, last: Option<Slot>) -> Option<Slot>
        ensures { result ≡ back_above (words_in self.now.memory).previous (words_in self.now.memory).depth (length self.now.open_slots) limit last }
    {
        back_above(&self.memory, self.open_slots.len(), limit, last)
    }

    /// The capability in an open slot.
    // (a capability has seven words: to hand one on in memory costs as much as to read it)
    #[inline(always)]
    pub(crate) fn held(&self, slot: Slot) -> Cap
        requires { IsOpen (packed_slots self.now) slot }
        ensures value { result ≡ capability_at (packed_slots self.now) slot }
        ensures valid { IsCapability result }
        ensures packed { IsPacked self.now }
    {
        read_fields(word(&self.memory, slot, 0), word(&self.memory, slot, 1))
    }

    /// The slot that an open one was derived from: the first one back that is less deep.
    pub(crate) fn parent(&self, slot: Slot) -> Option<Slot>
        ensures { result ≡ back_above (words_in self.now.memory).previous (words_in self.now.memory).depth (length self.now.open_slots)
            ((words_in self.now.memory).depth slot) ((words_in self.now.memory).previous slot) }
    {
        let own_depth = self.noted_depth(slot);
        if own_depth == 0 {
            return None;
        }
        self.back_above(own_depth, self.linked_before(slot))
    }

    /// Whether a slot is open and holds a capability.
    pub(crate) fn is_full(&self, slot: Slot) -> bool
        ensures { result ≡ is_full (packed_slots self.now) slot }
    {
        !matches!(self.capability(slot), Cap::Empty)
    }

    /// A slot, if there is one and it is deeper than a depth.
    pub(crate) fn if_deeper(&self, root_depth: u32, found: Option<Slot>) -> Option<Slot>
        ensures { result ≡ if_deeper (words_in self.now.memory).depth root_depth found }
    {
        match found {
            Some(slot) if self.noted_depth(slot) > root_depth => Some(slot),
            _ => None,
        }
    }

    /// The descendant of a root after another, or the first one: the slot linked after it, if that is deeper than the root.
    pub(crate) fn linked_below(&self, root: Slot, last: Option<Slot>) -> Option<Slot>
        requires { ForSome last (λ slot. IsTrue (is_descendant (packed_slots self.now) root slot)) }
        ensures next { result ≡ next_in (descendants (packed_order self.now) (packed_slots self.now) root) last }
        ensures packed { IsPacked self.now }
    {
        prove!(self.is_packed());
        // (what the bytes of a slot that is not full hold is no link)
        if !self.is_full(root) {
            return None;
        }
        let after = self.linked_after(last.unwrap_or(root));
        self.if_deeper(self.noted_depth(root), after)
    }
}

/// The kind of the capabilities of root tables, in the first of their two words.
const ROOT_TABLE: u32 = 8;

/// The root table that the first word of a capability names, whatever the second is.
#[tactic(auto, using(crate::proofs::RootWords::root_by_kind))]
pub(crate) fn root_in(head: u32) -> Option<u32>
    ensures { (tail : ℕ) → result ≡ root_of (fields_of head tail) }
{
    if head % 0x10 == ROOT_TABLE {
        Some(head / 0x1000 * 0x10)
    } else {
        None
    }
}

/// The kind of the capabilities of frames, in the first of their two words.
const FRAME: u32 = 6;

/// The frame that the first word of a capability names, whatever the second is.
#[tactic(auto, using(crate::proofs::FrameWords::frame_by_kind))]
pub(crate) fn frame_in(head: u32) -> Option<u32>
    ensures { (tail : ℕ) → result ≡ frame_of (fields_of head tail) }
{
    if head % 0x10 == FRAME {
        Some(head / 0x1000 * 0x10)
    } else {
        None
    }
}
