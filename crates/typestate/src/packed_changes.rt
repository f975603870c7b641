//! Changes to slots in few bytes.

ghost use Rattle.std.specs.Prelude.{ℕ, ◌≡◌, ◌^◌, nat_lt, option_map, true};
ghost use Rattle.model.specs.Acceptance.NotedStates.{number_of};
ghost use Rattle.model.specs.Capabilities.Slots.{is_empty};
ghost use Rattle.typestate.specs.Left.{parent_left};
ghost use Rattle.typestate.specs.Names.{AreInverse, renamed};
ghost use Rattle.typestate.specs.PackedChanges.{cap_of, numbered_key, unpacked_change};

use crate::names::Names;
use crate::packed_change::{Name, PackedChange};
use crate::packed_slot::PackedSlot;
use crate::records::capability_of;
use crate::{NotedSlot, SlotKey};

/// The key of a number.
pub(crate) fn numbered_key(number: u64) -> SlotKey
    ensures { result ≡ numbered_key number }
{
    SlotKey {
        cnode: (number / 0x1_0000_0000) as u32,
        index: (number % 0x1_0000_0000) as u32,
    }
}

/// An index has 32 bits.
pub(crate) fn low(index: u32)
    ensures { nat_lt index (2 ^ 32) ≡ true }
{
    let _ = index;
}

impl Names {
    /// The name of what a slot was derived from.
    fn parent_name(&self, parent: Option<SlotKey>) -> Option<Name>
        ensures name { result ≡ option_map (λ p. renamed self.now.names.entries (number_of p)) parent }
        ensures back { AreInverse self.now.slots.entries self.now.names.entries
            → option_map (λ name. numbered_key (renamed self.now.slots.entries name)) result ≡ parent }
    {
        match parent {
            Some(key) => {
                low(key.index);
                Some(Name::of(self.name(key.number())))
            }
            None => None,
        }
    }

    /// What a slot was derived from, by its name.
    fn named_parent(&self, name: Option<Name>) -> Option<SlotKey>
        ensures { result ≡ option_map (λ name. numbered_key (renamed self.now.slots.entries name)) name }
    {
        match name {
            Some(name) => Some(numbered_key(self.slot(name.number()))),
            None => None,
        }
    }
}

impl PackedChange {
    /// Whether the change empties its slot.
    fn is_empty(&self) -> bool
        ensures { result ≡ is_empty (cap_of self.now.head self.now.word) }
    {
        self.head == 0
    }

    /// What the slot is derived from that the change leaves, where slots stand for names: none if it empties the slot.
    pub(crate) fn parent_left(&self, names: &Names) -> Option<SlotKey>
        ensures { (number : ℕ) → result ≡ parent_left (unpacked_change names.now.slots.entries number self.now) }
    {
        if self.is_empty() {
            None
        } else {
            names.named_parent(self.parent)
        }
    }

    /// What a change leaves, where names stand for slots.
    pub(crate) fn of(change: PackedSlot, names: &Names) -> Self
        requires { AreInverse names.now.slots.entries names.now.names.entries }
        ensures { unpacked_change names.now.slots.entries (number_of change.key) result ≡ change }
    {
        low(change.key.index);
        PackedChange {
            head: change.head,
            word: change.word,
            parent: names.parent_name(change.parent),
        }
    }

    /// The change to the slot of a number in few bytes, where slots stand for names.
    pub(crate) fn packed_at(&self, number: u64, names: &Names) -> PackedSlot
        ensures { result ≡ unpacked_change names.now.slots.entries number self.now }
    {
        PackedSlot {
            head: self.head,
            word: self.word,
            key: numbered_key(number),
            parent: names.named_parent(self.parent),
        }
    }

    /// The change to the slot of a number, where slots stand for names.
    pub(crate) fn at(&self, number: u64, names: &Names) -> NotedSlot
        ensures { result ≡ unpacked_change names.now.slots.entries number self.now }
    {
        NotedSlot {
            key: numbered_key(number),
            capability: capability_of(self.head, self.word),
            parent: names.named_parent(self.parent),
        }
    }
}
