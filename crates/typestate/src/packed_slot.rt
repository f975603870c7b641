//! A slot in few bytes.

ghost use Rattle.std.specs.Prelude.{◌≡◌, None, false};
ghost use Rattle.model.specs.Capabilities.CapabilityKinds.{frame_mapping};
ghost use Rattle.model.specs.Capabilities.CapabilityWords.{words_of};
ghost use Rattle.model.specs.Capabilities.Slots.{is_empty};

use crate::records::capability_of;
use crate::{NotedSlot, SlotKey};
use capwords::pack;
use std::marker::Model;

/// The kind of a capability to a frame, in the lowest four bits of its first word.
const FRAME: u32 = 6;

/// A slot in 28 bytes: what it holds is kept as the capability's words. A clause sees the slot.
#[derive(Clone, Copy)]
pub struct PackedSlot {
    pub(crate) head: u32,
    pub(crate) word: u32,
    pub(crate) key: SlotKey,
    pub(crate) parent: Option<SlotKey>,
}

impl Model for PackedSlot {
    ghost use Rattle.std.specs.Prelude.{◌≡◌, ◌∷◌, [], get_or};
    ghost use Rattle.model.specs.Acceptance.NotedStates.{NotedSlot};
    ghost use Rattle.model.specs.Capabilities.CapabilityWords.{words_of};
    ghost use Rattle.typestate.specs.PackedChanges.{cap_of};

    ghost Value = { NotedSlot };

    ghost view = { λ slot. record { key = slot.key; capability = cap_of slot.head slot.word; parent = slot.parent } };

    ghost invariant = { λ slot. words_of (cap_of slot.head slot.word) ≡ slot.head ∷ slot.word ∷ [] };

    ghost inverse = { λ slot. record {
      head = get_or (words_of slot.capability) 0 0;
      word = get_or (words_of slot.capability) 1 0;
      key = slot.key;
      parent = slot.parent;
    } };

    ghost inverse_ok = { λ slot spelled i. record { head = get_or (spelled i) 0 0; word = get_or (spelled i) 1 0; key = slot.key; parent = slot.parent } };
}

impl PackedSlot {
    /// The slot in few bytes.
    pub(crate) fn of(slot: NotedSlot) -> Self
        ensures { result ≡ slot }
    {
        let [head, word] = pack(slot.capability);
        PackedSlot {
            head,
            word,
            key: slot.key,
            parent: slot.parent,
        }
    }

    /// Which slot it is.
    pub fn key(&self) -> SlotKey
        ensures { result ≡ self.now.key }
    {
        self.key
    }

    /// What it was derived from.
    pub fn parent(&self) -> Option<SlotKey>
        ensures { result ≡ self.now.parent }
    {
        self.parent
    }

    /// The two words of the capability.
    pub fn words(&self) -> [u32; 2]
        ensures { result ≡ words_of self.now.capability }
    {
        [self.head, self.word]
    }

    /// Whether the slot is empty.
    pub fn is_empty(&self) -> bool
        ensures { result ≡ is_empty self.now.capability }
    {
        self.head == 0
    }

    /// Whether the slot may hold a frame: what holds none maps no page.
    pub(crate) fn may_map(&self) -> bool
        ensures { result ≡ false → frame_mapping self.now.capability ≡ None }
    {
        self.head % 16 == FRAME
    }

    /// The slot.
    pub fn unpacked(&self) -> NotedSlot
        ensures { result ≡ self.now }
    {
        NotedSlot {
            key: self.key,
            capability: capability_of(self.head, self.word),
            parent: self.parent,
        }
    }
}
