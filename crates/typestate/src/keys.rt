//! Slots by their CNodes, and what they hold.

ghost use Rattle.std.specs.Prelude.{◌≡◌};
ghost use Rattle.model.specs.Acceptance.NotedStates.{is_same_key, number_of};

use model::Cap;
use std::marker::Model;

/// A slot by its CNode object and its index. A clause sees the definitions' key.
#[derive(Clone, Copy)]
pub struct SlotKey {
    pub cnode: u32,
    pub index: u32,
}

impl Model for SlotKey {
    ghost use Rattle.model.specs.Acceptance.NotedStates.{SlotKey};

    ghost Value = { SlotKey };

    ghost view = { λ key. record { cnode = key.cnode; index = key.index } };

    ghost inverse = { λ key. record { cnode = key.cnode; index = key.index } };
}

impl SlotKey {
    /// The key as one number: keys rise with it.
    pub fn number(self) -> u64
        ensures { result ≡ number_of self }
    {
        u64::from(self.cnode) * 0x1_0000_0000 + u64::from(self.index)
    }

    /// Whether both name one slot.
    pub fn is_same(self, other: SlotKey) -> bool
        ensures { result ≡ is_same_key self other }
    {
        self.number() == other.number()
    }
}

/// A slot of a thread's CNodes with the capability that it holds, and the slot that this one was derived from: one
/// of the thread's, or none where it is in the boot CNode. A clause sees the definitions' noted slot.
#[derive(Clone, Copy)]
pub struct NotedSlot {
    pub key: SlotKey,
    pub capability: Cap,
    pub parent: Option<SlotKey>,
}

impl Model for NotedSlot {
    ghost use Rattle.model.specs.Acceptance.NotedStates.{NotedSlot};
    ghost use Rattle.model.specs.Capabilities.CapabilityWords.{IsCapability};

    ghost Value = { NotedSlot };

    ghost view = { λ slot. record { key = slot.key; capability = slot.capability; parent = slot.parent } };

    ghost invariant = { λ slot. IsCapability slot.capability };

    ghost inverse = { λ slot. record { key = slot.key; capability = slot.capability; parent = slot.parent } };
}
