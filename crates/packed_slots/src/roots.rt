//! Stores that know a short way to a root table.

ghost use Rattle.std.specs.Prelude.{◌≡◌};
ghost use Rattle.model.specs.Capabilities.CapabilityKinds.{root_of};
ghost use Rattle.model.specs.Capabilities.Slots.{capability_at};

use model::{Cap, Slot};
use slots::{PlainSlots, SlotStore};

/// A store of slots that may find the root table in a slot without reading the whole capability.
pub trait RootStore: SlotStore {
    /// The offset of the root table that a slot's capability names, if it is one of a root table: by the capability,
    /// where the store has no shorter way.
    fn root_table(&self, slot: Slot) -> Option<u32>
        ensures { result ≡ root_of (capability_at (Self.slots self.now) slot) }
    {
        match self.capability(slot) {
            Cap::RootTable { offset } => Some(offset),
            _ => None,
        }
    }
}

impl RootStore for PlainSlots {}
