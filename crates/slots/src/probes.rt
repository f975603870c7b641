//! Tests of what the changes of a store ask for.

ghost use Rattle.std.specs.Prelude.{◌≡◌, ◌↔◌, Some, IsTrue};
ghost use Rattle.model.specs.Capabilities.Slots.{empty_entry, is_full};

use crate::{SlotMap, SlotStore};
use model::{Cap, Slot};

/// Whether a slot is open and empty.
pub fn is_free<S: SlotStore>(store: &S, slot: Slot) -> bool
    ensures { IsTrue result ↔ (S.slots store.now slot ≡ Some empty_entry) }
{
    store.is_open(slot) && matches!(store.get(slot), (Cap::Empty, None))
}

/// Whether a slot is open and holds a capability.
pub fn is_taken<S: SlotMap>(store: &S, slot: Slot) -> bool
    ensures { result ≡ is_full (S.slots store.now) slot }
{
    !matches!(store.capability(slot), Cap::Empty)
}
