//! A map of slots that can be read.

ghost use Rattle.std.specs.Prelude.{◌≡◌, Some};
ghost use Rattle.model.specs.Capabilities.CapabilityWords.{IsCapability};
ghost use Rattle.model.specs.Capabilities.Slots.{IsOpen, Slots, capability_at};
ghost use Rattle.model.specs.declared.slot_entries.Entry.{Entry};

use model::{Cap, Slot};

/// Which slots are open, and what each holds.
pub trait SlotMap {
    // What each open slot holds, by its number.
    ghost slots: { Self → Slots };

    /// The capability in a slot: an empty one where the slot is not open.
    fn capability(&self, slot: Slot) -> Cap
        ensures value { result ≡ capability_at (slots self.now) slot }
        ensures valid { IsCapability result };

    /// The capability in an open slot, and the slot that it was derived from.
    fn get(&self, slot: Slot) -> (Cap, Option<Slot>)
        requires { IsOpen (slots self.now) slot }
        ensures held { slots self.now slot ≡ Some (record { capability = result.0; parent = result.1 }) }
        ensures valid { IsCapability result.0 };
}
