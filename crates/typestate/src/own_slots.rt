//! The slots of a thread's CNodes by the kernel's numbers.

ghost use Rattle.typestate.specs.Differences.{slots_of};
ghost use Rattle.typestate.specs.Spaces.{own_slots};

use crate::{NotedSlots, Windows};
use model::{Cap, Slot};
use slots::SlotMap;

/// The slots of a thread's CNodes at a point, as a map of capabilities: what each was derived from is not in it.
#[derive(Clone, Copy)]
pub struct OwnSlots<'w, 's> {
    pub windows: &'w Windows,
    pub slots: NotedSlots<'s>,
}

impl SlotMap for OwnSlots<'_, '_> {
    ghost slots = { λ own. own_slots own.windows.now (slots_of own.slots) };

    fn capability(&self, slot: Slot) -> Cap {
        match self.windows.key(slot.number()) {
            Some(key) => self.slots.capability(key),
            None => Cap::Empty,
        }
    }

    fn get(&self, slot: Slot) -> (Cap, Option<Slot>) {
        (self.capability(slot), None)
    }
}
