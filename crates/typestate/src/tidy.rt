//! Changes of slots that leave none that a thread may not have, where there was none: the change alone shows this, and
//! none of the other slots is asked.
//! seL4 Reference Manual, "Capability Derivation Tree".

ghost use Rattle.std.specs.Prelude.{◌≡◌, is_some, true};
ghost use Rattle.std.specs.Option.{option_map_or};
ghost use Rattle.model.specs.Acceptance.NotedStates.{slot_at};
ghost use Rattle.model.specs.Capabilities.Slots.{is_empty};
ghost use Rattle.typestate.specs.Differences.{slots_of};
ghost use Rattle.typestate.specs.Strays.{is_tidy, is_tidy_move, is_tidy_put, keeps_line, keeps_parent};

use crate::change_lists::is_parent;
use crate::comparisons::is_same_parent;
use crate::{NotedSlot, NotedSlots, SlotChange, SlotKey, Space};
use model::Cap;

/// Whether a capability is none.
fn is_empty(capability: Cap) -> bool
    ensures { result ≡ is_empty capability }
{
    matches!(capability, Cap::Empty)
}

impl NotedSlots<'_> {
    /// Whether what a slot hangs below is full: the boot CNode, or a slot that is.
    fn hangs(&self, parent: Option<SlotKey>) -> bool
        ensures { result ≡ option_map_or (λ p. is_some (slot_at (slots_of self.now) p)) parent true }
    {
        match parent {
            Some(key) => self.at(key).is_some(),
            None => true,
        }
    }

    /// Whether a slot that is put keeps the parent of what it takes the place of, or hangs below a full slot where nothing
    /// stood.
    fn keeps_line(&self, slot: NotedSlot) -> bool
        ensures { result ≡ keeps_line (slots_of self.now) slot }
    {
        match self.at(slot.key) {
            Some(old) => is_same_parent(slot.parent, old.parent),
            None => self.hangs(slot.parent),
        }
    }

    /// Whether what moves takes its parent along.
    fn keeps_parent(&self, from: SlotKey, slot: NotedSlot) -> bool
        ensures { result ≡ keeps_parent (slots_of self.now) from slot }
    {
        match self.at(from) {
            Some(old) => is_same_parent(slot.parent, old.parent),
            None => false,
        }
    }
}

impl Space<'_, '_> {
    /// Whether a slot that is put leaves no stray slot where there was none.
    fn is_tidy_put(&self, slots: &NotedSlots<'_>, slot: NotedSlot) -> bool
        ensures { result ≡ is_tidy_put self.now (slots_of slots.now) slot }
    {
        !self.is_unfit(slot) && !is_empty(slot.capability) && slots.keeps_line(slot)
    }

    /// Whether a slot that moves leaves no stray slot where there was none.
    fn is_tidy_move(&self, slots: &NotedSlots<'_>, from: SlotKey, slot: NotedSlot) -> bool
        ensures { result ≡ is_tidy_move self.now (slots_of slots.now) from slot }
    {
        !self.is_unfit(slot)
            && !is_empty(slot.capability)
            && slots.at(slot.key).is_none()
            && !is_parent(from, slot.parent)
            && slots.keeps_parent(from, slot)
    }

    /// Whether a change leaves no stray slot where there was none. What is removed leaves none.
    pub(crate) fn is_tidy(&self, slots: &NotedSlots<'_>, change: &SlotChange) -> bool
        ensures { result ≡ is_tidy self.now (slots_of slots.now) change.now }
    {
        match change {
            SlotChange::Nothing | SlotChange::Removes(_) => true,
            SlotChange::Puts(slot) => self.is_tidy_put(slots, *slot),
            SlotChange::Moves { from, to } => self.is_tidy_move(slots, *from, *to),
        }
    }
}
