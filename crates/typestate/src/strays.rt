//! Slots that a thread may not have.

ghost use Rattle.std.specs.Prelude.{ℕ, ◌≡◌, ◌||◌, [], length, option_map};
ghost use Rattle.std.specs.List.{list_any};
ghost use Rattle.model.specs.Acceptance.NotedStates.{PointState, has_stray_slots, is_foreign, is_own, leads_to_boot, notes_outside, record_of};
ghost use Rattle.typestate.specs.Differences.{slots_of};
ghost use Rattle.typestate.specs.Strays.{cnodes_of, is_stray_at, is_stray_in, is_unfit};

use crate::records::key_of;
use crate::{NotedSlot, NotedSlots, SlotKey, Space, ToldSlots};
use image_reading::RecordRef;
use model::Cap;

impl NotedSlots<'_> {
    /// Whether parents lead from a slot to the boot CNode. They may go round: only changes bring parents, so that no line is longer
    /// than there are changes, but for the slot at its end.
    fn leads_to_boot(&self, parent: Option<SlotKey>) -> bool
        ensures { result ≡ leads_to_boot (length (slots_of self.now)) (slots_of self.now) parent }
    {
        let mut place = parent;
        'line: for _ in 0..self.changes.len() + 1 {
            let Some(key) = place else {
                return true;
            };
            let Some(slot) = self.at(key) else {
                return false;
            };
            place = slot.parent;
        }
        place.is_none()
    }
}

impl Space<'_, '_> {
    /// Whether a slot of this key is in one of the thread's CNodes.
    pub fn is_own(&self, key: SlotKey) -> bool
        ensures { result ≡ is_own self.now.image.now (cnodes_of self.now) key }
    {
        self.windows.have_key(key)
    }

    /// Whether a capability is none that the thread may have: one to a thread, a page table or interrupt control, or one
    /// to a CNode or a root table that is not the thread's.
    fn is_foreign(&self, capability: Cap) -> bool
        ensures { result ≡ is_foreign self.now.image.now self.now.thread.now (cnodes_of self.now) capability }
    {
        match capability {
            Cap::Tcb { .. } | Cap::PageTable { .. } | Cap::InterruptControl => true,
            Cap::CNode { offset, radix, .. } => self.windows.at(offset, radix).is_none(),
            Cap::RootTable { offset } => offset != self.table,
            _ => false,
        }
    }

    /// Whether a slot is one that the thread may not have, wherever its parents lead.
    pub(crate) fn is_unfit(&self, slot: NotedSlot) -> bool
        ensures { result ≡ is_unfit self.now slot }
    {
        !self.is_own(slot.key) || self.is_foreign(slot.capability)
    }

    /// Whether a slot is one that the thread may not have.
    fn is_stray(&self, slots: &NotedSlots<'_>, slot: NotedSlot) -> bool
        ensures { result ≡ is_stray_in self.now (slots_of slots.now) slot }
    {
        self.is_unfit(slot) || !slots.leads_to_boot(slot.parent)
    }

    /// Whether the slot of this key is one that the thread may not have. What a later change took away is none.
    fn holds_stray(&self, slots: &NotedSlots<'_>, key: SlotKey) -> bool
        ensures { result ≡ is_stray_at self.now (slots_of slots.now) key }
    {
        match slots.at(key) {
            Some(held) => self.is_stray(slots, held),
            None => false,
        }
    }

    /// Whether one of the slots of these keys is one that the thread may not have.
    fn one_stray(&self, slots: &NotedSlots<'_>, keys: &[NotedSlot]) -> bool
        ensures { result ≡ list_any (λ k. is_stray_at self.now (slots_of slots.now) k.key) keys.now }
    {
        for slot in keys {
            if self.holds_stray(slots, slot.key) {
                return true;
            }
        }
        false
    }

    /// Whether one of the slots that the changes name is one that the thread may not have.
    fn one_change_stray(&self, slots: &NotedSlots<'_>) -> bool
        ensures { result ≡ list_any (λ k. is_stray_at self.now (slots_of slots.now) k.key) slots.now.changes.now }
    {
        for change in slots.changes.iter() {
            if self.holds_stray(slots, change.key) {
                return true;
            }
        }
        false
    }

    /// Whether a slot is one that the thread may not have, where no other slot is full: what has a parent is one.
    fn is_stray_alone(&self, slot: NotedSlot) -> bool
        ensures { result ≡ is_stray_in self.now [] slot }
    {
        self.is_unfit(slot) || slot.parent.is_some()
    }

    /// Whether one of these is a slot that the thread may not have, where no other slot is full.
    pub fn lists_stray(&self, listed: &[NotedSlot]) -> bool
        ensures { result ≡ list_any (is_stray_in self.now []) listed.now }
    {
        for slot in listed {
            if self.is_stray_alone(*slot) {
                return true;
            }
        }
        false
    }

    /// Whether a record notes a slot outside of the thread's CNodes, be it full or empty.
    fn notes_outside(&self, noted: &RecordRef<'_>) -> bool
        ensures { result ≡ notes_outside self.now.image.now (cnodes_of self.now) noted.now }
    {
        for entry in noted.slots() {
            if !self.is_own(key_of(&entry)) {
                return true;
            }
        }
        false
    }
}

impl ToldSlots<'_, '_, '_> {
    /// Whether a slot that the image lists is one that the thread may not have. Where none is by itself, none is beside others
    /// either: what was said of them once is not asked again.
    fn keeps_stray(&self) -> bool
        ensures { (result || list_any (λ k. is_stray_at self.now.space (slots_of self.now.slots) k.key) self.now.slots.changes.now)
            ≡ list_any (is_stray_in self.now.space (slots_of self.now.slots)) (slots_of self.now.slots) }
    {
        if self.lists_stray {
            self.space.one_stray(&self.slots, self.slots.image)
        } else {
            false
        }
    }

    /// Whether some slot is one that the thread may not have.
    fn has_stray(&self) -> bool
        ensures { result ≡ list_any (is_stray_in self.now.space (slots_of self.now.slots)) (slots_of self.now.slots) }
    {
        let listed = self.keeps_stray();
        let changed = self.space.one_change_stray(&self.slots);
        listed || changed
    }

    /// Whether some noted slot of a point is one that the thread may not have, or the point's record, if it has one, notes a
    /// slot outside of the thread's CNodes.
    pub fn has_stray_slots(&self, noted: Option<&RecordRef<'_>>) -> bool
        ensures { (point : ℕ) (state : PointState) → state.slots ≡ slots_of self.now.slots
            → record_of self.now.space.thread.now point ≡ option_map (λ r. r.now) noted.entry
            → result ≡ has_stray_slots self.now.space.image.now self.now.space.thread.now point state }
    {
        if !self.is_clean && self.has_stray() {
            return true;
        }
        match noted {
            Some(noted) => self.space.notes_outside(noted),
            None => false,
        }
    }
}
