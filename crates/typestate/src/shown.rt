//! Changes by their slots, and by the pages that they map.

ghost use Rattle.std.specs.Prelude.{◌≡◌, [], IfOk, Some, List, if◌then◌else◌, map};
ghost use Rattle.model.specs.Acceptance.NotedStates.{NotedSlot, SlotKey, is_same_key, slot_at};
ghost use Rattle.typestate.specs.Differences.{changed, slots_of};
ghost use Rattle.typestate.specs.Orders.{Rise};
ghost use Rattle.typestate.specs.Replays.{exchanged, replayed, with_entry};
ghost use Rattle.typestate.specs.Unlinked.{AreUnlinked};

use crate::packed_slot::PackedSlot;
use crate::{Changes, LogEntry, MappedPages, NotedSlot, NotedSlots, SlotKey};
use std::alloc::{AllocError, Global};
use std::marker::Model;

/// Changes whose keys rise, each found by its slot, by what that was derived from, and by the page that it maps. A clause sees their
/// list.
#[derive(Drop)]
pub struct ShownChanges {
    changes: Changes,
    pages: MappedPages,
}

impl Model for ShownChanges {
    ghost use Rattle.std.specs.Prelude.{List};
    ghost use Rattle.model.specs.Acceptance.NotedStates.{NotedSlot};
    ghost use Rattle.typestate.specs.Orders.{AreNarrow};
    ghost use Rattle.typestate.specs.Pages.{ArePaged};

    ghost Value = { List NotedSlot };

    ghost view = { λ shown. shown.changes };

    ghost invariant = { λ shown. ArePaged shown.changes shown.pages.slots.keys × AreNarrow shown.changes };
}

impl ShownChanges {
    /// No changes.
    pub(crate) fn new(alloc: Global) -> Self
        ensures { result ≡ [] }
    {
        ShownChanges {
            changes: Changes::new(alloc),
            pages: MappedPages::new(alloc),
        }
    }

    /// Puts a change among the others, in place of one to the same slot. Memory may be refused.
    fn put(&mut self, change: PackedSlot) -> Result<(), AllocError>
        requires { Rise self.old }
        ensures rising { IfOk result (λ _. Rise self.new) }
        ensures same { IfOk result (λ _. (key : SlotKey) → slot_at self.new key ≡ (if is_same_key change.key key then Some change else slot_at self.old key)) }
    {
        self.pages.add(change)?;
        if let Some(before) = self.changes.put(change)? {
            self.pages.replace(before, change);
        }
        Ok(())
    }

    /// What was derived from the one slot is derived from the other one, and the other way round. Memory may be refused.
    fn swap(&mut self, one: SlotKey, other: SlotKey) -> Result<(), AllocError>
        ensures { IfOk result (λ _. self.new ≡ map (exchanged one other) self.old) }
    {
        self.changes.swap(one, other)?;
        Ok(())
    }

    /// Makes an entry of a log after these changes. Memory may be refused.
    fn make(&mut self, entry: LogEntry) -> Result<(), AllocError>
        requires { Rise self.old }
        ensures rising { IfOk result (λ _. Rise self.new) }
        ensures same { IfOk result (λ _. (slots : List NotedSlot) → Rise slots → AreUnlinked slots
            → changed slots self.new ≡ with_entry (changed slots self.old) entry) }
    {
        match entry {
            LogEntry::Sets(change) => {
                self.put(change)?;
                Ok(())
            }
            LogEntry::Swaps { one, other } => {
                self.swap(one, other)?;
                Ok(())
            }
        }
    }

    /// Makes entries of a log one after another after these changes. Memory may be refused.
    pub(crate) fn make_all(&mut self, made: &[LogEntry]) -> Result<(), AllocError>
        requires { Rise self.old }
        ensures rising { IfOk result (λ _. Rise self.new) }
        ensures same { IfOk result (λ _. (slots : List NotedSlot) → Rise slots → AreUnlinked slots
            → changed slots self.new ≡ replayed (changed slots self.old) made.now) }
    {
        for entry in made {
            self.make(*entry)?;
        }
        Ok(())
    }

    /// The slots with the changes made to those of the image.
    pub(crate) fn slots<'s>(&'s self, image: &'s [NotedSlot]) -> NotedSlots<'s>
        requires shown { Rise self.now }
        requires rising { Rise image.now }
        requires unlinked { AreUnlinked image.now }
        ensures slots { slots_of result ≡ changed image.now self.now }
        ensures image { result.image.now ≡ image.now }
    {
        NotedSlots {
            image,
            changes: &self.changes,
            pages: Some(&self.pages),
        }
    }
}
