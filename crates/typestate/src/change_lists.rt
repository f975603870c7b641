//! What a call makes of the slots, as changes to be appended.
//! seL4 Reference Manual, "Deletion, Revocation, and Recycling".

ghost use Rattle.std.specs.Prelude.{◌≡◌, ◌++◌, IfOk, map};
ghost use Rattle.typestate.specs.ChangeLists.{changes_of, children_kept, removal_changes};
ghost use Rattle.typestate.specs.SlotChanges.{emptied, followed, is_parent};
ghost use Rattle.typestate.specs.declared.log_entries.LogEntry.TheVariants.{Sets};
ghost use Rattle.typestate.specs.declared.slot_changes.SlotChange.TheVariants.{Moves, Removes};

use crate::log_entries::note_packed_sets;
use crate::packed_slot::PackedSlot;
use crate::removal::Removal;
use crate::{LogEntry, NotedSlot, NotedSlots, Removed, SlotChange, SlotKey};
use model::Cap;
use std::alloc::{AllocError, Global};

/// Whether a slot was derived from the slot of this key.
pub(crate) fn is_parent(key: SlotKey, parent: Option<SlotKey>) -> bool
    ensures { result ≡ is_parent key parent }
{
    match parent {
        Some(parent) => parent.is_same(key),
        None => false,
    }
}

/// A change that empties a slot.
pub(crate) fn emptied(key: SlotKey) -> NotedSlot
    ensures { result ≡ emptied key }
{
    NotedSlot {
        key,
        capability: Cap::Empty,
        parent: None,
    }
}

/// A slot that was derived from another one, where that moves.
fn followed(from: SlotKey, to: SlotKey, slot: NotedSlot) -> NotedSlot
    ensures { result ≡ followed from to slot }
{
    if is_parent(from, slot.parent) {
        NotedSlot {
            key: slot.key,
            capability: slot.capability,
            parent: Some(to),
        }
    } else {
        slot
    }
}

/// Appends that slots hold what they hold, but for those that were derived from one that moves. Memory may be refused.
fn note_followed(
    from: SlotKey,
    to: SlotKey,
    slots: &[PackedSlot],
    made: &mut Vec<LogEntry>,
) -> Result<(), AllocError>
    ensures { IfOk result (λ _. made.new.items ≡ made.old.items ++ map (λ s. Sets (followed from to s)) slots.now) }
{
    for slot in slots {
        made.push(LogEntry::Sets(PackedSlot::of(followed(from, to, slot.unpacked()))))?;
    }
    Ok(())
}

impl NotedSlots<'_> {
    /// Appends that what was derived from the slot to which one moves stays with it. Memory may be refused.
    fn note_kept(
        &self,
        from: SlotKey,
        to: SlotKey,
        made: &mut Vec<LogEntry>,
    ) -> Result<(), AllocError>
        ensures { IfOk result (λ _. made.new.items ≡ made.old.items ++ map (λ s. Sets s) (children_kept self.now from to)) }
    {
        let mut children = Vec::new(*made.allocator());
        self.note_children_of(to, &mut children)?;
        note_followed(from, to, &children, made)?;
        Ok(())
    }

    /// Appends what a call makes of the slots that moves one: what was derived from it follows. Memory may be refused.
    fn note_move(
        &self,
        from: SlotKey,
        to: NotedSlot,
        made: &mut Vec<LogEntry>,
    ) -> Result<(), AllocError>
        ensures { IfOk result (λ _. made.new.items ≡ made.old.items ++ changes_of self.now (Moves from to)) }
    {
        made.push(LogEntry::Swaps {
            one: from,
            other: to.key,
        })?;
        self.note_kept(from, to.key, made)?;
        made.push(LogEntry::Sets(PackedSlot::of(to)))?;
        made.push(LogEntry::Sets(PackedSlot::of(emptied(from))))?;
        Ok(())
    }

    /// What becomes of the slots where some go. Memory may be refused.
    fn removal_changes(&self, alloc: Global, which: Removed) -> Result<Vec<PackedSlot>, AllocError>
        ensures { IfOk result (λ removed. removed.items ≡ removal_changes self.now which) }
    {
        let affected = self.affected(alloc, &which)?;
        let removal = Removal {
            slots: *self,
            which,
            below: &affected.below,
            touched: affected.touched(),
            is_all: affected.all_go(),
        };
        let mut removed = Vec::new(alloc);
        removal.note_all(&mut removed)?;
        Ok(removed)
    }

    /// Appends what a call makes of the slots that takes some away. Memory may be refused.
    fn note_removal(&self, which: Removed, made: &mut Vec<LogEntry>) -> Result<(), AllocError>
        ensures { IfOk result (λ _. made.new.items ≡ made.old.items ++ changes_of self.now (Removes which)) }
    {
        let removed = self.removal_changes(*made.allocator(), which)?;
        note_packed_sets(&removed, made)
    }

    /// Appends what a call makes of the slots. What the image lists was derived from none of the thread's slots: of its slots
    /// only those that the call names change.
    ///
    /// # Errors
    ///
    /// Memory may be refused.
    pub fn note_change(
        &self,
        change: &SlotChange,
        made: &mut Vec<LogEntry>,
    ) -> Result<(), AllocError>
        ensures { IfOk result (λ _. made.new.items ≡ made.old.items ++ changes_of self.now change.now) }
    {
        match change {
            SlotChange::Nothing => Ok(()),
            SlotChange::Puts(slot) => {
                made.push(LogEntry::Sets(PackedSlot::of(*slot)))?;
                Ok(())
            }
            SlotChange::Moves { from, to } => self.note_move(*from, *to, made),
            SlotChange::Removes(which) => self.note_removal(*which, made),
        }
    }
}
