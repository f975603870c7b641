//! Entries of a log of changes to slots.

ghost use Rattle.std.specs.Prelude.{◌≡◌, ◌++◌, IfOk, map};
ghost use Rattle.typestate.specs.declared.log_entries.LogEntry.TheVariants.{Sets};

use crate::packed_slot::PackedSlot;
use crate::{NotedSlot, SlotKey};
use std::alloc::AllocError;

/// An entry of a log of changes to slots.
#[derive(Clone, Copy)]
pub enum LogEntry {
    /// A slot holds this, or nothing any longer.
    Sets(PackedSlot),
    /// What was derived from the one slot is derived from the other one, and the other way round.
    Swaps { one: SlotKey, other: SlotKey },
}

/// Appends an entry for each of some changes. Memory may be refused.
pub(crate) fn note_sets(changes: &[NotedSlot], made: &mut Vec<LogEntry>) -> Result<(), AllocError>
    ensures { IfOk result (λ _. made.new.items ≡ made.old.items ++ map (λ s. Sets s) changes.now) }
{
    made.reserve(changes.len())?;
    for change in changes {
        made.push(LogEntry::Sets(PackedSlot::of(*change)))?;
    }
    Ok(())
}

/// The same of changes in few bytes. Memory may be refused.
pub(crate) fn note_packed_sets(
    changes: &[PackedSlot],
    made: &mut Vec<LogEntry>,
) -> Result<(), AllocError>
    ensures { IfOk result (λ _. made.new.items ≡ made.old.items ++ map (λ s. Sets s) changes.now) }
{
    made.reserve(changes.len())?;
    for change in changes {
        made.push(LogEntry::Sets(*change))?;
    }
    Ok(())
}
