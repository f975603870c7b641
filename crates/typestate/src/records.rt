//! What a record of a certificate notes of slots.

ghost use Rattle.std.specs.Prelude.{◌≡◌, ◌++◌, IfOk, map};
ghost use Rattle.std.specs.Option.{option_map_or};
ghost use Rattle.model.specs.Acceptance.NotedStates.{entry_key, entry_parent, entry_slot};
ghost use Rattle.model.specs.Capabilities.CapabilityFields.{unpacked};
ghost use Rattle.model.specs.Capabilities.CapabilityWords.{IsCapability};
ghost use Rattle.model.specs.declared.capabilities.Cap.TheVariants.{Empty};

use crate::{NotedSlot, SlotKey};
use capwords::unpack;
use image_reading::RecordRef;
use model::{Cap, SlotEntry};
use std::alloc::AllocError;

/// The capability that two words stand for.
pub(crate) fn capability_of(word0: u32, word1: u32) -> Cap
    ensures value { result ≡ option_map_or (λ capability. capability) (unpacked word0 word1) Empty }
    ensures valid { IsCapability result }
{
    match unpack([word0, word1]) {
        Some(capability) => capability,
        None => Cap::Empty,
    }
}

/// The slot that an entry's was derived from, if it is none in the boot CNode.
fn parent_of(entry: &SlotEntry) -> Option<SlotKey>
    ensures { result ≡ entry_parent entry.now }
{
    if entry.parent_cnode == u32::MAX {
        return None;
    }
    Some(SlotKey {
        cnode: entry.parent_cnode,
        index: entry.parent_index,
    })
}

/// The key of the slot that an entry of a record notes.
pub(crate) fn key_of(entry: &SlotEntry) -> SlotKey
    ensures { result ≡ entry_key entry.now }
{
    SlotKey {
        cnode: entry.cnode,
        index: entry.index,
    }
}

/// The slot that an entry of a record notes.
fn noted_slot(entry: &SlotEntry) -> NotedSlot
    ensures { result ≡ entry_slot entry.now }
{
    NotedSlot {
        key: key_of(entry),
        capability: capability_of(entry.word0, entry.word1),
        parent: parent_of(entry),
    }
}

/// Appends the slots that a record notes, as changes to the image's.
///
/// # Errors
///
/// Memory may be refused.
pub fn note_record(changes: &mut Vec<NotedSlot>, noted: &RecordRef<'_>) -> Result<(), AllocError>
    ensures { IfOk result (λ _. changes.new.items ≡ changes.old.items ++ map entry_slot noted.now.slots) }
{
    for entry in noted.slots() {
        changes.push(noted_slot(&entry))?;
    }
    Ok(())
}
