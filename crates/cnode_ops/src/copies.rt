//! Copies of capabilities.

ghost use Rattle.std.specs.Prelude.{◌≡◌, OnErr};
ghost use Rattle.cnode_ops.specs.Nodes.{CNodesAreOpen, HasOpenSlots};
ghost use Rattle.cnode_ops.specs.Outcomes.{GivesCopy, GivesMint};
ghost use Rattle.model.specs.Capabilities.Slots.{SameOutside};

use crate::named::{NodeCall, named_slots};
use derivation::{copy_of, insert_child, minted_copy_of};
use model::{KError, SlotName};
use slots::SlotStore;

/// Copies a capability: a child of the source, with those of its rights that the rights word has too, and without a mapping.
///
/// # Errors
///
/// The first check that fails gives the error. Destination: its name is wrong (`RangeError`, `FailedLookup`), it is full
/// (`DeleteFirst`). Source: its name is wrong (`RangeError`, `FailedLookup`), it is empty (`FailedLookup`), it may not be
/// copied, or is of depth 255 (`IllegalOperation`). Nothing changes then.
pub fn copy<S: SlotStore>(
    store: &mut S,
    call: NodeCall,
    destination: SlotName,
    source: SlotName,
    rights: u32,
) -> Result<(), KError>
    requires there { HasOpenSlots (S.slots store.old) call.node }
    requires nodes { CNodesAreOpen (S.slots store.old) }
    ensures outcome { GivesCopy call destination source rights
        (S.slots store.old) (S.slots store.new) result }
    ensures unchanged { OnErr result (store.new ≡ store.old) }
    ensures bytes { SameOutside (S.slots store.old) (S.memory store.old) (S.memory store.new) }
    ensures nodes { CNodesAreOpen (S.slots store.new) }
{
    let (to, from) = named_slots(store, call, destination, source)?;
    let capability = copy_of(store.capability(from), rights)?;
    insert_child(store, to, capability, from)
}

/// Copies a capability, as [`copy`] does, with a badge or a guard word.
///
/// # Errors
///
/// Between the errors of [`copy`] on what may be copied and on the depth, the first of these gives the error: the source has
/// a badge already (`IllegalOperation`), the badge has more than 28 bits (`RangeError`), the word is no guard word of the
/// CNode (`IllegalOperation`). Nothing changes then.
pub fn mint<S: SlotStore>(
    store: &mut S,
    call: NodeCall,
    destination: SlotName,
    source: SlotName,
    rights: u32,
    payload: u32,
) -> Result<(), KError>
    requires there { HasOpenSlots (S.slots store.old) call.node }
    requires nodes { CNodesAreOpen (S.slots store.old) }
    ensures outcome { GivesMint call destination source rights payload
        (S.slots store.old) (S.slots store.new) result }
    ensures unchanged { OnErr result (store.new ≡ store.old) }
    ensures bytes { SameOutside (S.slots store.old) (S.memory store.old) (S.memory store.new) }
    ensures nodes { CNodesAreOpen (S.slots store.new) }
{
    let (to, from) = named_slots(store, call, destination, source)?;
    let capability = minted_copy_of(store.capability(from), rights, payload)?;
    insert_child(store, to, capability, from)
}
