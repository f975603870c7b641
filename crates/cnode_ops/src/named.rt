//! The slots that a call on a CNode names.

ghost use Rattle.std.specs.Prelude.{◌≡◌, Some, IfOk, true};
ghost use Rattle.cnode_ops.specs.Nodes.{CNodesAreOpen, HasOpenSlots};
ghost use Rattle.cnode_ops.specs.Results.{named_slots};
ghost use Rattle.model.specs.Capabilities.CapabilityFields.{is_capability};
ghost use Rattle.model.specs.Capabilities.Slots.{IsFull, empty_entry};

use cspace::{destination_slot, source_slot};
use model::{Cap, KError, Slot, SlotName};
use slots::SlotStore;

/// The context of a call on a CNode, by two valid capabilities.
#[derive(Clone, Copy)]
pub struct NodeCall {
    /// The root of the caller's capability space, in which sources are named.
    pub root: Cap,
    /// The invoked CNode, under which destinations are named.
    pub node: Cap,
    ghost root_valid: { is_capability root ≡ true },
    ghost node_valid: { is_capability node ≡ true },
}

/// The slots that a call names: an empty one under its CNode, and then a full one in the caller's
/// capability space.
pub(crate) fn named_slots<S: SlotStore>(
    store: &S,
    call: NodeCall,
    destination: SlotName,
    source: SlotName,
) -> Result<(Slot, Slot), KError>
    requires there { HasOpenSlots (S.slots store.now) call.node }
    requires nodes { CNodesAreOpen (S.slots store.now) }
    ensures value { result ≡ named_slots (S.slots store.now) call.root call.node destination source }
    ensures free { IfOk result (λ found. S.slots store.now found.0 ≡ Some empty_entry) }
    ensures full { IfOk result (λ found. IsFull (S.slots store.now) found.1) }
{
    let to = destination_slot(store, call.node, destination)?;
    // A store that counts depths keeps derivation in order: an empty slot has no parent.
    let _depth = store.depth(to);
    let from = source_slot(store, call.root, source)?;
    Ok((to, from))
}
