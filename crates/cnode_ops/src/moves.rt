//! Moves of capabilities.

ghost use Rattle.std.specs.Prelude.{◌≡◌, OnErr};
ghost use Rattle.cnode_ops.specs.Nodes.{CNodesAreOpen, HasOpenSlots};
ghost use Rattle.cnode_ops.specs.Outcomes.{GivesMove};
ghost use Rattle.model.specs.Capabilities.Slots.{SameOutside};

use crate::named::{NodeCall, named_slots};
use derivation::relocate;
use model::{KError, SlotName};
use slots::SlotStore;

/// Moves a capability to another slot, with its parent, its children and its mapping.
///
/// # Errors
///
/// Those of names and slots that [`copy`](crate::copy) has. Nothing changes then.
pub fn move_cap<S: SlotStore>(
    store: &mut S,
    call: NodeCall,
    destination: SlotName,
    source: SlotName,
) -> Result<(), KError>
    requires there { HasOpenSlots (S.slots store.old) call.node }
    requires nodes { CNodesAreOpen (S.slots store.old) }
    ensures outcome { GivesMove call destination source
        (S.slots store.old) (S.slots store.new) result }
    ensures unchanged { OnErr result (store.new ≡ store.old) }
    ensures bytes { SameOutside (S.slots store.old) (S.memory store.old) (S.memory store.new) }
    ensures nodes { CNodesAreOpen (S.slots store.new) }
{
    let (to, from) = named_slots(store, call, destination, source)?;
    relocate(store, from, to);
    Ok(())
}
