//! Moves of capabilities that change them.

ghost use Rattle.std.specs.Prelude.{◌≡◌, OnErr};
ghost use Rattle.cnode_ops.specs.Nodes.{CNodesAreOpen, HasOpenSlots};
ghost use Rattle.cnode_ops.specs.Outcomes.{GivesMutate};
ghost use Rattle.model.specs.Capabilities.Slots.{SameOutside};

use crate::named::{NodeCall, named_slots};
use derivation::{mutation_of, relocate};
use model::{KError, SlotName};
use slots::SlotStore;

/// Moves a capability, as [`move_cap`](crate::move_cap) does, and gives a CNode's capability another guard word.
///
/// # Errors
///
/// After those of names and slots: the source is an endpoint's or a notification's capability, or the word is no guard word
/// of the CNode (`IllegalOperation`). Nothing changes then.
pub fn mutate<S: SlotStore>(
    store: &mut S,
    call: NodeCall,
    destination: SlotName,
    source: SlotName,
    payload: u32,
) -> Result<(), KError>
    requires there { HasOpenSlots (S.slots store.old) call.node }
    requires nodes { CNodesAreOpen (S.slots store.old) }
    ensures outcome { GivesMutate call destination source payload
        (S.slots store.old) (S.slots store.new) result }
    ensures unchanged { OnErr result (store.new ≡ store.old) }
    ensures bytes { SameOutside (S.slots store.old) (S.memory store.old) (S.memory store.new) }
    ensures nodes { CNodesAreOpen (S.slots store.new) }
{
    let (to, from) = named_slots(store, call, destination, source)?;
    let capability = mutation_of(store.capability(from), payload)?;
    relocate(store, from, to);
    store.set_cap(to, capability);
    Ok(())
}
