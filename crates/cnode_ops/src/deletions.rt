//! Calls that take capabilities away.

ghost use Rattle.std.specs.Prelude.{◌≡◌, OnErr};
ghost use Rattle.model.specs.Kernel.Outcomes.{GivesState};
ghost use Rattle.model.specs.Kernel.Arguments.{Call};
ghost use Rattle.model.specs.Kernel.CNodeCalls.{on_cnode};
ghost use Rattle.model.specs.declared.invocations.CNodeCall.TheVariants.{Delete, Revoke};
ghost use Rattle.objects.specs.Lives.{state_in};

use crate::Kernel;
use crate::named::NodeCall;
use crate::removal::{remove, remove_slot};
use crate::sets::Removed;
use cspace::argument_slot;
use model::{KError, SlotName};
use slots::SlotStore;

/// Empties the slot of a name under a CNode: an empty one stays as it is.
///
/// seL4 Reference Manual, seL4_CNode_Delete.
///
/// # Errors
///
/// The depth of the name is out of its range (`RangeError`), the lookup fails or leaves bits over (`FailedLookup`), or a
/// CNode or a thread would end that still holds another capability (`RevokeFirst`). Nothing changes then.
pub fn delete<S: SlotStore>(
    kernel: &mut Kernel<S>,
    call: NodeCall,
    name: SlotName,
) -> Result<(), KError>
    ensures outcome { (made : Call) → made.capability ≡ call.node
        → GivesState (on_cnode (state_in S.slots S.memory kernel.old) made (Delete name)) result (state_in S.slots S.memory kernel.new) }
    ensures unchanged { OnErr result (kernel.new ≡ kernel.old) }
{
    let live = &kernel.live;
    let slot = argument_slot(&live.store, call.node, name)?;
    remove_slot(kernel, slot)
}

/// Takes all capabilities away that are derived from the one in the slot of a name under a CNode; that one stays.
///
/// seL4 Reference Manual, seL4_CNode_Revoke.
///
/// # Errors
///
/// Those of [`delete`]. Nothing changes then.
pub fn revoke<S: SlotStore>(
    kernel: &mut Kernel<S>,
    call: NodeCall,
    name: SlotName,
) -> Result<(), KError>
    ensures outcome { (made : Call) → made.capability ≡ call.node
        → GivesState (on_cnode (state_in S.slots S.memory kernel.old) made (Revoke name)) result (state_in S.slots S.memory kernel.new) }
    ensures unchanged { OnErr result (kernel.new ≡ kernel.old) }
{
    let live = &kernel.live;
    let slot = argument_slot(&live.store, call.node, name)?;
    remove(kernel, Removed::Below(slot))
}
