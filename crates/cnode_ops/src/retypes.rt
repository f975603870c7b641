//! New objects in untyped memory, with their first capabilities.

ghost use Rattle.std.specs.Prelude.{◌≡◌, ◌≤◌, true, OnErr};
ghost use Rattle.model.specs.Kernel.Outcomes.{GivesState};
ghost use Rattle.model.specs.Kernel.ObjectTypes.{new_type};
ghost use Rattle.cnode_ops.specs.RetypeChecks.{places};
ghost use Rattle.model.specs.Capabilities.CapabilityWords.{IsCapability};
ghost use Rattle.model.specs.Capabilities.Slots.{IsOpen, capability_at};
ghost use Rattle.model.specs.Kernel.Arguments.{may_have_child};
ghost use Rattle.model.specs.Kernel.Retype.{is_small_enough, retype};
ghost use Rattle.model.specs.declared.capabilities.Cap.TheVariants.{Untyped};
ghost use Rattle.objects.specs.Lives.{state_in};
ghost use Rattle.soundness.specs.Calls.{IsRoot};

use crate::Kernel;
use crate::beginnings::{NewRange, Placing};
use crate::object_lifetimes::begin_objects;
use crate::windows::{named_node, window};
use model::{Cap, KError, ObjectType, RetypeCall, Slot, UntypedMemory};
use slots::SlotStore;
use untyped::{asked_type, object_bits, place};

/// Whether a child may hang below a slot.
///
/// # Errors
///
/// The slot is of depth 255 (`IllegalOperation`).
pub fn may_have_child<S: SlotStore>(store: &S, slot: Slot) -> Result<(), KError>
    requires { IsOpen (S.slots store.now) slot }
    ensures { result ≡ may_have_child (S.slots store.now) slot }
{
    if store.depth(slot) >= 255 {
        return Err(KError::IllegalOperation);
    }
    Ok(())
}

/// Where so many objects are after the watermark of untyped memory, and the watermark after them, if
/// they fit (`NotEnoughMemory`).
fn places(memory: UntypedMemory, new: ObjectType, count: u32) -> Result<(u32, u32), KError>
    requires valid { IsCapability (Untyped memory.offset memory.bits memory.watermark) }
    requires small { is_small_enough (new_type new) ≡ true }
    requires few { count ≤ 256 }
    ensures { result ≡ places memory (new_type new) count }
{
    match place(memory.bits, memory.watermark, object_bits(new), count) {
        Ok((first, watermark)) => Ok((memory.offset + first, watermark)),
        Err(_) => Err(KError::NotEnoughMemory),
    }
}

/// Makes objects in the unused part of untyped memory, which is in `slot`, with their first capabilities in a window of a
/// CNode.
///
/// seL4 Reference Manual, seL4_Untyped_Retype.
///
/// # Errors
///
/// The first check that fails gives the error: there is no such type or its size is too small (`InvalidArgument`) or too
/// great (`RangeError`); the CNode's name is wrong (`RangeError`, `FailedLookup`); the objects are none or too many, or the
/// window leaves the CNode (`RangeError`); a slot of the window is full (`DeleteFirst`); the untyped memory's slot is of
/// depth 255 (`IllegalOperation`); it has no room (`NotEnoughMemory`). Nothing changes then.
pub fn retype<S: SlotStore>(
    kernel: &mut Kernel<S>,
    root: Cap,
    slot: Slot,
    memory: UntypedMemory,
    call: RetypeCall,
) -> Result<(), KError>
    requires root { IsRoot (state_in S.slots S.memory kernel.old) root }
    requires held { capability_at (S.slots kernel.old.store) slot ≡ Untyped memory.offset memory.bits memory.watermark }
    ensures outcome { GivesState (retype (state_in S.slots S.memory kernel.old) root slot memory call) result (state_in S.slots S.memory kernel.new) }
    ensures unchanged { OnErr result (kernel.new ≡ kernel.old) }
{
    let kind = asked_type(call.kind, call.size)?;
    let node = named_node(kernel, root, call.node)?;
    let window = window(kernel, node, call.index, call.count)?;
    let live = &mut kernel.live;
    may_have_child(&live.store, slot)?;
    let (first, watermark) = places(memory, kind, call.count)?;
    let new = NewRange {
        kind,
        first,
        count: call.count,
    };
    let at = Placing {
        parent: slot,
        window,
        watermark,
    };
    begin_objects(&mut live.objects, &mut live.store, new, at);
    Ok(())
}
