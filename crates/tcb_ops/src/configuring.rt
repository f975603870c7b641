//! Giving a thread its spaces.

ghost use Rattle.std.specs.Prelude.{◌≡◌, ◌+◌, ◌/◌, ◌^◌, ◌<◌, OnErr};
ghost use Rattle.model.specs.Kernel.Outcomes.{GivesState};
ghost use Rattle.model.specs.Capabilities.CapabilityWords.{IsCapability};
ghost use Rattle.model.specs.Capabilities.Slots.{SameOutside};
ghost use Rattle.model.specs.Kernel.Soundness.{IsSound};
ghost use Rattle.model.specs.Kernel.ThreadCalls.{configure};
ghost use Rattle.objects.specs.Lives.{state_in};
ghost use Rattle.tcb_ops.specs.Configuring.{MayConfigure, spaces_put};
ghost use Rattle.vspace.specs.Tables.{Holds};

use crate::spaces::{Sources, Spaces, named_sources, with_guard};
use cnode_ops::Kernel;
use model::{Cap, KError, Slot};
use slots::SlotStore;

/// Puts copies of the sources into the two slots of a thread, the CNode's with a guard word if one is
/// given.
fn put_spaces<S: SlotStore>(store: &mut S, thread: u32, guard: Option<u32>, from: Sources)
    requires near { thread / 16 + 1 < 2 ^ 20 }
    requires may { MayConfigure (S.slots store.old) thread guard from.cspace from.vspace }
    ensures slots { S.slots store.new ≡ spaces_put (S.slots store.old) thread guard from.cspace from.vspace }
    ensures bytes { SameOutside (S.slots store.old) (S.memory store.old) (S.memory store.new) }
{
    let own = thread / 16;
    let node = with_guard(store.capability(from.cspace), guard);
    let table = store.capability(from.vspace);
    store.insert(Slot::new(own), node, Some(from.cspace));
    store.insert(Slot::new(own + 1), table, Some(from.vspace));
}

/// Copies of a CNode's and a root table's capability come into a thread's slots, the CNode's with another guard word if one
/// is given, and the thread gets a fault address.
///
/// seL4 Reference Manual, seL4_TCB_Configure.
///
/// # Errors
///
/// The first check that fails gives the error. CNode, and then root table: the name is wrong (`RangeError`, `FailedLookup`),
/// the slot is empty (`FailedLookup`), it holds another capability (`InvalidCapability`). Then: a slot of the thread is full
/// (`DeleteFirst`), the guard word is none of the CNode (`IllegalOperation`), the slot of the CNode or of the root table is
/// of depth 255 (`IllegalOperation`). Nothing changes then.
pub fn configure<S: SlotStore>(
    kernel: &mut Kernel<S>,
    root: Cap,
    thread: u32,
    spaces: Spaces,
) -> Result<(), KError>
    requires valid { IsSound (state_in S.slots S.memory kernel.old) → IsCapability root }
    requires held { Holds (S.slots kernel.old.store) (Cap.Tcb thread) }
    ensures outcome { GivesState
        (configure (state_in S.slots S.memory kernel.old) root thread spaces.guard spaces.fault_address spaces.cspace spaces.vspace)
        result (state_in S.slots S.memory kernel.new) }
    ensures unchanged { OnErr result (kernel.new ≡ kernel.old) }
{
    let live = &mut kernel.live;
    let from = named_sources(&live.store, root, thread, spaces)?;
    put_spaces(&mut live.store, thread, spaces.guard, from);
    live.set_fault_address(thread, spaces.fault_address);
    Ok(())
}
