//! The address space of a thread.

ghost use Rattle.std.specs.Prelude.{◌≡◌};
ghost use Rattle.model.specs.Capabilities.CapabilityKinds.{root_of};
ghost use Rattle.model.specs.Capabilities.Slots.{capability_at};
ghost use Rattle.model.specs.Kernel.AddressSpaces.{vspace_of};
ghost use Rattle.model.specs.Kernel.State.{vspace_slot};
ghost use Rattle.objects.specs.Lives.{state_in};

use cnode_ops::Kernel;
use model::Slot;
use packed_slots::RootStore;

/// How many bytes of memory a slot has.
const SLOT_SIZE: u32 = 16;

/// The root table in the second slot of what is at an offset, if there is one.
fn root_behind<S: RootStore>(store: &S, thread: u32) -> Option<u32>
    ensures { result ≡ root_of (capability_at (S.slots store.now) (vspace_slot thread)) }
{
    let number = thread / SLOT_SIZE + 1;
    if number >= store.count() {
        return None;
    }
    store.root_table(Slot::new(number))
}

/// The root table of a thread's address space: what the thread's second slot holds, if there is one.
pub fn root_of<S: RootStore>(kernel: &Kernel<S>, thread: u32) -> Option<u32>
    ensures { result ≡ vspace_of (state_in S.slots S.memory kernel.now) thread }
{
    let live = &kernel.live;
    root_behind(&live.store, thread)
}
