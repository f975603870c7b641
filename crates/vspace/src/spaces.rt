//! Address spaces as programs see them.

ghost use Rattle.std.specs.Prelude.{◌≡◌};
ghost use Rattle.std.specs.Option.{ok_or};
ghost use Rattle.model.specs.Kernel.AddressSpaces.{place_under};
ghost use Rattle.model.specs.Kernel.State.{with_slots};
ghost use Rattle.model.specs.Kernel.State.{State};
ghost use Rattle.model.specs.Machine.Sv32.{page_fault};
ghost use Rattle.vspace.specs.Tables.{AreNear, Holds, TablesAgree};

use model::{Access, Cap, PageFault};
use slots::SlotStore;
use sv32::walk;

/// The place in memory that a virtual address names for an access under a root table: the byte of the frame that a capability
/// maps at its page.
///
/// # Errors
///
/// No capability maps a frame there with the right (`PageFault`).
pub fn place_under<S: SlotStore>(
    store: &S,
    root: u32,
    address: u32,
    access: Access,
) -> Result<u32, PageFault>
    requires agree { TablesAgree (S.slots store.now) (S.memory store.now) }
    requires rooted { Holds (S.slots store.now) (Cap.RootTable root) }
    ensures { (s : State) → AreNear s (S.slots store.now)
        → result ≡ ok_or (place_under (with_slots s (S.slots store.now)) root access address) page_fault }
{
    walk(store.mem(), root, address, access)
}
