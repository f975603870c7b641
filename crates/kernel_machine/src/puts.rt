//! What is put into boot slots apart from calls.

ghost use Rattle.std.specs.Prelude.{◌≡◌, None, Some, false, if◌then◌else◌};
ghost use Rattle.objects.specs.Lives.{state_in};
ghost use Rattle.model.specs.Capabilities.CapabilityKinds.{object_of};
ghost use Rattle.model.specs.Capabilities.CapabilityWords.{IsCapability};
ghost use Rattle.model.specs.Capabilities.Slots.{is_empty};
ghost use Rattle.model.specs.Kernel.Setup.{put_control, put_in_boot_slot, put_untyped};
ghost use Rattle.model.specs.Kernel.Soundness.{IsSound};
ghost use Rattle.model.specs.Kernel.State.{State};
ghost use Rattle.vspace.specs.Agreement.{IsWithoutTables};

use crate::holders::{LINES, boot_slots};
use crate::places::{is_free, may_be_untyped};
use cnode_ops::Kernel;
use model::{Cap, Slot};
use slots::SlotStore;

/// Puts a capability that names no object, without a parent, into an empty boot slot, if it is one.
fn put<S: SlotStore>(kernel: &mut Kernel<S>, index: u32, capability: Cap) -> bool
    requires valid { IsCapability capability }
    requires plain { IsWithoutTables capability }
    requires some { is_empty capability ≡ false }
    requires nameless { object_of capability ≡ None }
    requires sound { (t : State) → IsSound (state_in S.slots S.memory kernel.old)
        → put_in_boot_slot (state_in S.slots S.memory kernel.old) index capability ≡ Some t → IsSound t }
    ensures outcome { put_in_boot_slot (state_in S.slots S.memory kernel.old) index capability
        ≡ (if result then Some (state_in S.slots S.memory kernel.new) else None) }
    ensures unchanged { result ≡ false → kernel.new ≡ kernel.old }
{
    let count = boot_slots(kernel);
    let live = &mut kernel.live;
    let free = is_free(&live.store, count, index);
    if !free {
        return false;
    }
    live.store.insert(Slot::new(index), capability, None);
    true
}

/// Puts untyped memory into an empty boot slot, after all that is there. Nothing changes where it may not lie there.
pub(crate) fn put_untyped<S: SlotStore>(
    kernel: &mut Kernel<S>,
    index: u32,
    offset: u32,
    bits: u8,
) -> bool
    ensures outcome { put_untyped (state_in S.slots S.memory kernel.old) index offset bits
        ≡ (if result then Some (state_in S.slots S.memory kernel.new) else None) }
    ensures unchanged { result ≡ false → kernel.new ≡ kernel.old }
{
    let untyped = Cap::Untyped {
        offset,
        bits,
        watermark: 0,
    };
    let first = 16 * (boot_slots(kernel) + LINES);
    let live = &kernel.live;
    let fits = may_be_untyped(&live.store, first, offset, bits);
    fits && put(kernel, index, untyped)
}

/// Puts interrupt control into an empty boot slot, if it is one.
pub(crate) fn put_control<S: SlotStore>(kernel: &mut Kernel<S>, index: u32) -> bool
    ensures outcome { put_control (state_in S.slots S.memory kernel.old) index
        ≡ (if result then Some (state_in S.slots S.memory kernel.new) else None) }
    ensures unchanged { result ≡ false → kernel.new ≡ kernel.old }
{
    put(kernel, index, Cap::InterruptControl)
}
