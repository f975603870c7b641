//! The window of a CNode that gets the first capabilities of new objects.

ghost use Rattle.std.specs.Prelude.{ℕ, ◌≡◌, ◌+◌, ◌^◌, ◌<◌, ◌≤◌, Some, IfOk};
ghost use Rattle.cnode_ops.specs.RetypeChecks.{has_slots, named_node, window};
ghost use Rattle.model.specs.Capabilities.Slots.{empty_entry};
ghost use Rattle.model.specs.Kernel.Retype.{any_full};
ghost use Rattle.objects.specs.Lives.{state_in};
ghost use Rattle.soundness.specs.Calls.{IsRoot};

use crate::Kernel;
use cspace::argument_slot;
use model::{Cap, KError, Slot, SlotName};
use slots::{SlotStore, is_taken};

/// The capability that a CNode is named by; depth 0 names the root itself. The depth is out of its range
/// (`RangeError`), or the lookup fails or leaves bits over (`FailedLookup`).
pub(crate) fn named_node<S: SlotStore>(
    kernel: &Kernel<S>,
    root: Cap,
    name: SlotName,
) -> Result<Cap, KError>
    requires { IsRoot (state_in S.slots S.memory kernel.now) root }
    ensures value { result ≡ named_node (S.slots kernel.now.store) root name }
    ensures root { IfOk result (IsRoot (state_in S.slots S.memory kernel.now)) }
{
    if name.depth == 0 {
        return Ok(root);
    }
    let live = &kernel.live;
    let slot = argument_slot(&live.store, root, name)?;
    Ok(live.store.capability(slot))
}

/// 2^`radix`, the number of a CNode's slots.
fn slots_of_radix(radix: u8) -> u64
    requires { radix ≤ 14 }
    ensures { result ≡ 2 ^ radix }
{
    1 << radix
}

/// Whether a CNode of this radix has so many slots from an index on, and these are 1 to 256.
fn has_slots(radix: u8, index: u32, count: u32) -> bool
    requires { radix ≤ 14 }
    ensures { result ≡ has_slots radix index count }
{
    1 <= count && count <= 256 && u64::from(index) + u64::from(count) <= slots_of_radix(radix)
}

/// Whether one of so many slots from `first` on is full.
pub(crate) fn any_full<S: SlotStore>(store: &S, first: Slot, count: u32) -> bool
    requires { first + count ≤ 2 ^ 20 }
    ensures { result ≡ any_full (S.slots store.now) first count }
{
    'slots: for index in 0..count {
        if is_taken(store, Slot::new(first.number() + index)) {
            return true;
        }
    }
    false
}

/// The first of so many empty slots of a CNode from an index on. The capability names no CNode
/// (`FailedLookup`), they are none or more than 256, or the CNode ends before (`RangeError`), or one of
/// them is full (`DeleteFirst`).
pub(crate) fn window<S: SlotStore>(
    kernel: &Kernel<S>,
    node: Cap,
    index: u32,
    count: u32,
) -> Result<Slot, KError>
    requires { IsRoot (state_in S.slots S.memory kernel.now) node }
    ensures value { result ≡ window (S.slots kernel.now.store) node index count }
    ensures free { IfOk result (λ first. (i : ℕ) → i < count → S.slots kernel.now.store (first + i) ≡ Some empty_entry) }
{
    let live = &kernel.live;
    let Cap::CNode { offset, radix, .. } = node else {
        return Err(KError::FailedLookup);
    };
    if !has_slots(radix, index, count) {
        return Err(KError::RangeError);
    }
    let first = Slot::new(offset / 16 + index);
    if any_full(&live.store, first, count) {
        return Err(KError::DeleteFirst);
    }
    Ok(first)
}
