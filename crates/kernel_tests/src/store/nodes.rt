//! A test that CNodes have all of their slots.

ghost use Rattle.std.specs.Prelude.{ℕ, ◌≡◌, ◌+◌, ◌^◌, ◌<◌, ◌≤◌, IsTrue};
ghost use Rattle.cnode_ops.specs.Nodes.{CNodesAreOpen, HasOpenSlots};
ghost use Rattle.model.specs.Capabilities.Slots.{IsOpen};

use model::{Cap, Slot};
use slots::SlotStore;

/// How many slots a CNode of this radix has.
fn slot_count(radix: u8) -> u32
    requires { radix ≤ 14 }
    ensures { result ≡ 2 ^ radix }
{
    1u32 << radix
}

/// Whether so many slots are open.
fn are_open<S: SlotStore>(store: &S, first: u32, count: u32) -> bool
    requires { first + count ≤ 2 ^ 20 }
    ensures { IsTrue result → (index : ℕ) → index < count → IsOpen (S.slots store.now) (first + index) }
{
    'slots: for index in 0..count {
        if !store.is_open(Slot::new(first + index)) {
            return false;
        }
    }
    true
}

/// Whether the CNode that a capability names has all of its slots, if it names one.
pub(crate) fn has_open_slots<S: SlotStore>(store: &S, capability: Cap) -> bool
    ensures { IsTrue result → HasOpenSlots (S.slots store.now) capability }
{
    let Cap::CNode { offset, radix, .. } = capability else {
        return true;
    };
    if radix > 14 {
        return false;
    }
    let first = offset / 16;
    let count = slot_count(radix);
    if count > 0x10_0000 || first > 0x10_0000 - count {
        return false;
    }
    are_open(store, first, count)
}

/// Whether all CNodes have all of their slots. Each slot of memory is looked at.
pub(crate) fn nodes_are_open<S: SlotStore>(store: &S) -> bool
    ensures { IsTrue result → CNodesAreOpen (S.slots store.now) }
{
    let count = store.count();
    'slots: for number in 0..count {
        if !has_open_slots(store, store.capability(Slot::new(number))) {
            return false;
        }
    }
    true
}
