//! Making new objects one after another, as Retype asks for them.

ghost use Rattle.std.specs.Prelude.{ℕ, ◌≡◌, ◌+◌, ◌^◌, ◌<◌, ◌≤◌, Some};
ghost use Rattle.kernel_invariant.specs.Agreement.{Agrees};
ghost use Rattle.kernel_invariant.specs.Wholeness.{Agreed};
ghost use Rattle.cnode_ops.specs.Placed.{IsPlaced, new_objects, used_to, with_placed};
ghost use Rattle.cnode_ops.specs.object_lifetimes.Beginnings.{AreMade, MayUse};
ghost use Rattle.model.specs.Capabilities.Slots.{SameOutside, capability_at, depth_of, empty_entry, recapped};
ghost use Rattle.model.specs.Kernel.Retype.{with_new};
ghost use Rattle.model.specs.Kernel.Soundness.{IsSound};
ghost use Rattle.objects.specs.Standing.{Standing};
ghost use Rattle.objects.specs.Tables.{state_of};

use crate::beginnings::{NewRange, Placing};
use crate::object_lifetimes::making::{ObjectPlace, make_one};
use model::{Cap, Slot};
use objects::Objects;
use slots::SlotStore;

/// Untyped memory is used up to a watermark.
fn use_memory<S: SlotStore>(store: &mut S, slot: Slot, watermark: u32)
    requires fits { MayUse (capability_at (S.slots store.old) slot) watermark }
    ensures slots { S.slots store.new ≡ recapped (S.slots store.old) slot (used_to watermark (capability_at (S.slots store.old) slot)) }
    ensures bytes { SameOutside (S.slots store.old) (S.memory store.old) (S.memory store.new) }
{
    if let Cap::Untyped { offset, bits, .. } = store.capability(slot) {
        let used = Cap::Untyped {
            offset,
            bits,
            watermark,
        };
        store.set_cap(slot, used);
    }
}

/// Makes the objects one after another, with their first capabilities in the slots of the window.
fn make_all<S: SlotStore>(objects: &mut Objects, store: &mut S, new: NewRange, at: Placing)
    requires none_yet { AreMade (state_of objects.old (S.slots store.old) (S.memory store.old))
        (state_of objects.old (S.slots store.old) (S.memory store.old)) (S.memory store.old) (new_objects new) at.window at.parent 0 }
    requires near { at.window + new.count ≤ 2 ^ 20 }
    requires stands { Standing objects.old (S.slots store.old) (S.memory store.old) }
    ensures state { state_of objects.new (S.slots store.new) (S.memory store.new)
        ≡ with_new (state_of objects.old (S.slots store.old) (S.memory store.old)) (new_objects new) at.window at.parent }
    ensures agree { Agrees (state_of objects.new (S.slots store.new) (S.memory store.new)) (S.memory store.new) }
    ensures stands { Standing objects.new (S.slots store.new) (S.memory store.new) }
{
    let size = new.size();
    let window = at.window.number();
    let mut place = new.first;
    'objects: for index in 0..new.count {
        let one = ObjectPlace {
            kind: new.kind,
            place,
        };
        make_one(objects, store, one, Slot::new(window + index), at.parent);
        place += size;
    }
}

/// Makes objects in untyped memory, with their slots and zero bytes, and puts their first capabilities.
pub(crate) fn begin_objects<S: SlotStore>(
    objects: &mut Objects,
    store: &mut S,
    new: NewRange,
    at: Placing,
)
    requires agree { Agreed objects.old (S.slots store.old) (S.memory store.old) }
    requires sound { IsSound (state_of objects.old (S.slots store.old) (S.memory store.old)) }
    requires placed { IsPlaced (state_of objects.old (S.slots store.old) (S.memory store.old)) (new_objects new) at }
    requires window { (i : ℕ) → i < new.count → S.slots store.old (at.window + i) ≡ Some empty_entry }
    requires room { depth_of (S.slots store.old) at.parent < 255 }
    ensures state { state_of objects.new (S.slots store.new) (S.memory store.new)
        ≡ with_placed (state_of objects.old (S.slots store.old) (S.memory store.old)) (new_objects new) at }
    ensures agree { Agreed objects.new (S.slots store.new) (S.memory store.new) }
{
    use_memory(store, at.parent, at.watermark);
    make_all(objects, store, new, at);
}
