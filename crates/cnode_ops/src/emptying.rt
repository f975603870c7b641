//! Emptying one slot of a removal, with all that goes with its capability.

ghost use Rattle.std.specs.Prelude.{◌≡◌};
ghost use Rattle.kernel_invariant.specs.Wholeness.{Agreed};
ghost use Rattle.cnode_ops.specs.StillNamed.{IsNamedStill};
ghost use Rattle.cnode_ops.specs.Unsettled.{Notes, ObjectsLie};
ghost use Rattle.model.specs.Capabilities.Slots.{IsFull, capability_at, spliced};
ghost use Rattle.model.specs.Kernel.Removal.{emptied};
ghost use Rattle.model.specs.Kernel.State.{with_slots};
ghost use Rattle.model.specs.Shared.Lists.{without};
ghost use Rattle.removal_laws.specs.Steps.{IfUnnamed, IsChildless, IsReady, WithWatermark, alone, unmapped_at};
ghost use Rattle.objects.specs.Tables.{Tables, state_of};
ghost use Rattle.slots.specs.Kin.{LeavesChildless};
ghost use Rattle.vspace.specs.Tables.{TablesAgree};

use crate::object_lifetimes::end_object;
use crate::settling::Unsettled;
use model::{Cap, Slot};
use objects::Objects;
use slots::{SlotStore, object_of};
use vspace::unmap_cap;

/// Empties a slot, with the mapping of its capability: what that was, whether another capability names the same object,
/// and the slot that it was derived from, if nothing is derived from that any more.
fn take_out<S: SlotStore>(store: &mut S, slot: Slot) -> (Cap, bool, Option<Slot>)
    requires full { IsFull (S.slots store.old) slot }
    requires tables { TablesAgree (S.slots store.old) (S.memory store.old) }
    ensures removed { result.0 ≡ capability_at (unmapped_at (S.slots store.old) slot) slot }
    ensures shared { IsNamedStill (S.slots store.new) result.0 result.1 }
    ensures childless { LeavesChildless (unmapped_at (S.slots store.old) slot) slot result.2 }
    ensures slots { S.slots store.new ≡ spliced (unmapped_at (S.slots store.old) slot) slot }
    ensures state { (o : Tables) → Agreed o (S.slots store.old) (S.memory store.old)
        → state_of o (S.slots store.new) (S.memory store.new) ≡ with_slots (state_of o (S.slots store.old) (S.memory store.old)) (S.slots store.new) }
    ensures order { S.order store.new ≡ without slot (S.order store.old) }
    ensures agree { (o : Tables) → Agreed o (S.slots store.old) (S.memory store.old) → Agreed o (S.slots store.new) (S.memory store.new) }
{
    unmap_cap(store, slot);
    let is_shared = store.is_shared(slot);
    let removed = store.capability(slot);
    let childless = store.childless_without(slot);
    store.splice_out(slot);
    (removed, is_shared, childless)
}

/// Ends the object that a removed capability named, if it is not shared: no other capability names it. What is left to
/// settle is so much more then.
fn end_unnamed<S: SlotStore>(
    store: &mut S,
    objects: &mut Objects,
    left: &mut Unsettled,
    removed: Cap,
    is_shared: bool,
)
    requires shared { IsNamedStill (S.slots store.old) removed is_shared }
    requires agree { Agreed objects.old (S.slots store.old) (S.memory store.old) }
    requires lie { ObjectsLie (state_of objects.old (S.slots store.old) (S.memory store.old)) }
    ensures state { IfUnnamed (state_of objects.old (S.slots store.old) (S.memory store.old)) removed
        (state_of objects.new (S.slots store.new) (S.memory store.new)) }
    ensures noted { Notes (state_of objects.old (S.slots store.old) (S.memory store.old)) left.old
        (state_of objects.new (S.slots store.new) (S.memory store.new)) left.new }
    ensures order { S.order store.new ≡ S.order store.old }
    ensures agree { Agreed objects.new (S.slots store.new) (S.memory store.new) }
{
    let Some(offset) = object_of(removed) else {
        return;
    };
    if is_shared {
        return;
    }
    let own = objects.slots_of(store, offset);
    let waited = objects.is_waited_at(store, offset);
    end_object(objects, store, removed);
    left.note_slots(offset / 16, own);
    left.note_waiting(waited);
}

/// Untyped memory in a slot that nothing is derived from any more is unused again.
fn rewind<S: SlotStore>(store: &mut S, parent: Slot)
    requires childless { IsChildless (S.slots store.old) parent }
    requires full { IsFull (S.slots store.old) parent }
    ensures slots { WithWatermark (S.slots store.old) parent (S.slots store.new) }
    ensures state { (o : Tables) → Agreed o (S.slots store.old) (S.memory store.old)
        → state_of o (S.slots store.new) (S.memory store.new) ≡ with_slots (state_of o (S.slots store.old) (S.memory store.old)) (S.slots store.new) }
    ensures order { S.order store.new ≡ S.order store.old }
    ensures agree { (o : Tables) → Agreed o (S.slots store.old) (S.memory store.old) → Agreed o (S.slots store.new) (S.memory store.new) }
{
    let Cap::Untyped { offset, bits, .. } = store.capability(parent) else {
        return;
    };
    let unused = Cap::Untyped {
        offset,
        bits,
        watermark: 0,
    };
    store.set_cap(parent, unused);
}

/// Empties a full slot, with all that goes with its capability alone: its mapping and what is mapped in
/// it, the object of which it was the last capability, and the watermark of the untyped memory that it
/// was the last to be derived from. Its children become children of its parent. What is left to settle is more by the
/// object that ended. The result is what it held, without a mapping.
pub(crate) fn empty_slot<S: SlotStore>(
    store: &mut S,
    objects: &mut Objects,
    left: &mut Unsettled,
    slot: Slot,
) -> Cap
    requires full { IsFull (S.slots store.old) slot }
    requires agree { Agreed objects.old (S.slots store.old) (S.memory store.old) }
    requires ready { IsReady (state_of objects.old (S.slots store.old) (S.memory store.old)) }
    requires lie { ObjectsLie (state_of objects.old (S.slots store.old) (S.memory store.old)) }
    ensures held { result ≡ capability_at (unmapped_at (S.slots store.old) slot) slot }
    ensures state { state_of objects.new (S.slots store.new) (S.memory store.new)
        ≡ emptied (state_of objects.old (S.slots store.old) (S.memory store.old)) (alone slot) }
    ensures noted { Notes (state_of objects.old (S.slots store.old) (S.memory store.old)) left.old
        (state_of objects.new (S.slots store.new) (S.memory store.new)) left.new }
    ensures order { S.order store.new ≡ without slot (S.order store.old) }
    ensures agree { Agreed objects.new (S.slots store.new) (S.memory store.new) }
{
    let (removed, is_shared, childless) = take_out(store, slot);
    end_unnamed(store, objects, left, removed, is_shared);
    if let Some(parent) = childless {
        rewind(store, parent);
    }
    removed
}
