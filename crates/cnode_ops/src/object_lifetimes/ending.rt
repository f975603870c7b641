//! How an object ends, with what is mapped under it.

ghost use Rattle.std.specs.Prelude.{ℕ, ◌≡◌, Some, false};
ghost use Rattle.kernel_invariant.specs.Wholeness.{Agreed};
ghost use Rattle.model.specs.Capabilities.CapabilityKinds.{names_object, object_of};
ghost use Rattle.model.specs.Capabilities.Slots.{capability_at};
ghost use Rattle.objects.specs.Tables.{state_of};
ghost use Rattle.removal_laws.specs.Steps.{ended};

use model::Cap;
use objects::Objects;
use slots::SlotStore;
use vspace::end_tables;

/// Ends the object that a removed capability named, if there is one; no other capability names it. All that is mapped
/// under a root table is unmapped.
pub(crate) fn end_object<S: SlotStore>(objects: &mut Objects, store: &mut S, removed: Cap)
    requires agree { Agreed objects.old (S.slots store.old) (S.memory store.old) }
    requires unnamed { (slot : ℕ) → (offset : ℕ) → object_of removed ≡ Some offset
        → names_object offset (capability_at (S.slots store.old) slot) ≡ false }
    ensures state { state_of objects.new (S.slots store.new) (S.memory store.new)
        ≡ ended (state_of objects.old (S.slots store.old) (S.memory store.old)) removed }
    ensures order { S.order store.new ≡ S.order store.old }
    ensures agree { Agreed objects.new (S.slots store.new) (S.memory store.new) }
{
    match removed {
        Cap::RootTable { offset } => {
            end_tables(store, offset);
            objects.end(store, offset);
        }
        Cap::Endpoint { offset, .. }
        | Cap::Notification { offset, .. }
        | Cap::CNode { offset, .. }
        | Cap::Frame { offset, .. }
        | Cap::PageTable { offset, .. }
        | Cap::Tcb { offset } => objects.end(store, offset),
        Cap::Empty | Cap::Untyped { .. } | Cap::InterruptControl | Cap::InterruptHandler { .. } =>
            {}
    }
}
