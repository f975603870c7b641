//! Changes of what is derived from what.

ghost use Rattle.std.specs.Prelude.{ℕ, ◌≡◌, ◌≢◌, ◌<◌, ◌≤◌, ◌↔◌, Some, OnOk, OnErr, IsOk};
ghost use Rattle.model.specs.Capabilities.CapabilityWords.{IsCapability};
ghost use Rattle.model.specs.Shared.Lists.{without};
ghost use Rattle.model.specs.Capabilities.Slots.{Descendant, IsFull, SameOutside, depth_of, empty_entry, inserted, relocated, spliced};
ghost use Rattle.derivation.specs.Moves.{name_after_move};
ghost use Rattle.slots.specs.Kin.{IsKin};
ghost use Rattle.model.specs.declared.capabilities.Cap.{Cap};
ghost use Rattle.model.specs.declared.capabilities.Cap.TheVariants.{Empty};

use model::{Cap, KError, Slot};
use slots::SlotStore;

/// Puts a capability into an empty slot, as a child of another.
///
/// # Errors
///
/// The child would be deeper than 255 (`IllegalOperation`). Nothing changes then.
pub fn insert_child<S: SlotStore>(
    store: &mut S,
    slot: Slot,
    capability: Cap,
    parent: Slot,
) -> Result<(), KError>
    requires empty { S.slots store.old slot ≡ Some empty_entry }
    requires valid { IsCapability capability }
    requires some { capability ≢ Cap.Empty }
    requires full { IsFull (S.slots store.old) parent }
    requires kin { IsKin (S.slots store.old) capability (Some parent) }
    ensures when { IsOk result ↔ (depth_of (S.slots store.old) parent < 255) }
    ensures slots { OnOk result (S.slots store.new
        ≡ inserted (S.slots store.old) slot capability (Some parent)) }
    ensures bytes { OnOk result (SameOutside (S.slots store.old) (S.memory store.old) (S.memory store.new)) }
    ensures deep { OnErr result (result ≡ Err KError.IllegalOperation) }
    ensures same { OnErr result (store.new ≡ store.old) }
{
    if store.depth(parent) >= 255 {
        return Err(KError::IllegalOperation);
    }
    store.insert(slot, capability, Some(parent));
    Ok(())
}

/// Empties a full slot. Its children become children of its parent, so what descended from another
/// slot still does.
pub fn splice_out<S: SlotStore>(store: &mut S, slot: Slot)
    requires { IsFull (S.slots store.old) slot }
    ensures slots { S.slots store.new ≡ spliced (S.slots store.old) slot }
    ensures bytes { SameOutside (S.slots store.old) (S.memory store.old) (S.memory store.new) }
    ensures order { S.order store.new ≡ without slot (S.order store.old) }
    ensures descent { (root other : ℕ) → root ≢ slot → other ≢ slot
        → Descendant (S.slots store.new) root other ↔ Descendant (S.slots store.old) root other }
{
    store.splice_out(slot);
}

/// Moves what a full slot holds to an empty one, with its parent and its children: descent is the same
/// under the new names.
pub fn relocate<S: SlotStore>(store: &mut S, from: Slot, to: Slot)
    requires full { IsFull (S.slots store.old) from }
    requires empty { S.slots store.old to ≡ Some empty_entry }
    ensures slots { S.slots store.new ≡ relocated (S.slots store.old) from to }
    ensures bytes { SameOutside (S.slots store.old) (S.memory store.old) (S.memory store.new) }
    ensures descent { (root other : ℕ) → root ≢ to → other ≢ to
        → Descendant (S.slots store.new) (name_after_move from to root) (name_after_move from to other)
        ↔ Descendant (S.slots store.old) root other }
{
    store.relocate(from, to);
}
