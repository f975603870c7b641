//! The slots of a removal, each after all that is derived from it: so none of them becomes less deep before it goes.

ghost use Rattle.std.specs.Prelude.{ℕ, ◌≡◌, IfSome, None, true, false};
ghost use Rattle.cnode_ops.specs.Sets.{set_of};
ghost use Rattle.model.specs.Capabilities.Slots.{IsFull, is_descendant};

use crate::sets::{Removed, first_removed};
use model::Slot;
use slots::{SlotStore, is_taken};

/// How many depths there are.
const DEPTHS: u32 = 0x100;

/// A descendant of a root from which nothing is derived: a slot itself, or the first of all that descend from it.
fn leaf_below<S: SlotStore>(store: &S, root: Slot, slot: Slot) -> Slot
    requires full { IsFull (S.slots store.now) slot }
    requires below { is_descendant (S.slots store.now) root slot ≡ true }
    ensures full { IsFull (S.slots store.now) result }
    ensures below { is_descendant (S.slots store.now) root result ≡ true }
{
    let mut leaf = slot;
    'down: for _depth in 0..DEPTHS {
        let Some(child) = store.next_below(leaf, None) else {
            return leaf;
        };
        leaf = child;
    }
    leaf
}

/// A slot that goes and from which nothing that goes is derived: a slot itself, or one that descends from it.
fn leaf_of<S: SlotStore>(store: &S, set: &Removed, slot: Slot) -> Slot
    requires full { IsFull (S.slots store.now) slot }
    requires member { set_of (S.slots store.now) set.now slot ≡ true }
    ensures full { IsFull (S.slots store.now) result }
    ensures member { set_of (S.slots store.now) set.now result ≡ true }
{
    match *set {
        Removed::One(_) => slot,
        Removed::Below(root) => leaf_below(store, root, slot),
    }
}

/// A slot, if it is full, or else the first full one of a set.
fn this_or_first<S: SlotStore>(store: &S, set: &Removed, slot: Slot) -> Option<Slot>
    requires { IsFull (S.slots store.now) slot → set_of (S.slots store.now) set.now slot ≡ true }
    ensures full { IfSome result (IsFull (S.slots store.now)) }
    ensures member { IfSome result (λ found. set_of (S.slots store.now) set.now found ≡ true) }
    ensures none { result ≡ None → (found : ℕ) → IsFull (S.slots store.now) found → set_of (S.slots store.now) set.now found ≡ false }
{
    if is_taken(store, slot) {
        return Some(slot);
    }
    first_removed(store, set)
}

/// A full slot of a set from which nothing of the set is derived, if there is one: at or below `near`, if that is full.
pub(crate) fn leaf_removed<S: SlotStore>(store: &S, set: &Removed, near: Slot) -> Option<Slot>
    requires { IsFull (S.slots store.now) near → set_of (S.slots store.now) set.now near ≡ true }
    ensures full { IfSome result (IsFull (S.slots store.now)) }
    ensures member { IfSome result (λ slot. set_of (S.slots store.now) set.now slot ≡ true) }
    ensures none { result ≡ None → (slot : ℕ) → IsFull (S.slots store.now) slot → set_of (S.slots store.now) set.now slot ≡ false }
{
    let Some(start) = this_or_first(store, set, near) else {
        return None;
    };
    Some(leaf_of(store, set, start))
}

/// Where the next slot is found once a slot of a set is empty: the slot that it is derived from, if that is in the set.
pub(crate) fn parent_removed<S: SlotStore>(store: &S, set: &Removed, slot: Slot) -> Slot
    requires full { IsFull (S.slots store.now) slot }
    requires member { set_of (S.slots store.now) set.now slot ≡ true }
    ensures { set_of (S.slots store.now) set.now result ≡ true }
{
    let Removed::Below(root) = *set else {
        return slot;
    };
    // A store that counts depths keeps derivation in order.
    let _depth = store.depth(slot);
    let (_held, parent) = store.get(slot);
    let Some(above) = parent else {
        return slot;
    };
    if above.number() == root.number() {
        return slot;
    }
    above
}
