//! The slots that a removal takes away.

ghost use Rattle.std.specs.Prelude.{ℕ, ◌≡◌, Some, None, IfSome, true, false, if◌then◌else◌};
ghost use Rattle.std.specs.Option.{ForSome};
ghost use Rattle.cnode_ops.specs.Listed.{Lists};
ghost use Rattle.cnode_ops.specs.Refusals.{goes};
ghost use Rattle.cnode_ops.specs.Sets.{listed_in, set_of};
ghost use Rattle.model.specs.Capabilities.Orders.{next_in};
ghost use Rattle.model.specs.Capabilities.Slots.{IsFull, is_full};

use model::Slot;
use slots::{SlotStore, is_taken};

/// A slot alone, or all that is derived from a slot.
#[derive(Clone, Copy)]
pub enum Removed {
    One(Slot),
    Below(Slot),
}

/// A slot, if it is full.
fn if_taken<S: SlotStore>(store: &S, slot: Slot) -> Option<Slot>
    ensures { result ≡ (if is_full (S.slots store.now) slot then Some slot else None) }
{
    if is_taken(store, slot) {
        Some(slot)
    } else {
        None
    }
}

/// The full slot of these after another in the store's order, or the first one.
pub(crate) fn next_removed<S: SlotStore>(
    store: &S,
    set: &Removed,
    previous: Option<Slot>,
) -> Option<Slot>
    requires known { ForSome previous (λ slot. goes (S.slots store.now) set.now slot ≡ true) }
    ensures next { result ≡ next_in (listed_in (S.order store.now) (S.slots store.now) set.now) previous }
    ensures lists { Lists (listed_in (S.order store.now) (S.slots store.now) set.now) (goes (S.slots store.now) set.now) }
{
    match *set {
        Removed::One(only) => match previous {
            None => if_taken(store, only),
            Some(_) => None,
        },
        Removed::Below(root) => store.next_below(root, previous),
    }
}

/// A full slot that is one of these, if there is one.
pub(crate) fn first_removed<S: SlotStore>(store: &S, set: &Removed) -> Option<Slot>
    ensures full { IfSome result (IsFull (S.slots store.now)) }
    ensures member { IfSome result (λ slot. set_of (S.slots store.now) set.now slot ≡ true) }
    ensures none { result ≡ None → (slot : ℕ) → IsFull (S.slots store.now) slot → set_of (S.slots store.now) set.now slot ≡ false }
{
    match *set {
        Removed::One(only) => {
            if is_taken(store, only) {
                Some(only)
            } else {
                None
            }
        }
        Removed::Below(root) => store.next_below(root, None),
    }
}
