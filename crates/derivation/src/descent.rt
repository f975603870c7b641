//! The descendants of a slot.

ghost use Rattle.std.specs.Prelude.{ℕ, ◌≡◌, ◌↔◌, IsTrue, IfSome, if◌then◌else◌};
ghost use Rattle.std.specs.Option.{ForSome};
ghost use Rattle.model.specs.Capabilities.Slots.{Descendant, IsDerivation, IsFull, IsOpen};
ghost use Rattle.model.specs.Capabilities.Orders.{next_in, descendants};
ghost use Rattle.model.specs.Shared.Lists.{times_in};
ghost use Rattle.model.specs.Capabilities.Slots.{is_descendant};

use model::Slot;
use slots::SlotStore;

/// Whether a slot descends from another.
pub fn descends<S: SlotStore>(store: &S, root: Slot, slot: Slot) -> bool
    requires { IsOpen (S.slots store.now) slot }
    ensures test { result ≡ is_descendant (S.slots store.now) root slot }
    ensures value { IsTrue result ↔ Descendant (S.slots store.now) root slot }
    ensures derivation { IsDerivation (S.slots store.now) }
{
    store.descends(root, slot)
}

/// The descendant of a root after `previous`, or the first one: each of them once, in the store's own
/// order.
pub fn next_descendant<S: SlotStore>(store: &S, root: Slot, previous: Option<Slot>) -> Option<Slot>
    requires full { ForSome previous (IsFull (S.slots store.now)) }
    requires known { ForSome previous (λ slot. IsTrue (is_descendant (S.slots store.now) root slot)) }
    ensures next { result ≡ next_in (descendants (S.order store.now) (S.slots store.now) root) previous }
    ensures once { (slot : ℕ) → times_in (descendants (S.order store.now) (S.slots store.now) root) slot
        ≡ (if is_descendant (S.slots store.now) root slot then 1 else 0) }
    ensures found { IfSome result (Descendant (S.slots store.now) root) }
    ensures found_full { IfSome result (IsFull (S.slots store.now)) }
    ensures found_known { IfSome result (λ slot. IsTrue (is_descendant (S.slots store.now) root slot)) }
{
    store.next_below(root, previous)
}
