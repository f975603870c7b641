//! Taking out what is derived from a slot.

ghost use Rattle.std.specs.Prelude.{ℕ, ◌≡◌};
ghost use Rattle.model.specs.Capabilities.Slots.{Descendant, SameOutside};
ghost use Rattle.derivation.specs.Removals.{without_descendants};

use model::Slot;
use slots::SlotStore;

/// Empties all slots that descend from another, one after another. Nothing else changes: a slot that
/// stays has no parent among them.
pub fn remove_descendants<S: SlotStore>(store: &mut S, root: Slot)
    ensures slots { (s : ℕ) → S.slots store.new s ≡ without_descendants (S.slots store.old) root s }
    ensures none { (s : ℕ) → Descendant (S.slots store.new) root s → ⊥ }
    ensures bytes { SameOutside (S.slots store.old) (S.memory store.old) (S.memory store.new) }
{
    let mut next = store.next_below(root, None);
    'slots: while let Some(slot) = next {
        next = store.next_below(root, Some(slot));
        store.splice_out(slot);
    }
}
