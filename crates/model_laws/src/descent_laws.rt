//! Laws of derivation and removal.

ghost use Rattle.std.specs.Prelude.{◌≡◌, ◌↔◌, ◌<◌, ◌^◌, ◌/◌, ℕ, true, false, Ok};
ghost use Rattle.model.specs.Kernel.Removal.{IsRemoval, SlotSet, kept, new_parent, remove, with_bindings, without_slots};
ghost use Rattle.model.specs.Capabilities.Slots.{Descendant, IsDerivation, Slots, capability_at, is_descendant, is_full, parent_at};
ghost use Rattle.model.specs.Kernel.State.{State};
ghost use Rattle.model_laws.specs.Capabilities.{apart_from_mapping};

/// A descendant of a descendant is one.
pub fn descendants_are_closed()
    ensures { (slots : Slots) (root middle slot : ℕ)
        → Descendant slots root middle → Descendant slots middle slot → Descendant slots root slot }
{}

/// Where parents have no circle, no slot descends from itself.
pub fn no_slot_descends_from_itself()
    ensures { (slots : Slots) (slot : ℕ) → IsDerivation slots → Descendant slots slot slot → ⊥ }
{}

/// A full slot outside a removed set stays, below its nearest ancestor that stays.
pub fn a_removal_keeps_other_slots()
    ensures { (s t : State) (set : SlotSet) (slot : ℕ) → remove s set ≡ Ok t
        → slot < 2 ^ s.memory_bits / 16 → is_full s.slots slot ≡ true → with_bindings s set slot ≡ false
        → (capability_at t.slots slot ≡ kept s (with_bindings s set) slot (capability_at s.slots slot))
        × (parent_at t.slots slot ≡ new_parent s (with_bindings s set) slot) }
{}

/// Its capability is the same but for a mapping, or for the watermark of untyped memory.
pub fn a_removal_changes_mappings_alone()
    ensures { (s : State) (set : SlotSet) (slot : ℕ)
        → apart_from_mapping (kept s set slot (capability_at s.slots slot)) ≡ apart_from_mapping (capability_at s.slots slot) }
{}

/// The state without a set of slots is what its sentences say, and no other state is.
pub fn a_removal_is_what_its_sentences_say()
    ensures holds { (s : State) (set : SlotSet) → IsRemoval s set (without_slots s set) }
    ensures only { (s : State) (set : SlotSet) (t : State) → IsRemoval s set t → t ≡ without_slots s set }
{}

/// The test of descent says what descends.
pub fn the_test_of_descent_decides()
    ensures { (slots : Slots) (root slot : ℕ) → IsDerivation slots → (is_descendant slots root slot ≡ true) ↔ Descendant slots root slot }
{}
