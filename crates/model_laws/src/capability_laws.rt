//! Laws of capabilities: the tests decide the relations, and the words of each are its own.

ghost use Rattle.std.specs.Prelude.{ℕ, ◌≡◌, ◌↔◌, [], ◌∷◌, Some, slice_index, true};
ghost use Rattle.model.specs.declared.capabilities.Cap.{Cap};
ghost use Rattle.model.specs.Capabilities.CapabilityFields.{is_capability, unpacked};
ghost use Rattle.model.specs.Capabilities.CapabilityKinds.{is_guard_word};
ghost use Rattle.model.specs.Capabilities.CapabilityWords.{IsCapability, IsGuardWord, words_of};

/// The test of a capability's fields.
pub fn the_test_of_a_capability_decides()
    ensures { (capability : Cap) → (is_capability capability ≡ true) ↔ IsCapability capability }
{}

/// The test of a guard word.
pub fn the_test_of_a_guard_word_decides()
    ensures { (radix word : ℕ) → (is_guard_word radix word ≡ true) ↔ IsGuardWord radix word }
{}

/// The words of a capability are read back as that capability, and words that are read are its own.
pub fn words_are_read_back()
    ensures back { (capability : Cap) → IsCapability capability
        → unpacked (slice_index (words_of capability) 0) (slice_index (words_of capability) 1) ≡ Some capability }
    ensures only { (head word : ℕ) (capability : Cap) → unpacked head word ≡ Some capability
        → IsCapability capability × (words_of capability ≡ head ∷ word ∷ []) }
{}
