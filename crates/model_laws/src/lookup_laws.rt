//! Laws of capability lookup.

ghost use Rattle.std.specs.Prelude.{◌≡◌, ℕ, Result};
ghost use Rattle.model.specs.declared.capabilities.Cap.{Cap};
ghost use Rattle.model.specs.declared.lookup_failures.LookupFailure.{LookupFailure};
ghost use Rattle.model.specs.Capabilities.CapabilityWords.{IsCapability};
ghost use Rattle.model.specs.Capabilities.Lookup.{lookup};
ghost use Rattle.model.specs.Capabilities.Slots.{IsDerivation, Slots};
ghost use Rattle.model_laws.specs.Lookups.{LeadsTo};

/// An address leads to one slot or one failure.
pub fn lookup_is_a_function()
    ensures { (slots : Slots) (address : ℕ) (root : Cap) (left : ℕ) (one other : Result (ℕ × ℕ) LookupFailure)
        → LeadsTo slots address root left one → LeadsTo slots address root left other → one ≡ other }
{}

/// The lookup leads to what it answers.
pub fn lookup_leads_to_its_answer()
    ensures { (slots : Slots) (root : Cap) (address depth : ℕ) → IsDerivation slots → IsCapability root
        → LeadsTo slots address root depth (lookup slots root address depth) }
{}
