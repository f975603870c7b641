//! Rows on what bytes are refused as, or are not: the image `solo`, and bytes that differ from it.

ghost use Rattle.std.specs.Prelude.{◌≡◌, ◌++◌, [], ◌∷◌, None, Some, slice_set, take};
ghost use Rattle.model.specs.Acceptance.Accepted.{first_breach};
ghost use Rattle.model.specs.declared.refusals.Refusal.TheVariants.{BadMapping, BadThread, OverBudget, RangeNotKept, Trailing, Truncated, UntypedOverlap};
ghost use Rattle.model_laws.specs.Solo.{at_point, solo};

/// The image has no breach.
#[tactic(auto, unfolding(crate::proofs::Opened::opened))]
pub fn solo_is_accepted()
    ensures { first_breach solo ≡ None }
{}

/// With one instruction less between waits it is over its budget.
#[tactic(auto, unfolding(crate::proofs::Opened::opened))]
pub fn solo_needs_its_budget()
    ensures { first_breach (slice_set solo 256 23) ≡ Some (OverBudget (at_point 0 0)) }
{}

/// At the head of the loop x5 may not be 0: 0 - 1 wraps.
#[tactic(auto, unfolding(crate::proofs::Opened::opened))]
pub fn solo_needs_its_range()
    ensures { first_breach (slice_set solo 368 0) ≡ Some (RangeNotKept (at_point 0 1)) }
{}

/// A page that may be written and not read is no mapping.
#[tactic(auto, unfolding(crate::proofs::Opened::opened))]
pub fn solo_reads_what_it_writes()
    ensures { first_breach (slice_set solo 232 1) ≡ Some (BadMapping 2) }
{}

/// Untyped memory at offset 0 overlaps the boot area.
#[tactic(auto, unfolding(crate::proofs::Opened::opened))]
pub fn solo_stands_behind_the_boot_area()
    ensures { first_breach (slice_set solo 49 0) ≡ Some (UntypedOverlap 0) }
{}

/// An entry past the program is refused before any state is looked for there: the last number that a word can
/// have, as the first one after the program.
#[tactic(auto, unfolding(crate::proofs::Opened::opened))]
pub fn solo_is_entered_at_a_point()
    ensures behind { first_breach (slice_set solo 268 7) ≡ Some (BadThread 0) }
    ensures last { first_breach (slice_set (slice_set (slice_set (slice_set solo 268 255) 269 255) 270 255) 271 255) ≡ Some (BadThread 0) }
{}

/// Files that end too early, or too late.
#[tactic(auto, unfolding(crate::proofs::Opened::opened))]
pub fn solo_has_one_length()
    ensures empty { first_breach [] ≡ Some (Truncated 0) }
    ensures magic { first_breach (take 3 solo) ≡ Some (Truncated 0) }
    ensures budget { first_breach (take 261 solo) ≡ Some (Truncated 256) }
    ensures measure { first_breach (take 335 solo) ≡ Some (Truncated 332) }
    ensures last { first_breach (take 427 solo) ≡ Some (Truncated 424) }
    ensures more { first_breach (solo ++ 0 ∷ []) ≡ Some (Trailing 428) }
{}
