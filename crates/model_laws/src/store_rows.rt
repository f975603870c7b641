//! Worked rows of the capability store.

ghost use Rattle.std.specs.Prelude.{◌≡◌, ℕ, true, false, Some, None, Ok, Err};
ghost use Rattle.model.specs.declared.errors.KError.TheVariants.{FailedLookup};
ghost use Rattle.model.specs.declared.lookup_failures.LookupFailure.TheVariants.{GuardMismatch};
ghost use Rattle.model.specs.Kernel.Arguments.{whole};
ghost use Rattle.model.specs.Capabilities.Lookup.{called_slot, lookup, lookup_within};
ghost use Rattle.model.specs.Capabilities.Placement.{placement};
ghost use Rattle.model.specs.Capabilities.Slots.{depth_within, descends_within, is_descendant, parent_at};
ghost use Rattle.model_laws.specs.Rows.{endpoint_slot, guarded, guarded_root, slots_after_delete, tree};

/// A CNode with a guard of 4 bits, all 0, and 2^8 slots, with an endpoint in slot 0x60: a system
/// call may leave bits over.
#[tactic(auto, unfolding(model::specs::Capabilities::Lookup::lookup_within))]
pub fn a_call_leaves_bits_over()
    ensures first { called_slot guarded guarded_root 0x06000000 ≡ Ok endpoint_slot }
    ensures second { called_slot guarded guarded_root 0x06012345 ≡ Ok endpoint_slot }
    ensures left { lookup guarded guarded_root 0x06012345 32 ≡ Ok (endpoint_slot, 20) }
{}

/// Another guard is a mismatch, with all bits left.
#[tactic(auto, unfolding(model::specs::Capabilities::Lookup::lookup_within))]
pub fn a_wrong_guard_is_a_mismatch()
    ensures { lookup guarded guarded_root 0x16000000 32 ≡ Err (GuardMismatch 32) }
{}

/// An argument slot takes all the bits of its depth.
#[tactic(auto, unfolding(model::specs::Capabilities::Lookup::lookup_within))]
pub fn an_argument_slot_uses_all_bits()
    ensures deep { whole (lookup guarded guarded_root 0x06000000 32) ≡ Err FailedLookup }
    ensures exact { whole (lookup guarded guarded_root 0x060 12) ≡ Ok endpoint_slot }
{}

/// An untyped of 2^16 bytes with 0x10 bytes in use.
pub fn frames_stand_behind_the_watermark()
    ensures { placement 16 0x10 12 2 ≡ Some (0x1000, 0x3000) }
{}

/// From there 15 frames fit, and 16 do not; where nothing is in use 16 fit.
pub fn fifteen_frames_fit()
    ensures fifteen { placement 16 0x10 12 15 ≡ Some (0x1000, 0x10000) }
    ensures sixteen { placement 16 0x10 12 16 ≡ None }
    ensures all { placement 16 0 12 16 ≡ Some (0, 0x10000) }
{}

/// Slot 1 has the child 2, which has the child 3; slot 4 is beside slot 1.
#[tactic(auto, unfolding(model::specs::Capabilities::Slots::depth_within, model::specs::Capabilities::Slots::descends_within))]
pub fn descendants_of_the_tree()
    ensures child { is_descendant tree.slots 1 2 ≡ true }
    ensures grandchild { is_descendant tree.slots 1 3 ≡ true }
    ensures itself { is_descendant tree.slots 1 1 ≡ false }
    ensures beside { is_descendant tree.slots 1 4 ≡ false }
{}

/// Without slot 2, slot 3 is a child of slot 1.
#[tactic(auto, unfolding(model::specs::Kernel::Removal::remove, model::specs::Kernel::Removal::ancestor_outside, model::specs::Kernel::State::slot_numbers))]
pub fn removal_of_the_middle()
    ensures gone { parent_at slots_after_delete 2 ≡ None }
    ensures adopted { parent_at slots_after_delete 3 ≡ Some 1 }
{}
