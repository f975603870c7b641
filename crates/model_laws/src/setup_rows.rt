//! Worked rows on setting the system up.

ghost use Rattle.std.specs.Prelude.{◌≡◌, None, Some, Err, is_none, true, false, [], ◌∷◌, replicate};
ghost use Rattle.model.specs.declared.capabilities.Cap.TheVariants.{InterruptControl, Untyped};
ghost use Rattle.model.specs.declared.errors.KError.TheVariants.{FailedLookup, IllegalOperation, TruncatedMessage};
ghost use Rattle.model.specs.Capabilities.Slots.{capability_at, empty_entry, parent_at};
ghost use Rattle.model.specs.Kernel.Setup.{fill, put_control, put_untyped};
ghost use Rattle.model_laws.specs.Setups.{a_thread, an_endpoint, configured, filled_with, frame_left, framed, fresh, with_memory};

/// The empty machine has 16 boot slots and the 64 of the interrupt table, all of them empty.
#[tactic(auto, unfolding(crate::proofs::Opened::opened))]
pub fn a_fresh_machine_is_empty()
    ensures first { fresh.slots 0 ≡ Some empty_entry }
    ensures last { fresh.slots 79 ≡ Some empty_entry }
    ensures behind { fresh.slots 80 ≡ None }
    ensures objects { fresh.objects 0 ≡ None }
{}

/// Untyped memory is aligned, inside memory, after the boot area (0x500 bytes) and after all that
/// is there, of 2^4 to 2^24 bytes, and goes into an empty boot slot.
#[tactic(auto, unfolding(crate::proofs::Opened::opened))]
pub fn untyped_memory_has_its_place()
    ensures stands { capability_at with_memory.slots 0 ≡ Untyped 0x8000 15 0 }
    ensures root { parent_at with_memory.slots 0 ≡ None }
    ensures least { is_none (put_untyped fresh 0 0x500 4) ≡ false }
    ensures misaligned { is_none (put_untyped fresh 0 0x8010 5) ≡ true }
    ensures outside { is_none (put_untyped fresh 0 0x1_0000 4) ≡ true }
    ensures boot_area { is_none (put_untyped fresh 0 0x4F0 4) ≡ true }
    ensures overlap { is_none (put_untyped with_memory 1 0xFFF0 4) ≡ true }
    ensures before { is_none (put_untyped with_memory 1 0x600 4) ≡ true }
    ensures small { is_none (put_untyped fresh 0 0x8000 3) ≡ true }
    ensures great { is_none (put_untyped fresh 0 0 25) ≡ true }
    ensures occupied { is_none (put_untyped with_memory 0 0x1_0000 4) ≡ true }
    ensures no_slot { is_none (put_untyped fresh 16 0x8000 15) ≡ true }
{}

/// Where a frame is left of untyped memory that was deleted, new untyped memory goes after the frame.
#[tactic(auto, unfolding(crate::proofs::Opened::opened))]
pub fn untyped_memory_goes_behind_a_frame()
    ensures over { is_none (put_untyped frame_left 0 0x8000 12) ≡ true }
    ensures across { is_none (put_untyped frame_left 0 0x8FF0 4) ≡ true }
    ensures before { is_none (put_untyped frame_left 0 0x7000 12) ≡ true }
    ensures behind { is_none (put_untyped frame_left 0 0x9000 12) ≡ false }
{}

/// Interrupt control goes into an empty boot slot.
#[tactic(auto, unfolding(crate::proofs::Opened::opened))]
pub fn interrupt_control_has_its_slot()
    ensures stands { is_none (put_control fresh 15) ≡ false }
    ensures occupied { is_none (put_control with_memory 0) ≡ true }
    ensures no_slot { is_none (put_control fresh 16) ≡ true }
{}

/// A frame is filled from its first byte, with at most a page.
#[tactic(auto, unfolding(crate::proofs::Opened::opened))]
pub fn frames_are_filled_from_their_first_byte()
    ensures first { (filled_with (7 ∷ 8 ∷ [])).bytes 0x1000 ≡ Some 7 }
    ensures second { (filled_with (7 ∷ 8 ∷ [])).bytes 0x1001 ≡ Some 8 }
    ensures behind { (filled_with (7 ∷ 8 ∷ [])).bytes 0x1002 ≡ Some 0 }
    ensures no_frame { is_none (fill framed 0x2000 (7 ∷ [])) ≡ true }
    ensures inside { is_none (fill framed 0x1001 (7 ∷ [])) ≡ true }
{}

/// Configure of the loader has six words; on another kind it is illegal, whatever the words.
#[tactic(auto, unfolding(crate::proofs::Opened::opened))]
pub fn configure_of_the_loader_has_six_words()
    ensures five { configured a_thread (0 ∷ 1 ∷ 32 ∷ 2 ∷ 32 ∷ []) ≡ Err TruncatedMessage }
    ensures none { configured a_thread [] ≡ Err TruncatedMessage }
    ensures six { configured a_thread (0 ∷ 1 ∷ 32 ∷ 2 ∷ 32 ∷ 0 ∷ []) ≡ Err FailedLookup }
    ensures kind { configured an_endpoint [] ≡ Err IllegalOperation }
{}
