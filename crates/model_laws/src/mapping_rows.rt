//! Worked rows of mappings.

ghost use Rattle.std.specs.Prelude.{◌≡◌, pos, None, Some, Ok, Err};
ghost use Rattle.model.specs.Kernel.AddressSpaces.{place_under};
ghost use Rattle.model.specs.Machine.Effects.{effect, stays};
ghost use Rattle.model.specs.Kernel.Messages.{register};
ghost use Rattle.model.specs.Capabilities.Rights.{rights};
ghost use Rattle.model.specs.Capabilities.Slots.{capability_at};
ghost use Rattle.model.specs.declared.capabilities.Cap.TheVariants.{Frame};
ghost use Rattle.model.specs.declared.errors.KError.TheVariants.{AlignmentError, DeleteFirst, FailedLookup, InvalidArgument, InvalidCapability};
ghost use Rattle.model.specs.declared.instructions.Access.TheVariants as accesses;
ghost use Rattle.model.specs.declared.instructions.Exec.TheVariants as outcomes;
ghost use Rattle.model.specs.declared.instructions.Instr.TheVariants as instructions;
ghost use Rattle.model.specs.declared.instructions.LoadOp.TheVariants.{Lw};
ghost use Rattle.model_laws.specs.Mappings.{map_again, map_at, mapped_at, near_the_end, space, space_content};
ghost use Rattle.model_laws.specs.Rows.{slots_of_result};

/// A frame is mapped in the region of a page table, at a page that is free. Of several mistakes the
/// first counts.
#[tactic(auto, unfolding(model::specs::Capabilities::Lookup::lookup_within, model::specs::Kernel::State::slot_numbers))]
pub fn a_frame_is_mapped_once_at_a_free_page()
    ensures upper { map_at 0x80000000 3 ≡ Err InvalidArgument }
    ensures inside { map_at 0x1001 3 ≡ Err AlignmentError }
    ensures no_table { map_at 0x1000 3 ≡ Err FailedLookup }
    ensures twice { map_again ≡ Err InvalidCapability }
    ensures taken { map_at 0x401000 3 ≡ Err DeleteFirst }
    ensures write_alone { map_at 0x402000 1 ≡ Err InvalidArgument }
    ensures taken_first { map_at 0x401000 1 ≡ Err DeleteFirst }
    ensures mapped { capability_at (slots_of_result (map_at 0x402000 3)) 3
        ≡ Frame 0x11000 (rights 3) (mapped_at 0x402) }
{}

/// The page at 0x00401000 may be read and written, and there is none at 0x00402000.
#[tactic(auto, unfolding(model::specs::Kernel::State::slot_numbers))]
pub fn a_page_has_its_rights()
    ensures load { place_under space 0x9000 accesses.Load 0x401004 ≡ Some 0x12004 }
    ensures store { place_under space 0x9000 accesses.Store 0x401004 ≡ Some 0x12004 }
    ensures fetch { place_under space 0x9000 accesses.Fetch 0x401004 ≡ None }
    ensures behind { place_under space 0x9000 accesses.Load 0x402000 ≡ None }
{}

/// A load of four bytes from 0x00401FFE faults at 0x00402000, and no register changes.
#[tactic(auto, unfolding(model::specs::Machine::Effects::effect, model::specs::Kernel::State::slot_numbers))]
pub fn a_load_across_the_end_of_a_page_faults()
    ensures { effect near_the_end space_content (instructions.Load Lw (register 1) (register 2) (pos 0))
        ≡ stays near_the_end space_content (outcomes.Memory 0x402000 accesses.Load) }
{}
