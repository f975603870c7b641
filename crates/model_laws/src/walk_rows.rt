//! Worked rows of page table entries and walks.

ghost use Rattle.std.specs.Prelude.{◌≡◌, ◌/◌, ◌%◌, ◌^◌, ℕ, None, Some};
ghost use Rattle.model.specs.Machine.Sv32.{leaf_word, table_word, walk};
ghost use Rattle.model.specs.declared.instructions.Access.TheVariants.{Fetch, Load, Store};
ghost use Rattle.model_laws.specs.Walks.{misaligned, two_tables, write_only};

/// The address 0x00401004 has 1 for the root table's entry, 1 for the next table's, and 4 for the byte.
pub fn an_address_has_two_numbers_and_an_offset()
    ensures first { ◌≡◌ {A = ℕ} (0x00401004 / 2 ^ 22) 1 }
    ensures second { ◌≡◌ {A = ℕ} (0x00401004 / 2 ^ 12 % 2 ^ 10) 1 }
    ensures byte { ◌≡◌ {A = ℕ} (0x00401004 % 2 ^ 12) 4 }
{}

/// The leaf of a page at 0x80011000 that is read and written.
pub fn a_leaf_has_its_bits()
    ensures { leaf_word 0x11000 3 ≡ 0x200044D7 }
{}

/// A walk over a root table, a page table and a page.
#[tactic(auto, unfolding(model::specs::Machine::Sv32::walk, model::specs::Machine::Sv32::entry_at, model::specs::Machine::Sv32::leaf_place, crate::specs::Walks::memory_with))]
pub fn a_walk_meets_two_tables()
    ensures load { walk two_tables 0 0x00401004 Load ≡ Some 0x2004 }
    ensures store { walk two_tables 0 0x00401004 Store ≡ Some 0x2004 }
    ensures fetch { walk two_tables 0 0x00401004 Fetch ≡ None }
    ensures behind { walk two_tables 0 0x00402000 Load ≡ None }
    ensures elsewhere { walk two_tables 0 0x00801004 Load ≡ None }
{}

/// An entry that is written and not read is none, and a great page is aligned.
#[tactic(auto, unfolding(model::specs::Machine::Sv32::walk, model::specs::Machine::Sv32::entry_at, model::specs::Machine::Sv32::leaf_place, crate::specs::Walks::memory_with))]
pub fn a_walk_refuses_bad_leaves()
    ensures write_only { walk write_only 0 0x00401004 Store ≡ None }
    ensures misaligned { walk misaligned 0 0x00401004 Load ≡ None }
{}
