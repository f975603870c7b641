//! What keeps page tables and mappings in agreement, besides the calls on mappings: changes of slots
//! and of memory. Each law is the contract of a function that does nothing.

ghost use Rattle.std.specs.Prelude.{◌≡◌, ◌≢◌, ◌+◌, ◌<◌, ◌≤◌, ℕ, List, None, Option, Some};
ghost use Rattle.model.specs.Capabilities.CapabilityKinds.{unmapped};
ghost use Rattle.model.specs.Capabilities.CapabilityWords.{IsCapability};
ghost use Rattle.model.specs.Capabilities.Slots.{IsFull, IsOpen, SameOutside, Slots, capability_at, closed, empty_entry};
ghost use Rattle.model.specs.Capabilities.Slots.{inserted, opened, recapped, relocated, spliced};
ghost use Rattle.model.specs.declared.capabilities.Cap.{Cap};
ghost use Rattle.model.specs.declared.capabilities.Cap.TheVariants.{Empty};
ghost use Rattle.removal_laws.specs.Steps.{unused};
ghost use Rattle.vspace.specs.Agreement.{IsOutsideTables, IsWithoutTables, MayBePut, SameInTables};
ghost use Rattle.vspace.specs.Tables.{TablesAgree};

/// A capability without mapping may be put in an empty slot: a table only where it is new, or a copy of
/// a root table.
pub fn an_unmapped_capability_may_be_put()
    ensures { (slots : Slots) (memory : List ℕ) (slot : ℕ) (capability : Cap) (parent : Option ℕ)
        → TablesAgree slots memory → IsOpen slots slot → capability_at slots slot ≡ Empty
        → MayBePut slots memory capability → TablesAgree (inserted slots slot capability parent) memory }
{}

/// A capability without mapping may be removed.
pub fn an_unmapped_capability_may_be_removed()
    ensures { (slots : Slots) (memory : List ℕ) (slot : ℕ)
        → TablesAgree slots memory → IsOpen slots slot
        → unmapped (capability_at slots slot) ≡ capability_at slots slot → TablesAgree (spliced slots slot) memory }
{}

/// A capability may be moved to an empty slot, with its mapping.
pub fn a_moved_capability_keeps_its_mapping()
    ensures { (slots : Slots) (memory : List ℕ) (from to : ℕ)
        → TablesAgree slots memory → from ≢ to → IsOpen slots from → IsOpen slots to → capability_at slots to ≡ Empty
        → TablesAgree (relocated slots from to) memory }
{}

/// A capability that is no frame, page table or root table may become another such one: a watermark, a
/// guard word and a badge may change.
pub fn a_capability_without_tables_may_change()
    ensures { (slots : Slots) (memory : List ℕ) (slot : ℕ) (capability : Cap)
        → TablesAgree slots memory → IsOpen slots slot → IsWithoutTables (capability_at slots slot)
        → IsWithoutTables capability → IsCapability capability → TablesAgree (recapped slots slot capability) memory }
{}

/// Slots may be opened whose bytes are in no table.
pub fn slots_may_be_opened()
    ensures { (slots : Slots) (memory : List ℕ) (first count : ℕ)
        → TablesAgree slots memory → ((slot : ℕ) → first ≤ slot → slot < first + count → slots slot ≡ None)
        → IsOutsideTables slots first count → TablesAgree (opened slots first count) memory }
{}

/// Empty slots may be closed.
pub fn slots_may_be_closed()
    ensures { (slots : Slots) (memory : List ℕ) (first count : ℕ)
        → TablesAgree slots memory → ((slot : ℕ) → first ≤ slot → slot < first + count → capability_at slots slot ≡ Empty)
        → TablesAgree (closed slots first count) memory }
{}

/// The bytes that are in no table may change.
pub fn bytes_beside_tables_may_change()
    ensures { (slots : Slots) (old new : List ℕ)
        → TablesAgree slots old → SameInTables slots old new → TablesAgree slots new }
{}

/// The bytes of slots may change: no table is there.
pub fn bytes_of_slots_may_change()
    ensures { (slots : Slots) (old new : List ℕ)
        → TablesAgree slots old → SameOutside slots old new → TablesAgree slots new }
{}

/// What may be put may be put as well once the bytes of slots have changed.
pub fn what_may_be_put_stays_so()
    ensures { (slots : Slots) (old new : List ℕ) (capability : Cap)
        → MayBePut slots old capability → SameOutside slots old new → MayBePut slots new capability }
{}

/// A full slot may be emptied whose capability has no mapping, as a removal does with each slot.
pub fn a_full_slot_may_be_emptied()
    ensures { (slots : Slots) (memory : List ℕ) (slot : ℕ) → TablesAgree slots memory → IsFull slots slot
        → unmapped (capability_at slots slot) ≡ capability_at slots slot → TablesAgree (spliced slots slot) memory }
{}

/// Untyped memory may be unused again: its watermark becomes 0.
pub fn a_watermark_may_be_set_back()
    ensures { (slots : Slots) (memory : List ℕ) (slot : ℕ) → TablesAgree slots memory → IsFull slots slot
        → TablesAgree (recapped slots slot (unused (capability_at slots slot))) memory }
{}

/// One slot may be closed that is open and empty.
pub fn an_empty_slot_may_be_closed()
    ensures { (slots : Slots) (memory : List ℕ) (slot : ℕ) → TablesAgree slots memory → slots slot ≡ Some empty_entry
        → TablesAgree (closed slots slot 1) memory }
{}
