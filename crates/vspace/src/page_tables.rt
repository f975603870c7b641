//! Mapping page tables.

ghost use Rattle.std.specs.Prelude.{◌≡◌, ◌<◌, ◌/◌, ◌^◌, [], ◌∷◌, None, IfOk, OnErr};
ghost use Rattle.model.specs.Capabilities.CapabilityWords.{IsCapability, IsPlace};
ghost use Rattle.model.specs.Kernel.Arguments.{Call};
ghost use Rattle.model.specs.Kernel.MappingCalls.{unmap_table};
ghost use Rattle.model.specs.Kernel.State.{with_slots};
ghost use Rattle.model.specs.Capabilities.Slots.{capability_at, recapped};
ghost use Rattle.model.specs.Kernel.State.{State};
ghost use Rattle.model.specs.Machine.Sv32.{table_word};
ghost use Rattle.removal_laws.specs.Steps.{slots_unmapped};
ghost use Rattle.vspace.specs.Kept.{SameBesideTables};
ghost use Rattle.vspace.specs.TableAnswers.{GivesTableMapped, RegionAnswer, TableMappingAnswer, region_named};
ghost use Rattle.vspace.specs.Regions.{IsDroppable};
ghost use Rattle.vspace.specs.Tables.{Holds, TablesAgree};

use crate::arguments::root_named;
use crate::extents::Extent;
use crate::regions::clear_region;
use crate::sizes::{ADDRESS_LIMIT, REGION_SIZE};
use crate::tables::table_in;
use model::{Cap, KError, Slot, SlotName, TableMapping};
use slots::SlotStore;
use sv32::Pte;

/// A page table's capability, and the slot that holds it.
#[derive(Clone, Copy)]
pub struct PageTableCap {
    pub slot: Slot,
    pub offset: u32,
    pub mapping: Option<TableMapping>,
}

/// The number of the region at an address that can be mapped: a multiple of 4 MiB in the lower half.
fn region_named(address: u32) -> Result<u32, KError>
    ensures value { result ≡ region_named address }
    ensures near { IfOk result (λ region. region < 2 ^ 9) }
{
    if address >= ADDRESS_LIMIT {
        return Err(KError::InvalidArgument);
    }
    if address % REGION_SIZE != 0 {
        return Err(KError::AlignmentError);
    }
    Ok(address / REGION_SIZE)
}

/// The place of a region's entry in a root table, which has to be free.
fn free_pointer<S: SlotStore>(store: &S, root: u32, region: u32) -> Result<u32, KError>
    requires agree { TablesAgree (S.slots store.now) (S.memory store.now) }
    requires rooted { Holds (S.slots store.now) (Cap.RootTable root) }
    requires near { region < 2 ^ 9 }
    ensures answer { RegionAnswer (S.slots store.now) root region result }
{
    if table_in(store.mem(), root, region).is_some() {
        return Err(KError::DeleteFirst);
    }
    Ok(root + 4 * region)
}

/// The place of the pointer, and the mapping, if a page table's capability can be mapped.
fn mapping_for<S: SlotStore>(
    store: &S,
    cspace: Cap,
    table: PageTableCap,
    root: SlotName,
    address: u32,
) -> Result<(u32, TableMapping), KError>
    requires valid { IsCapability cspace }
    requires agree { TablesAgree (S.slots store.now) (S.memory store.now) }
    ensures answer { TableMappingAnswer (S.slots store.now) cspace table.slot table.offset table.mapping
        root address result }
{
    if table.mapping.is_some() {
        return Err(KError::InvalidCapability);
    }
    let root = root_named(store, cspace, root)?;
    let region = region_named(address)?;
    match free_pointer(store, root, region) {
        Ok(place) => Ok((place, TableMapping { root, region })),
        Err(error) => Err(error),
    }
}

/// The pointer to a table, as a word.
fn pointer_word(table: u32) -> u32
    requires { IsPlace table 12 }
    ensures { result ≡ table_word table }
{
    Pte::table(table).0
}

/// Maps a page table for a region of 4 MiB under the named root table.
///
/// # Errors
///
/// The first check that fails gives the error: the capability is mapped already or the named slot holds no root table
/// (`InvalidCapability`), the name is wrong (`RangeError`, `FailedLookup`), the address is in the upper half
/// (`InvalidArgument`) or inside a region (`AlignmentError`), the region is taken (`DeleteFirst`). Nothing changes then.
pub fn map_table<S: SlotStore>(
    store: &mut S,
    cspace: Cap,
    table: PageTableCap,
    root: SlotName,
    address: u32,
) -> Result<(), KError>
    requires valid { IsCapability cspace }
    requires agree { TablesAgree (S.slots store.old) (S.memory store.old) }
    requires held { capability_at (S.slots store.old) table.slot
        ≡ Cap.PageTable table.offset table.mapping }
    ensures outcome { GivesTableMapped (S.slots store.old) cspace table.slot table.offset table.mapping
        root address (S.slots store.new) result }
    ensures unchanged { OnErr result (store.new ≡ store.old) }
    ensures bytes { SameBesideTables (S.slots store.old) (S.memory store.old) (S.memory store.new) }
    ensures order { S.order store.new ≡ S.order store.old }
    ensures agree { TablesAgree (S.slots store.new) (S.memory store.new) }
{
    let slot = table.slot;
    let offset = table.offset;
    let found = match mapping_for(store, cspace, table, root, address) {
        Ok(found) => found,
        Err(error) => return Err(error),
    };
    let (place, mapping) = found;
    store.write32(place, pointer_word(offset));
    let mapped = Cap::PageTable {
        offset,
        mapping: Some(mapping),
    };
    store.set_cap(slot, mapped);
    Ok(())
}

/// Unmaps a page table in whose region no frame is mapped any more.
pub(crate) fn drop_table<S: SlotStore>(
    store: &mut S,
    slot: Slot,
    offset: u32,
    mapping: TableMapping,
)
    requires { IsDroppable (S.slots store.old) (S.memory store.old) slot offset mapping }
    ensures slots { S.slots store.new ≡ recapped (S.slots store.old) slot (Cap.PageTable offset None) }
    ensures bytes { SameBesideTables (S.slots store.old) (S.memory store.old) (S.memory store.new) }
    ensures order { S.order store.new ≡ S.order store.old }
    ensures agree { TablesAgree (S.slots store.new) (S.memory store.new) }
{
    store.write32(mapping.root + 4 * mapping.region, 0);
    let unmapped = Cap::PageTable {
        offset,
        mapping: None,
    };
    store.set_cap(slot, unmapped);
}

/// Unmaps a page table, and the frames in its region with it. Nothing happens if it is not mapped.
pub fn unmap_table<S: SlotStore>(store: &mut S, table: PageTableCap)
    requires agree { TablesAgree (S.slots store.old) (S.memory store.old) }
    requires held { capability_at (S.slots store.old) table.slot
        ≡ Cap.PageTable table.offset table.mapping }
    ensures outcome { (s : State) (call : Call) → call.slot ≡ table.slot
        → call.capability ≡ Cap.PageTable table.offset table.mapping
        → unmap_table (with_slots s (S.slots store.old)) call ≡ with_slots s (S.slots store.new) }
    ensures slots { S.slots store.new
        ≡ slots_unmapped (S.slots store.old) table.slot (Cap.PageTable table.offset table.mapping) }
    ensures bytes { SameBesideTables (S.slots store.old) (S.memory store.old) (S.memory store.new) }
    ensures order { S.order store.new ≡ S.order store.old }
    ensures agree { TablesAgree (S.slots store.new) (S.memory store.new) }
{
    let slot = table.slot;
    let offset = table.offset;
    let Some(mapping) = table.mapping else {
        return;
    };
    clear_region(store, offset, Extent::Region, mapping);
    drop_table(store, slot, offset, mapping);
}
