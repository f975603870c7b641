//! Ending a table: what is mapped in it goes with it.

ghost use Rattle.std.specs.Prelude.{ℕ, ◌≡◌, ◌<◌, ◌^◌, false};
ghost use Rattle.model.specs.Capabilities.CapabilityKinds.{names_object};
ghost use Rattle.model.specs.Capabilities.CapabilityWords.{IsPlace};
ghost use Rattle.model.specs.Capabilities.Slots.{capability_at};
ghost use Rattle.removal_laws.specs.Steps.{without_root};
ghost use Rattle.vspace.specs.Endings.{Ended, Ending, HasEnded, NoneUnder, extent_of, is_ending};
ghost use Rattle.vspace.specs.Kept.{SameBesideTables};
ghost use Rattle.vspace.specs.Tables.{MapsTable, TablesAgree};

use crate::extents::Extent;
use crate::page_tables::drop_table;
use crate::regions::clear_region;
use crate::sizes::{LOWER_REGIONS, MEMORY_LIMIT, PAGE_SIZE};
use crate::tables::table_in;
use model::{Cap, Slot};
use slots::SlotStore;

/// Whether a capability maps a page table under the root table at an offset, or the page table there.
fn is_ending(held: Cap, offset: u32) -> bool
    ensures { result ≡ is_ending offset held }
{
    match held {
        Cap::PageTable {
            offset: table,
            mapping: Some(place),
        } => place.root == offset || table == offset,
        _ => false,
    }
}

/// How far the end of a page table under a root table reaches, which goes with the table at an offset.
fn extent_of(root: u32, offset: u32) -> Extent
    ensures { result ≡ extent_of root offset }
{
    if root == offset {
        Extent::Root
    } else {
        Extent::Region
    }
}

/// Unmaps the page table of a slot, if it goes with the table at an offset.
fn end_table<S: SlotStore>(store: &mut S, slot: Slot, offset: u32)
    requires agree { TablesAgree (S.slots store.old) (S.memory store.old) }
    ensures slots { Ending offset (S.slots store.old) (S.slots store.new) }
    ensures ended { is_ending offset (capability_at (S.slots store.new) slot) ≡ false }
    ensures bytes { SameBesideTables (S.slots store.old) (S.memory store.old) (S.memory store.new) }
    ensures order { S.order store.new ≡ S.order store.old }
    ensures agree { TablesAgree (S.slots store.new) (S.memory store.new) }
{
    let held = store.capability(slot);
    if !is_ending(held, offset) {
        return;
    }
    let Cap::PageTable {
        offset: table,
        mapping,
    } = held
    else {
        return;
    };
    let Some(mapping) = mapping else {
        return;
    };
    clear_region(store, table, extent_of(mapping.root, offset), mapping);
    drop_table(store, slot, table, mapping);
}

/// Unmaps the page table on a page, if it goes with the table at an offset. Each capability that names the page is
/// looked at.
fn end_named<S: SlotStore>(store: &mut S, table: u32, offset: u32)
    requires page { IsPlace table 12 }
    requires agree { TablesAgree (S.slots store.old) (S.memory store.old) }
    ensures slots { Ending offset (S.slots store.old) (S.slots store.new) }
    ensures ended { HasEnded (S.slots store.new) table offset }
    ensures bytes { SameBesideTables (S.slots store.old) (S.memory store.old) (S.memory store.new) }
    ensures order { S.order store.new ≡ S.order store.old }
    ensures agree { TablesAgree (S.slots store.new) (S.memory store.new) }
{
    let mut at = None;
    'slots: loop {
        let Some(slot) = store.next_naming(table, at) else {
            return;
        };
        end_table(store, slot, offset);
        at = Some(slot);
    }
}

/// Unmaps the page table at any place, if it goes with the table at an offset.
fn end_at<S: SlotStore>(store: &mut S, table: u64, offset: u32)
    requires agree { TablesAgree (S.slots store.old) (S.memory store.old) }
    ensures slots { Ending offset (S.slots store.old) (S.slots store.new) }
    ensures ended { HasEnded (S.slots store.new) table offset }
    ensures bytes { SameBesideTables (S.slots store.old) (S.memory store.old) (S.memory store.new) }
    ensures order { S.order store.new ≡ S.order store.old }
    ensures agree { TablesAgree (S.slots store.new) (S.memory store.new) }
{
    if table % u64::from(PAGE_SIZE) == 0 && table < MEMORY_LIMIT {
        end_named(store, table as u32, offset);
    }
}

/// Unmaps the page table that is mapped for a region under a root table, which may have ended: the entry says at which
/// page table to look, and its capability whether it is mapped there.
fn end_region<S: SlotStore>(store: &mut S, root: u32, region: u32)
    requires agree { TablesAgree (S.slots store.old) (S.memory store.old) }
    requires small { region < 2 ^ 10 }
    ensures slots { Ending root (S.slots store.old) (S.slots store.new) }
    ensures gone { (table : ℕ) → MapsTable (S.slots store.new) root region table → ⊥ }
    ensures bytes { SameBesideTables (S.slots store.old) (S.memory store.old) (S.memory store.new) }
    ensures order { S.order store.new ≡ S.order store.old }
    ensures agree { TablesAgree (S.slots store.new) (S.memory store.new) }
{
    let Some(table) = table_in(store.mem(), root, region) else {
        return;
    };
    end_at(store, table, root);
}

/// Unmaps all that is mapped in the page table or under the root table at an offset, which ends, and the
/// page table itself: their entries in memory are cleared, and no capability says any more that it is
/// mapped there. The table's own capability may be in its slot still, or have gone before: where none
/// names the table any more, exactly the mappings under a root table go.
pub fn end_tables<S: SlotStore>(store: &mut S, offset: u32)
    requires agree { TablesAgree (S.slots store.old) (S.memory store.old) }
    ensures slots { (y : ℕ) → Ended (S.slots store.old) offset y (S.slots store.new y) }
    ensures gone { NoneUnder (S.slots store.new) offset }
    ensures roots { ((slot : ℕ) → names_object offset (capability_at (S.slots store.old) slot) ≡ false)
        → S.slots store.new ≡ without_root offset (S.slots store.old) }
    ensures bytes { SameBesideTables (S.slots store.old) (S.memory store.old) (S.memory store.new) }
    ensures order { S.order store.new ≡ S.order store.old }
    ensures agree { TablesAgree (S.slots store.new) (S.memory store.new) }
{
    end_at(store, u64::from(offset), offset);
    'regions: for region in 0..LOWER_REGIONS {
        end_region(store, offset, region);
    }
}
