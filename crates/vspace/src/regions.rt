//! Unmapping the frames of a region.

ghost use Rattle.std.specs.Prelude.{ℕ, ◌≡◌, ◌+◌, ◌*◌, ◌^◌, ◌<◌, Some, IfSome, true, false};
ghost use Rattle.model.specs.Capabilities.CapabilityWords.{IsPlace};
ghost use Rattle.model.specs.Capabilities.Slots.{capability_at};
ghost use Rattle.model.specs.Kernel.MappingCalls.{lies_in_region};
ghost use Rattle.slots.specs.Listed.{is_naming};
ghost use Rattle.vspace.specs.Kept.{SameBesideTables};
ghost use Rattle.vspace.specs.Regions.{IsPartlyCleared, IsRegionTable, cleared_at, goes_along, is_within};
ghost use Rattle.vspace.specs.Tables.{Holds, MapsFrame, TablesAgree};

use crate::extents::Extent;
use crate::frames::{FrameCap, unmap_frame};
use crate::sizes::REGION_PAGES;
use model::{Cap, FrameMapping, Slot, TableMapping};
use slots::SlotStore;
use sv32::{Pte, place_of};

/// Whether a frame's mapping under the root table of a page table goes along with the page table.
fn is_within(extent: Extent, region: TableMapping, place: FrameMapping) -> bool
    ensures { result ≡ is_within extent region place }
{
    match extent {
        Extent::Region => place.page / REGION_PAGES == region.region,
        Extent::Root => true,
    }
}

/// Whether a capability maps a frame that goes along with a page table.
fn goes_along(held: Cap, extent: Extent, region: TableMapping) -> bool
    ensures { result ≡ goes_along extent region held }
{
    match held {
        Cap::Frame {
            mapping: Some(place),
            ..
        } => place.root == region.root && is_within(extent, region, place),
        _ => false,
    }
}

/// Unmaps the frame of a slot, if it goes along.
fn clear_frame<S: SlotStore>(store: &mut S, slot: Slot, extent: Extent, region: TableMapping)
    requires { TablesAgree (S.slots store.old) (S.memory store.old) }
    ensures slots { (y : ℕ) → S.slots store.new y
        ≡ cleared_at (goes_along extent region) (S.slots store.old) slot y }
    ensures bytes { SameBesideTables (S.slots store.old) (S.memory store.old) (S.memory store.new) }
    ensures order { S.order store.new ≡ S.order store.old }
    ensures agree { TablesAgree (S.slots store.new) (S.memory store.new) }
{
    let held = store.capability(slot);
    if !goes_along(held, extent, region) {
        return;
    }
    let Cap::Frame {
        offset,
        rights,
        mapping,
    } = held
    else {
        return;
    };
    let frame = FrameCap {
        slot,
        offset,
        rights,
        mapping,
    };
    unmap_frame(store, frame);
}

/// Unmaps the frame at an offset wherever that goes along. Each capability that names it is looked at.
fn clear_named<S: SlotStore>(store: &mut S, frame: u32, extent: Extent, region: TableMapping)
    requires page { IsPlace frame 12 }
    requires agree { TablesAgree (S.slots store.old) (S.memory store.old) }
    ensures slots { IsPartlyCleared (goes_along extent region) (S.slots store.old) (S.slots store.new) }
    ensures named { (y : ℕ) → is_naming (S.slots store.new) frame y ≡ true
        → goes_along extent region (capability_at (S.slots store.new) y) ≡ false }
    ensures bytes { SameBesideTables (S.slots store.old) (S.memory store.old) (S.memory store.new) }
    ensures order { S.order store.new ≡ S.order store.old }
    ensures agree { TablesAgree (S.slots store.new) (S.memory store.new) }
{
    let mut at = None;
    'slots: loop {
        let Some(slot) = store.next_naming(frame, at) else {
            return;
        };
        clear_frame(store, slot, extent, region);
        at = Some(slot);
    }
}

/// The frame at an entry of the region's page table.
fn frame_in<S: SlotStore>(store: &S, table: u32, region: TableMapping, number: u32) -> Option<u32>
    requires agree { TablesAgree (S.slots store.now) (S.memory store.now) }
    requires mapped { Holds (S.slots store.now) (Cap.PageTable table (Some region)) }
    requires small { number < 2 ^ 10 }
    ensures page { IfSome result (λ frame. IsPlace frame 12) }
    ensures named { (maps : MapsFrame (S.slots store.now) region.root (2 ^ 10 * region.region + number))
        → result ≡ Some maps.frame }
{
    let entry = store.mem().read32(table + 4 * number);
    if entry == 0 {
        return None;
    }
    let frame = place_of(Pte(entry).page_address())?;
    Some(frame as u32)
}

/// Unmaps the frame at an entry of the region's page table, and wherever else that goes along.
fn clear_entry<S: SlotStore>(
    store: &mut S,
    table: u32,
    extent: Extent,
    region: TableMapping,
    number: u32,
)
    requires agree { TablesAgree (S.slots store.old) (S.memory store.old) }
    requires mapped { Holds (S.slots store.old) (Cap.PageTable table (Some region)) }
    requires small { number < 2 ^ 10 }
    ensures slots { IsPartlyCleared (goes_along extent region) (S.slots store.old) (S.slots store.new) }
    ensures entry { MapsFrame (S.slots store.new) region.root (2 ^ 10 * region.region + number) → ⊥ }
    ensures bytes { SameBesideTables (S.slots store.old) (S.memory store.old) (S.memory store.new) }
    ensures order { S.order store.new ≡ S.order store.old }
    ensures agree { TablesAgree (S.slots store.new) (S.memory store.new) }
{
    let Some(frame) = frame_in(store, table, region, number) else {
        return;
    };
    clear_named(store, frame, extent, region);
}

/// Unmaps all frames of a region, whose page table is at an offset: those that its entries name. With `Extent::Root` each
/// of them is unmapped wherever it is mapped under the root table, so that the page tables of other regions do not look
/// at its capabilities again.
pub(crate) fn clear_region<S: SlotStore>(
    store: &mut S,
    table: u32,
    extent: Extent,
    region: TableMapping,
)
    requires { IsRegionTable (S.slots store.old) (S.memory store.old) table region }
    ensures slots { IsPartlyCleared (goes_along extent region) (S.slots store.old) (S.slots store.new) }
    ensures none { (y : ℕ) → lies_in_region region (capability_at (S.slots store.new) y) ≡ false }
    ensures bytes { SameBesideTables (S.slots store.old) (S.memory store.old) (S.memory store.new) }
    ensures order { S.order store.new ≡ S.order store.old }
    ensures agree { TablesAgree (S.slots store.new) (S.memory store.new) }
{
    'entries: for number in 0..REGION_PAGES {
        clear_entry(store, table, extent, region, number);
    }
}
