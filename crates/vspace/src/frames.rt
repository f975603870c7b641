//! Mapping frames.

ghost use Rattle.std.specs.Prelude.{◌≡◌, ◌<◌, ◌≤◌, ◌/◌, ◌*◌, ◌^◌, ◌||◌, ◌⊎◌, [], ◌∷◌, ◌+◌, None, IfOk, OnErr, length};
ghost use Rattle.model.specs.Capabilities.CapabilityWords.{AreMappingRights, IsCapability, IsPlace};
ghost use Rattle.model.specs.Kernel.Arguments.{Call};
ghost use Rattle.model.specs.Kernel.MappingCalls.{unmap_frame};
ghost use Rattle.model.specs.Kernel.State.{with_slots};
ghost use Rattle.model.specs.Capabilities.Rights.{may_execute, may_read, mapping_rights};
ghost use Rattle.model.specs.Capabilities.Slots.{capability_at, recapped};
ghost use Rattle.model.specs.Kernel.State.{State};
ghost use Rattle.model.specs.Machine.Sv32.{leaf_word};
ghost use Rattle.vspace.specs.Answers.{GivesMapped, LeafAnswer, MappingAnswer, PageAnswer, page_named};
ghost use Rattle.vspace.specs.Kept.{SameBesideTables};
ghost use Rattle.vspace.specs.Tables.{Holds, TablesAgree};

use crate::arguments::root_named;
use crate::sizes::{ADDRESS_LIMIT, PAGE_SIZE, REGION_PAGES};
use crate::tables::{is_taken, table_in};
use bitflags::Flags;
use model::{Cap, FrameMapping, KError, Rights, Slot, SlotName};
use slots::SlotStore;
use sv32::Pte;

/// A frame's capability, and the slot that holds it.
#[derive(Clone, Copy)]
pub struct FrameCap {
    pub slot: Slot,
    pub offset: u32,
    pub rights: Rights,
    pub mapping: Option<FrameMapping>,
}

/// The rights of a mapping by the rights word of a call: those that the frame's capability allows. A
/// frame that may be read may be executed, and nothing is written where it is not read.
pub fn mapping_rights(frame: Rights, word: u32) -> Rights
    ensures value { result ≡ mapping_rights frame word }
    ensures kinds { (result.0 ≡ 0) ⊎ AreMappingRights result.0 }
{
    let asked = Rights::OF_MAPPING.of_word(word);
    if !frame.contains(Rights::READ) {
        Rights::empty()
    } else if !asked.contains(Rights::READ) {
        asked.cut(Rights::EXECUTE)
    } else if !frame.contains(Rights::WRITE) {
        asked.cut(Rights::READ.union(Rights::EXECUTE))
    } else {
        asked
    }
}

/// Whether rights let memory be read or executed.
#[tactic(auto, using(crate::proofs::RightsBits::read_tested, crate::proofs::RightsBits::execute_tested))]
pub fn may_be_mapped(rights: Rights) -> bool
    ensures { result ≡ (may_read rights || may_execute rights) }
{
    rights.contains(Rights::READ) || rights.contains(Rights::EXECUTE)
}

/// The number of the page at an address that can be mapped.
///
/// # Errors
///
/// The address is no multiple of 4096 (`AlignmentError`), or not in the lower half (`InvalidArgument`).
pub fn page_named(address: u32) -> Result<u32, KError>
    ensures value { result ≡ page_named address }
    ensures near { IfOk result (λ page. page < 2 ^ 19) }
{
    if address >= ADDRESS_LIMIT {
        return Err(KError::InvalidArgument);
    }
    if address % PAGE_SIZE != 0 {
        return Err(KError::AlignmentError);
    }
    Ok(address / PAGE_SIZE)
}

/// The entry for a page in the page table of its region, which has to be there and to be free.
fn free_entry<S: SlotStore>(store: &S, root: u32, page: u32) -> Result<u32, KError>
    requires agree { TablesAgree (S.slots store.now) (S.memory store.now) }
    requires rooted { Holds (S.slots store.now) (Cap.RootTable root) }
    requires near { page < 2 ^ 19 }
    ensures answer { PageAnswer (S.slots store.now) root page result }
{
    let memory = store.mem();
    let Some(table) = table_in(memory, root, page / REGION_PAGES) else {
        return Err(KError::FailedLookup);
    };
    if is_taken(memory, table, page % REGION_PAGES) {
        return Err(KError::DeleteFirst);
    }
    Ok(table as u32 + 4 * (page % REGION_PAGES))
}

/// The place of the leaf, and the mapping, if a frame's capability can be mapped.
fn mapping_for<S: SlotStore>(
    store: &S,
    cspace: Cap,
    frame: FrameCap,
    root: SlotName,
    address: u32,
    rights: u32,
) -> Result<(u32, FrameMapping), KError>
    requires valid { IsCapability cspace }
    requires agree { TablesAgree (S.slots store.now) (S.memory store.now) }
    ensures answer { MappingAnswer (S.slots store.now) cspace frame.slot frame.offset frame.rights
        frame.mapping root address rights result }
{
    if frame.mapping.is_some() {
        return Err(KError::InvalidCapability);
    }
    let root = root_named(store, cspace, root)?;
    let page = page_named(address)?;
    let place = match free_entry(store, root, page) {
        Ok(place) => place,
        Err(error) => return Err(error),
    };
    let rights = mapping_rights(frame.rights, rights);
    if !may_be_mapped(rights) {
        return Err(KError::InvalidArgument);
    }
    Ok((place, FrameMapping { root, page, rights }))
}

/// The place of a mapped frame's leaf.
fn leaf_of<S: SlotStore>(store: &S, frame: FrameCap) -> Option<u32>
    requires agree { TablesAgree (S.slots store.now) (S.memory store.now) }
    requires held { capability_at (S.slots store.now) frame.slot
        ≡ Cap.Frame frame.offset frame.rights frame.mapping }
    ensures place { LeafAnswer (S.slots store.now) frame.mapping result }
{
    let mapping = frame.mapping?;
    let Some(table) = table_in(store.mem(), mapping.root, mapping.page / REGION_PAGES) else {
        return None;
    };
    Some(table as u32 + 4 * (mapping.page % REGION_PAGES))
}

/// The leaf of a frame, as a word.
fn leaf_word(frame: u32, rights: Rights) -> u32
    requires { IsPlace frame 12 }
    ensures { result ≡ leaf_word frame rights.0 }
{
    Pte::leaf(frame, rights).0
}

/// Maps a frame at a page, in the page table of its region under the named root table. `rights` is a rights word; the mapping
/// has those of them that the capability allows.
///
/// # Errors
///
/// The first check that fails gives the error: the capability is mapped already or the named slot holds no root table
/// (`InvalidCapability`), the name is wrong (`RangeError`, `FailedLookup`), the address is in the upper half
/// (`InvalidArgument`) or inside a page (`AlignmentError`), no page table is there (`FailedLookup`), the page is taken
/// (`DeleteFirst`), neither read nor execute is left (`InvalidArgument`). Nothing changes then.
pub fn map_frame<S: SlotStore>(
    store: &mut S,
    cspace: Cap,
    frame: FrameCap,
    root: SlotName,
    address: u32,
    rights: u32,
) -> Result<(), KError>
    requires valid { IsCapability cspace }
    requires agree { TablesAgree (S.slots store.old) (S.memory store.old) }
    requires held { capability_at (S.slots store.old) frame.slot
        ≡ Cap.Frame frame.offset frame.rights frame.mapping }
    requires within { frame.offset + 2 ^ 12 ≤ length (S.memory store.old) }
    ensures outcome { GivesMapped (S.slots store.old) cspace frame.slot frame.offset frame.rights
        frame.mapping root address rights (S.slots store.new) result }
    ensures unchanged { OnErr result (store.new ≡ store.old) }
    ensures bytes { SameBesideTables (S.slots store.old) (S.memory store.old) (S.memory store.new) }
    ensures order { S.order store.new ≡ S.order store.old }
    ensures agree { TablesAgree (S.slots store.new) (S.memory store.new) }
{
    let slot = frame.slot;
    let offset = frame.offset;
    let frame_rights = frame.rights;
    let found = match mapping_for(store, cspace, frame, root, address, rights) {
        Ok(found) => found,
        Err(error) => return Err(error),
    };
    let (place, mapping) = found;
    store.write32(place, leaf_word(offset, mapping.rights));
    let mapped = Cap::Frame {
        offset,
        rights: frame_rights,
        mapping: Some(mapping),
    };
    store.set_cap(slot, mapped);
    Ok(())
}

/// Unmaps a frame. Nothing happens if it is not mapped.
pub fn unmap_frame<S: SlotStore>(store: &mut S, frame: FrameCap)
    requires agree { TablesAgree (S.slots store.old) (S.memory store.old) }
    requires held { capability_at (S.slots store.old) frame.slot
        ≡ Cap.Frame frame.offset frame.rights frame.mapping }
    ensures outcome { (s : State) (call : Call) → call.slot ≡ frame.slot
        → call.capability ≡ Cap.Frame frame.offset frame.rights frame.mapping
        → unmap_frame (with_slots s (S.slots store.old)) call ≡ with_slots s (S.slots store.new) }
    ensures slots { S.slots store.new
        ≡ recapped (S.slots store.old) frame.slot (Cap.Frame frame.offset frame.rights None) }
    ensures bytes { SameBesideTables (S.slots store.old) (S.memory store.old) (S.memory store.new) }
    ensures order { S.order store.new ≡ S.order store.old }
    ensures agree { TablesAgree (S.slots store.new) (S.memory store.new) }
{
    let slot = frame.slot;
    let offset = frame.offset;
    let rights = frame.rights;
    let Some(place) = leaf_of(store, frame) else {
        return;
    };
    store.write32(place, 0);
    let unmapped = Cap::Frame {
        offset,
        rights,
        mapping: None,
    };
    store.set_cap(slot, unmapped);
}
