//! Calls on frames at a point.
//! seL4 Reference Manual, "Address Spaces and Virtual Memory"; ours maps a capability once.

ghost use Rattle.std.specs.Prelude.{◌≡◌, ◌==◌, ◌||◌, ◌/◌, ◌%◌, ◌<◌, ◌^◌, ◌⊎◌, false, Some, IfOk};
ghost use Rattle.std.specs.List.{list_any};
ghost use Rattle.std.specs.Option.{option_map_or};
ghost use Rattle.model.specs.Acceptance.NotedKernel.{noted_kernel, noted_root, noted_slots};
ghost use Rattle.model.specs.Capabilities.CapabilityKinds.{frame_mapping, with_frame_mapping};
ghost use Rattle.model.specs.Capabilities.CapabilityWords.{AreMappingRights, IsCapability, IsFrameMapping, IsPlace};
ghost use Rattle.model.specs.Kernel.AddressSpaces.{is_page_taken, is_region_taken, maps_page};
ghost use Rattle.model.specs.Kernel.MappingCalls.{root_named};
ghost use Rattle.model.specs.declared.invocations.FrameCall.TheVariants.{MapFrame, UnmapFrame};
ghost use Rattle.model.specs.declared.invocations.Invocation.TheVariants.{OnFrame};
ghost use Rattle.typestate.specs.Differences.{left_by, slots_of};
ghost use Rattle.typestate.specs.Families.{found};
ghost use Rattle.typestate.specs.Invocations.{IsCallOn, held_after, mapped_at, mapping_made, with_root};
ghost use Rattle.typestate.specs.Mappings.{lists_page, lists_region};
ghost use Rattle.typestate.specs.SlotChanges.{left_or_refused};
ghost use Rattle.typestate.specs.declared.slot_changes.SlotChange.TheVariants.{Puts};

use crate::held_slots::HeldSlot;
use crate::noted::left;
use crate::{NotedSlot, NotedSlots, SlotChange, Space, ThreadSlots};
use image_reading::{lists_page, lists_region};
use model::{Cap, FrameCall, FrameMapping, KError, Point, Refusal, Rights, SlotName};
use vspace::{mapping_rights, may_be_mapped, page_named};

/// Pages of a region, which one page table maps.
const REGION_PAGES: u32 = 0x400;

/// Whether a capability maps a page under the root table at an offset.
fn maps_page(capability: Cap, root: u32, page: u32) -> bool
    ensures { result ≡ maps_page root page capability }
{
    match capability {
        Cap::Frame {
            mapping: Some(mapping),
            ..
        } => mapping.root == root && mapping.page == page,
        _ => false,
    }
}

/// Whether a rights word asks for no execution.
fn is_data(word: u32) -> bool
    ensures { result ≡ (word / 4 % 2 == 0) }
{
    word / 4 % 2 == 0
}

/// The mapping of a frame's capability.
fn mapping_of(capability: Cap) -> Option<FrameMapping>
    ensures { result ≡ frame_mapping capability }
{
    match capability {
        Cap::Frame { mapping, .. } => mapping,
        _ => None,
    }
}

/// A frame's capability with another mapping.
fn with_mapping(capability: Cap, mapping: Option<FrameMapping>) -> Cap
    requires valid { IsCapability capability }
    requires mapping { IsFrameMapping mapping }
    ensures value { result ≡ with_frame_mapping capability mapping }
    ensures valid { IsCapability result }
{
    match capability {
        Cap::Frame { offset, rights, .. } => Cap::Frame {
            offset,
            rights,
            mapping,
        },
        other => other,
    }
}

/// A slot with another capability.
fn recapped(held: NotedSlot, capability: Cap) -> SlotChange
    requires { IsCapability capability }
    ensures { result ≡ Puts (record { key = held.key; capability = capability; parent = held.parent }) }
{
    SlotChange::Puts(NotedSlot {
        key: held.key,
        capability,
        parent: held.parent,
    })
}

/// Whether what a slot holds maps a page under the root table at an offset.
fn takes(held: Option<NotedSlot>, root: u32, page: u32) -> bool
    ensures { result ≡ option_map_or (λ s. maps_page root page s.capability) held false }
{
    match held {
        Some(held) => maps_page(held.capability, root, page),
        None => false,
    }
}

impl NotedSlots<'_> {
    /// Whether what the change to the slot of a number leaves maps a page under the root table at an offset.
    fn takes_at(&self, number: u64, root: u32, page: u32) -> bool
        ensures { result ≡ option_map_or (λ c. option_map_or (λ s. maps_page root page s.capability) (left_by c) false)
            (found self.now.changes.now number) false }
    {
        match self.changes.numbered(number) {
            Some(change) => takes(left(change), root, page),
            None => false,
        }
    }

    /// Whether what one of the changes leaves maps a page under the root table at an offset.
    fn one_takes(&self, root: u32, page: u32) -> bool
        ensures { result ≡ list_any (λ c. option_map_or (λ s. maps_page root page s.capability) (left_by c) false) self.now.changes.now }
    {
        let Some(pages) = self.pages else {
            return false;
        };
        for slot in pages.at(page) {
            if self.takes_at(slot.1, root, page) {
                return true;
            }
        }
        false
    }

    /// Whether a frame capability in the slots maps a page, under the root table at an offset. Those that the image
    /// lists map none.
    fn takes_page(&self, root: u32, page: u32) -> bool
        ensures { result ≡ list_any (λ s. maps_page root page s.capability) (slots_of self.now) }
    {
        self.one_takes(root, page)
    }
}

impl Space<'_, '_> {
    /// Whether the image maps a page table for a region under the thread's root table.
    fn lists_region(&self, region: u32) -> bool
        requires { region < 2 ^ 10 }
        ensures { result ≡ list_any (lists_region self.now.thread.now region) self.now.image.now.tables }
    {
        lists_region(self.image, self.thread.header().root, region)
    }

    /// Whether the image maps a frame at a page under the thread's root table.
    fn lists_page(&self, page: u32) -> bool
        requires { page < 2 ^ 20 }
        ensures { result ≡ list_any (lists_page self.now.thread.now page) self.now.image.now.frames }
    {
        lists_page(self.image, self.thread.header().root, page)
    }
}

impl ThreadSlots<'_, '_, '_> {
    /// Whether a region of the thread's address space has a page table. No program can map or unmap one.
    fn is_region_taken(&self, region: u32) -> bool
        requires { region < 2 ^ 10 }
        ensures { result ≡ is_region_taken (noted_kernel self.now.space.image.now self.now.space.thread.now (slots_of self.now.slots)) self.now.space.table
            region }
    {
        self.space.lists_region(region)
    }

    /// Whether a frame is mapped at a page of the thread's address space.
    fn is_page_taken(&self, page: u32) -> bool
        requires { page < 2 ^ 20 }
        ensures { result ≡ is_page_taken (noted_kernel self.now.space.image.now self.now.space.thread.now (slots_of self.now.slots)) self.now.space.table page }
    {
        let listed = self.space.lists_page(page);
        let held = self.slots.takes_page(self.space.table, page);
        listed || held
    }

    /// Whether a slot of this name holds the thread's root table, or the kernel's error: no other one can be there.
    fn names_root(&self, name: SlotName) -> Result<(), KError>
        ensures value { root_named (noted_slots self.now.space.image.now self.now.space.thread.now (slots_of self.now.slots))
            (noted_root self.now.space.image.now self.now.space.thread.now) name ≡ with_root self.now.space.table result }
        ensures placed { IfOk result (λ _. IsPlace self.now.space.table 12) }
    {
        let (_, held) = match self.named(name) {
            Ok(found) => found,
            Err(error) => return Err(error),
        };
        match held {
            Cap::Empty => Err(KError::FailedLookup),
            Cap::RootTable { .. } => Ok(()),
            _ => Err(KError::InvalidCapability),
        }
    }

    /// The mapping of a frame at a page with these rights, or the kernel's error.
    fn mapping_at(&self, allowed: Rights, page: u32) -> Result<FrameMapping, KError>
        requires placed { IsPlace self.now.space.table 12 }
        requires near { page < 2 ^ 19 }
        requires kinds { (allowed.0 ≡ 0) ⊎ AreMappingRights allowed.0 }
        ensures value { result ≡ mapped_at self.now.space.image.now self.now.space.thread.now (slots_of self.now.slots) allowed self.now.space.table page }
        ensures valid { IfOk result (λ made. IsFrameMapping (Some made)) }
    {
        if !self.is_region_taken(page / REGION_PAGES) {
            return Err(KError::FailedLookup);
        }
        if self.is_page_taken(page) {
            return Err(KError::DeleteFirst);
        }
        if !may_be_mapped(allowed) {
            return Err(KError::InvalidArgument);
        }
        Ok(FrameMapping {
            root: self.space.table,
            page,
            rights: allowed,
        })
    }

    /// The mapping that Map makes of a frame's capability with these rights and this mapping, or the kernel's error.
    fn mapping_for(
        &self,
        mapping: Option<FrameMapping>,
        held: Rights,
        root: SlotName,
        address: u32,
        rights: u32,
    ) -> Result<FrameMapping, KError>
        ensures value { result ≡ mapping_made self.now.space.image.now self.now.space.thread.now (slots_of self.now.slots) mapping held root address rights }
        ensures valid { IfOk result (λ made. IsFrameMapping (Some made)) }
    {
        if mapping.is_some() {
            return Err(KError::InvalidCapability);
        }
        match self.names_root(root) {
            Ok(()) => {}
            Err(error) => return Err(error),
        }
        let page = match page_named(address) {
            Ok(page) => page,
            Err(error) => return Err(error),
        };
        self.mapping_at(mapping_rights(held, rights), page)
    }
}

impl HeldSlot<'_, '_, '_, '_> {
    /// Map of the frame whose capability the slot holds: no program may make what it can execute.
    fn map(
        &self,
        at: Point,
        allowed: Rights,
        root: SlotName,
        address: u32,
        rights: u32,
    ) -> Result<SlotChange, Refusal>
        requires { IsCallOn self.now.held.now.capability (OnFrame allowed (MapFrame root address rights)) }
        ensures { held_after self.now.own.space.image.now self.now.own.space.thread.now at (slots_of self.now.own.slots) self.now.held.now
            (OnFrame allowed (MapFrame root address rights)) ≡ left_or_refused (slots_of self.now.own.slots) result }
    {
        let held = *self.held;
        let mapping = mapping_of(held.capability);
        match self
            .own
            .mapping_for(mapping, allowed, root, address, rights)
        {
            Err(error) => Err(Refusal::CallRefused(at, error)),
            Ok(mapping) => {
                if !is_data(rights) {
                    return Err(Refusal::CallRefused(at, KError::IllegalOperation));
                }
                Ok(recapped(held, with_mapping(held.capability, Some(mapping))))
            }
        }
    }

    /// Map and Unmap of the frame whose capability the slot holds, with these rights.
    pub(crate) fn frame_call(
        &self,
        at: Point,
        allowed: Rights,
        call: FrameCall,
    ) -> Result<SlotChange, Refusal>
        requires { IsCallOn self.now.held.now.capability (OnFrame allowed call) }
        ensures { held_after self.now.own.space.image.now self.now.own.space.thread.now at (slots_of self.now.own.slots) self.now.held.now
            (OnFrame allowed call) ≡ left_or_refused (slots_of self.now.own.slots) result }
    {
        match call {
            FrameCall::MapFrame {
                root,
                address,
                rights,
            } => self.map(at, allowed, root, address, rights),
            FrameCall::UnmapFrame => {
                let held = *self.held;
                Ok(recapped(held, with_mapping(held.capability, None)))
            }
        }
    }
}
