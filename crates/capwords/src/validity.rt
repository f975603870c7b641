//! Which capabilities there are.

ghost use Rattle.std.specs.Prelude.{◌≡◌, ◌↔◌, ◌≤◌, ◌<◌, IsTrue};
ghost use Rattle.model.specs.Capabilities.CapabilityWords.{AreEndpointRights, AreMappingRights, IsCapability};
ghost use Rattle.model.specs.Capabilities.CapabilityWords.{IsFrameMapping, IsGuardWord, IsPlace, IsTableMapping};

use model::{Cap, FrameMapping, Rights, TableMapping};

/// Whether an object of 2^`bits` bytes may lie at an offset.
fn is_place(offset: u32, bits: u8) -> bool
    requires { bits ≤ 24 }
    ensures { IsTrue result ↔ IsPlace offset bits }
{
    offset % (1u32 << bits) == 0 && offset < 0x100_0000
}

/// Whether an endpoint or a notification may have these rights.
fn are_endpoint_rights(rights: Rights) -> bool
    ensures { IsTrue result ↔ AreEndpointRights rights.0 }
{
    rights.0 & Rights::OF_ENDPOINT.0 == rights.0
}

/// Whether a mapping may have these rights.
fn are_mapping_rights(rights: Rights) -> bool
    ensures { IsTrue result ↔ AreMappingRights rights.0 }
{
    matches!(rights.0, 2 | 3 | 4 | 6 | 7)
}

/// Whether a CNode of this radix may have this guard word.
pub fn is_guard_word(radix: u8, word: u32) -> bool
    ensures { IsTrue result ↔ IsGuardWord radix word }
{
    let size = word % 0x20;
    word < 0x80_0000 && u64::from(word / 0x20) < 1u64 << size && size + u32::from(radix) <= 32
}

fn is_frame_mapping(mapping: Option<FrameMapping>) -> bool
    ensures { IsTrue result ↔ IsFrameMapping mapping }
{
    match mapping {
        None => true,
        Some(place) => {
            is_place(place.root, 12) && place.page < 0x8_0000 && are_mapping_rights(place.rights)
        }
    }
}

fn is_table_mapping(mapping: Option<TableMapping>) -> bool
    ensures { IsTrue result ↔ IsTableMapping mapping }
{
    match mapping {
        None => true,
        Some(place) => is_place(place.root, 12) && place.region < 0x200,
    }
}

fn is_untyped(offset: u32, bits: u8, watermark: u32) -> bool
    ensures { IsTrue result ↔ IsCapability (Cap.Untyped offset bits watermark) }
{
    bits >= 4 && bits <= 24 && is_place(offset, bits) && watermark <= 1 << bits
}

fn is_cnode(offset: u32, radix: u8, guard: u32) -> bool
    ensures { IsTrue result ↔ IsCapability (Cap.CNode offset radix guard) }
{
    radix >= 1 && radix <= 14 && is_place(offset, radix + 4) && is_guard_word(radix, guard)
}

/// Whether the fields of a capability are in their ranges.
pub fn is_capability(capability: Cap) -> bool
    ensures { IsTrue result ↔ IsCapability capability }
{
    match capability {
        Cap::Empty | Cap::InterruptControl => true,
        Cap::Untyped {
            offset,
            bits,
            watermark,
        } => is_untyped(offset, bits, watermark),
        Cap::Endpoint {
            offset,
            rights,
            badge,
        }
        | Cap::Notification {
            offset,
            rights,
            badge,
        } => is_place(offset, 4) && are_endpoint_rights(rights) && badge < 0x1000_0000,
        Cap::CNode {
            offset,
            radix,
            guard,
        } => is_cnode(offset, radix, guard),
        Cap::Frame {
            offset,
            rights,
            mapping,
        } => is_place(offset, 12) && rights.0 < 4 && is_frame_mapping(mapping),
        Cap::PageTable { offset, mapping } => is_place(offset, 12) && is_table_mapping(mapping),
        Cap::Tcb { offset } => is_place(offset, 9),
        Cap::RootTable { offset } => is_place(offset, 12),
        Cap::InterruptHandler { line } => line < 64,
    }
}
