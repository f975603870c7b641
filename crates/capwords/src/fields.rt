//! Reading fields out of words, whether these are a capability's or not.

ghost use Rattle.std.specs.Prelude.{◌≡◌, ◌<◌};
ghost use Rattle.model.specs.Capabilities.CapabilityFields.{fields_of, fields_of_kind, frame_mapping_of, table_mapping_of};

use model::{Cap, FrameMapping, Rights, TableMapping};

/// Where a frame's second word says that it is mapped.
fn frame_mapping(rights: u8, word: u32) -> Option<FrameMapping>
    ensures { result ≡ frame_mapping_of rights word }
{
    if word == 0 {
        return None;
    }
    Some(FrameMapping {
        root: word / 2 % 0x1000 * 0x1000,
        page: word / 0x2000,
        rights: Rights(rights),
    })
}

/// Where a page table's second word says that it is mapped.
fn table_mapping(word: u32) -> Option<TableMapping>
    ensures { result ≡ table_mapping_of word }
{
    if word == 0 {
        return None;
    }
    Some(TableMapping {
        root: word / 2 % 0x1000 * 0x1000,
        region: word / 0x80_0000,
    })
}

/// The capability with these fields, by its kind.
#[tactic(auto, unfolding(model::specs::Capabilities::CapabilityFields::fields_of_kind))]
fn of_kind(kind: u32, detail: u8, rights: u8, offset: u32, word: u32) -> Cap
    ensures { result ≡ fields_of_kind kind detail rights offset word }
{
    match kind {
        1 => Cap::Untyped {
            offset,
            bits: detail,
            watermark: word,
        },
        2 => Cap::Tcb { offset },
        3 => Cap::Endpoint {
            offset,
            rights: Rights(detail),
            badge: word,
        },
        4 => Cap::Notification {
            offset,
            rights: Rights(detail),
            badge: word,
        },
        5 => Cap::CNode {
            offset,
            radix: detail,
            guard: word,
        },
        6 => Cap::Frame {
            offset,
            rights: Rights(detail),
            mapping: frame_mapping(rights, word),
        },
        7 => Cap::PageTable {
            offset,
            mapping: table_mapping(word),
        },
        8 => Cap::RootTable { offset },
        9 => Cap::InterruptControl,
        10 => Cap::InterruptHandler {
            line: (word % 0x100) as u8,
        },
        _ => Cap::Empty,
    }
}

/// The capability whose fields are in two words. Where they are the words of none, its fields may be out of their ranges, and
/// [`unpack`](crate::unpack) refuses them; who knows that they are some capability's needs no other look.
#[inline(always)]
pub fn read_fields(head: u32, word: u32) -> Cap
    ensures { result ≡ fields_of head word }
{
    let detail = (head / 0x10 % 0x20) as u8;
    let rights = (head / 0x200 % 8) as u8;
    of_kind(head % 16, detail, rights, head / 0x1000 * 16, word)
}
