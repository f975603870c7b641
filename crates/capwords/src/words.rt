//! The two words of a capability, and the capability of two words.

ghost use Rattle.std.specs.Prelude.{◌≡◌, ◌^◌, ◌<◌, Some, IfSome};
ghost use Rattle.model.specs.Capabilities.CapabilityWords.{IsCapability, head_word, mapping_word, words_of};

use crate::fields::read_fields;
use crate::validity::is_capability;
use model::Cap;

/// A first word, with the kind in bits 0 to 3, the detail in 4 to 8, the mapping rights in 9 to 11 and
/// a sixteenth of the offset in 12 to 31.
fn head(kind: u32, detail: u8, rights: u8, offset: u32) -> u32
    requires kinds { kind < 16 }
    requires details { detail < 32 }
    requires few { rights < 8 }
    requires near { offset < 2 ^ 24 }
    ensures { result ≡ head_word kind detail rights offset }
{
    kind + 0x10 * u32::from(detail) + 0x200 * u32::from(rights) + 0x1000 * (offset / 16)
}

/// A second word that names a mapping.
fn mapping(root: u32, page: u32) -> u32
    requires near { root < 2 ^ 24 }
    requires low { page < 2 ^ 19 }
    ensures { result ≡ mapping_word root page }
{
    1 + 2 * (root / 0x1000) + 0x2000 * page
}

/// The two words of a capability. [`is_capability`] tests what is required.
pub fn pack(capability: Cap) -> [u32; 2]
    requires { IsCapability capability }
    ensures { result ≡ words_of capability }
{
    match capability {
        Cap::Empty => [0, 0],
        Cap::Untyped {
            offset,
            bits,
            watermark,
        } => [head(1, bits, 0, offset), watermark],
        Cap::Tcb { offset } => [head(2, 0, 0, offset), 0],
        Cap::Endpoint {
            offset,
            rights,
            badge,
        } => [head(3, rights.0, 0, offset), badge],
        Cap::Notification {
            offset,
            rights,
            badge,
        } => [head(4, rights.0, 0, offset), badge],
        Cap::CNode {
            offset,
            radix,
            guard,
        } => [head(5, radix, 0, offset), guard],
        Cap::Frame {
            offset,
            rights,
            mapping: None,
        } => [head(6, rights.0, 0, offset), 0],
        Cap::Frame {
            offset,
            rights,
            mapping: Some(place),
        } => [
            head(6, rights.0, place.rights.0, offset),
            mapping(place.root, place.page),
        ],
        Cap::PageTable {
            offset,
            mapping: None,
        } => [head(7, 0, 0, offset), 0],
        Cap::PageTable {
            offset,
            mapping: Some(place),
        } => [
            head(7, 0, 0, offset),
            mapping(place.root, 0x400 * place.region),
        ],
        Cap::RootTable { offset } => [head(8, 0, 0, offset), 0],
        Cap::InterruptControl => [9, 0],
        Cap::InterruptHandler { line } => [10, u32::from(line)],
    }
}

/// The capability that two words represent, if they are the words of one. Words with any bit set
/// that no field names are not.
pub fn unpack(words: [u32; 2]) -> Option<Cap>
    ensures some { IfSome result (λ capability. IsCapability capability
        × (words ≡ words_of capability)) }
    ensures only { (capability : Cap) → IsCapability capability
        → words ≡ words_of capability → result ≡ Some capability }
{
    let [head, word] = words;
    let capability = read_fields(head, word);
    if !is_capability(capability) {
        return None;
    }
    let [packed_head, packed_word] = pack(capability);
    if packed_head == head && packed_word == word {
        Some(capability)
    } else {
        None
    }
}
