//! The words that a record notes of a slot.

ghost use Rattle.std.specs.Prelude.{◌≡◌, ◌==◌, ◌&&◌, is_some};
ghost use Rattle.model.specs.Capabilities.CapabilityFields.{unpacked};
ghost use Rattle.model.specs.Images.Image.{names_parent};

/// Whether two words are those of a capability.
pub fn unpacks(word0: u32, word1: u32) -> bool
    ensures { result ≡ is_some (unpacked word0 word1) }
{
    capwords::unpack([word0, word1]).is_some()
}

/// Whether two words are those of an empty slot.
pub(crate) fn is_empty(word0: u32, word1: u32) -> bool
    ensures { result ≡ (word0 == 0) && (word1 == 0) }
{
    word0 == 0 && word1 == 0
}

/// Whether the object and the index that name a slot's parent go together: both 2^32 - 1, for the boot
/// CNode; or, unless the slot is empty, an object and the index of one of its slots.
pub fn names_parent(is_empty: bool, parent: u32, index: u32) -> bool
    ensures { result ≡ names_parent is_empty parent index }
{
    if parent == u32::MAX {
        index == u32::MAX
    } else {
        !is_empty && index < 1 << 14
    }
}
