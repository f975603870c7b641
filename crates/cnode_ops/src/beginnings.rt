//! What Retype makes, and where.

ghost use Rattle.std.specs.Prelude.{◌≡◌, ◌^◌};
ghost use Rattle.cnode_ops.specs.object_lifetimes.Beginnings.{AreLaid};
ghost use Rattle.model.specs.Kernel.ObjectTypes.{new_type};
ghost use Rattle.model.specs.Kernel.Retype.{object_bits};

use model::{ObjectType, Slot};

/// Some objects of one type, one after another from an offset on: each at a multiple of its size, in the largest memory.
#[derive(Clone, Copy)]
pub struct NewRange {
    pub kind: ObjectType,
    pub first: u32,
    pub count: u32,
    ghost laid: { AreLaid (record { kind = new_type kind; first = first; count = count }) },
}

impl NewRange {
    /// How many bytes each of the objects has.
    pub(crate) fn size(self) -> u32
        ensures { result ≡ 2 ^ object_bits (new_type self.kind) }
    {
        1 << self.kind.bits()
    }
}

/// Where their first capabilities go: from the slot `window` on, derived from the slot `parent`, whose
/// untyped memory is used up to `watermark` then.
#[derive(Clone, Copy)]
pub struct Placing {
    pub parent: Slot,
    pub window: Slot,
    pub watermark: u32,
}
