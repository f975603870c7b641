//! The places of slots and pages among the keys of their sections.

ghost use Rattle.model.specs.Images.Image.{pair_key};
ghost use Rattle.image_reading.specs.image_entries.Keys.{AreListedIn, IsPlaceOf, capability_keys, frame_keys, table_keys};

use crate::ImageRef;
use crate::fields::pair_key;
use crate::image_entries::entries::header_of;

/// The place of a CNode's first slot among those of the capabilities.
fn cnode_place(image: &ImageRef<'_>, cnode: u32) -> u32
    ensures { IsPlaceOf (pair_key cnode 0) (capability_keys image.now) result }
{
    let _ = header_of(image);
    image.capabilities().place_of(pair_key(cnode, 0))
}

/// Where the capabilities of a CNode are.
#[derive(Clone, Copy, Drop)]
pub struct CapabilityRange {
    /// The first of them.
    pub first: u32,
    /// The one after the last.
    pub end: u32,
}

/// Where the capabilities of a CNode are: they rise by CNode, so it halves those that are left.
pub fn listed_in(image: &ImageRef<'_>, cnode: u32) -> CapabilityRange
    ensures { AreListedIn cnode image.now.capabilities result.first result.end }
{
    let header = header_of(image);
    let first = cnode_place(image, cnode);
    let end = match cnode.checked_add(1) {
        Some(next) => cnode_place(image, next),
        None => header.capabilities,
    };
    CapabilityRange { first, end }
}

/// The place of an address under a root table among those of the tables.
pub(crate) fn table_place(image: &ImageRef<'_>, root: u32, address: u32) -> u32
    ensures { IsPlaceOf (pair_key root address) (table_keys image.now) result }
{
    let _ = header_of(image);
    image.tables().place_of(pair_key(root, address))
}

/// The place of an address under a root table among those of the frames' mappings.
pub(crate) fn frame_place(image: &ImageRef<'_>, root: u32, address: u32) -> u32
    ensures { IsPlaceOf (pair_key root address) (frame_keys image.now) result }
{
    let _ = header_of(image);
    image.frames().place_of(pair_key(root, address))
}
