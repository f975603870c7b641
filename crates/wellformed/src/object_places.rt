//! Where the objects of an image lie in memory, each after the ones before it in its untyped.

ghost use Rattle.std.specs.Prelude.{ℕ, ◌≡◌, ◌+◌, ◌<◌, not, replicate};
ghost use Rattle.model.specs.Acceptance.WellFormed.{has_no_room};
ghost use Rattle.model.specs.Images.Image.{Image};
ghost use Rattle.model.specs.Images.Places.{offset_of};
ghost use Rattle.wellformed.specs.Used.{IsUsed};

use crate::object_types::bits_of;
use image_reading::{ImageRef, header_of, object_of, untyped_of};
use model::MOST_UNTYPEDS;
use untyped::{next_place, power};

/// How many untypeds an image has at most.
const UNTYPEDS: usize = MOST_UNTYPEDS as usize;

/// An object's place.
#[derive(Clone, Copy)]
pub struct Place {
    /// Where it begins, in bytes from the start of physical memory.
    pub offset: u64,
    /// Whether its untyped has room for it.
    pub fits: bool,
}

/// How many bytes of each untyped the objects use that have their places.
#[derive(Drop)]
pub struct UsedMemory {
    used: [u64; UNTYPEDS],
}

/// Nothing is used of any untyped.
fn nothing_used() -> [u64; UNTYPEDS]
    ensures { result ≡ replicate 64 0 }
{
    [0; UNTYPEDS]
}

impl UsedMemory {
    /// No object has its place.
    pub fn none() -> UsedMemory
        ensures { (image : Image) → IsUsed image 0 result.used }
    {
        let used = nothing_used();
        UsedMemory { used }
    }

    /// Gives the next object its place. An object that does not fit lies beyond the end of its untyped.
    pub fn place(&mut self, image: &ImageRef<'_>, number: u32) -> Place
        requires number { number < image.now.header.objects }
        requires used { IsUsed image.now number self.old.used }
        ensures used { IsUsed image.now (number + 1) self.new.used }
        ensures offset { result.offset ≡ offset_of image.now number }
        ensures fits { result.fits ≡ not (has_no_room image.now number) }
    {
        let _ = header_of(image);
        let object = object_of(image, number);
        let home = untyped_of(image, object.untyped);
        let untyped = object.untyped as usize;
        let (first, end) = next_place(self.used[untyped], bits_of(object));
        self.used[untyped] = end;
        Place {
            offset: u64::from(home.offset) + first,
            fits: end <= power(home.bits),
        }
    }
}
