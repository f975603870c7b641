//! Where an image's objects lie in memory.

ghost use Rattle.std.specs.Prelude.{◌≡◌, ◌<◌, IfOk};
ghost use Rattle.bootstrap.specs.Filling.{ArePlaces};

use image_reading::ImageRef;
use std::alloc::{AllocError, Global};
use wellformed::UsedMemory;

/// The offsets of all objects from the start of physical memory, each after the ones before it in its untyped. They may
/// lie beyond the end of memory, since nothing says yet that the objects fit.
pub(crate) fn places_of(alloc: Global, image: &ImageRef<'_>) -> Result<Vec<u64>, AllocError>
    ensures { IfOk result (λ places. ArePlaces image.now image.now.header.objects places.items) }
{
    let mut places = Vec::new(alloc);
    let mut used = UsedMemory::none();
    for number in 0..image.header().objects {
        places.push(used.place(image, number).offset)?;
    }
    Ok(places)
}
