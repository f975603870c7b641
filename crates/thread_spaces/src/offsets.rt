//! Where the objects of a well-formed image lie in memory.

ghost use Rattle.std.specs.Prelude.{◌≡◌, ◌<◌, IfErr, IfOk};
ghost use Rattle.model.specs.Acceptance.Accepted.{IsWellFormed};
ghost use Rattle.thread_spaces.specs.Given.{AreOffsets};

use image_reading::{ImageRef, header_of};
use std::alloc::{AllocError, Global};
use wellformed::UsedMemory;

/// The offsets of all objects from the start of physical memory, each after the ones before it in its untyped.
///
/// # Errors
///
/// Memory may be refused.
pub fn offsets_of(alloc: Global, image: &ImageRef<'_>) -> Result<Vec<u32>, AllocError>
    requires { IsWellFormed image.now }
    ensures { IfOk result (λ offsets. AreOffsets image.now image.now.header.objects offsets.items) }
{
    let mut offsets = Vec::new(alloc);
    let mut used = UsedMemory::none();
    for number in 0..header_of(image).objects {
        let place = used.place(image, number);
        offsets.push(place.offset as u32)?;
    }
    Ok(offsets)
}

/// A well-formed image, and where its objects lie in memory.
#[derive(Clone, Copy)]
pub struct PlacedImage<'i, 'a> {
    pub image: &'i ImageRef<'a>,
    /// The offset of each object from the start of physical memory.
    pub offsets: &'i [u32],
    ghost formed: { IsWellFormed image.now },
    ghost placed: { AreOffsets image.now image.now.header.objects offsets.now },
}
