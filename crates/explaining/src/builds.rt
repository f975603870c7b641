//! What texts assemble to.

use asm::{SourceFault, assemble};
use image::{Image, write};
use std::alloc::{AllocError, Global};

/// The kind of a text's fault that is out of memory.
const MEMORY: u8 = 5;

/// What a text assembles to.
#[derive(Drop)]
pub(crate) enum Build {
    /// An image, by its bytes.
    Image(Vec<u8>),
    /// No image, for a fault that is not out of memory.
    Fault(SourceFault),
}

/// The bytes of an image.
fn image_of(alloc: Global, image: &Image) -> Result<Build, AllocError> {
    Ok(Build::Image(write(alloc, image)?))
}

/// What a text assembles to.
pub(crate) fn build_text(alloc: Global, text: &str) -> Result<Build, AllocError> {
    match assemble(alloc, text) {
        Ok(image) => image_of(alloc, &image),
        Err(fault) if fault.kind == MEMORY => Err(AllocError),
        Err(fault) => Ok(Build::Fault(fault)),
    }
}
