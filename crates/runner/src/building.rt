//! Images from their text, in files.

use crate::commands::Failure;
use asm::assemble;
use console::{is_same_file, read_text, write_bytes};
use image::write;
use std::alloc::Global;
use std::rt::Files;

/// The bytes of the image of a text.
fn image_bytes<'a>(alloc: Global, text: &str) -> Result<Vec<u8>, Failure<'a>> {
    let built = assemble(alloc, text)?;
    Ok(write(alloc, &built)?)
}

/// Builds the image of a text, and writes it to a file. The file is not touched before the whole image is there.
///
/// # Errors
///
/// The first of: the image would be written over the source, the source cannot be read or is no text in UTF-8 (its name), the text is
/// at fault (`Source`), the image cannot be written (its name), or memory was refused.
pub(crate) fn build<'a, R: Files + AllocGlobal>(
    rt: &R,
    source: &'a str,
    image: &'a str,
) -> Result<(), Failure<'a>> {
    if is_same_file(rt, source, image) {
        return Err(Failure::Overwritten(image));
    }
    let text = read_text(rt, source)?;
    let bytes = image_bytes(rt.alloc(), text.as_str())?;
    Ok(write_bytes(rt, image, bytes.as_slice())?)
}
