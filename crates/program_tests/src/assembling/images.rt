//! What a text gives.

use asm::{SourceFault, assemble};
use image::write;
use std::alloc::Global;
use std::test::Fail;

/// The bytes of the image of a text.
pub(crate) fn bytes_of(alloc: Global, text: &str) -> Result<Vec<u8>, Fail> {
    let image = assemble(alloc, text).ok().ok_or("the text is at fault")?;
    Ok(write(alloc, &image)?)
}

/// The line and the kind of a text's fault, as `source` prints them, or `none`.
pub(crate) fn fault_of(alloc: Global, text: &str) -> Result<String, Fail> {
    Ok(match assemble(alloc, text) {
        Ok(_) => format!(in alloc; "none")?,
        Err(SourceFault { line, kind }) => format!(in alloc; "{line} {kind}")?,
    })
}
