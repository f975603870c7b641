//! What a well-formed image promises of messages, by where its endpoints lie.

ghost use Rattle.std.specs.Prelude.{IfOk};
ghost use Rattle.typestate.specs.Promises.{AreOfImage};

use crate::offsets::PlacedImage;
use format_laws::images_that_fit_keep_their_limits;
use std::alloc::{AllocError, Global};
use typestate::{MessagePromise, PlacedPromises};

/// The promises of an image, found by the offsets of their endpoints.
///
/// # Errors
///
/// Memory may be refused.
pub fn promises_of<'a>(
    alloc: Global,
    placed: &PlacedImage<'_, 'a>,
) -> Result<PlacedPromises<'a>, AllocError>
    ensures { IfOk result (AreOfImage placed.now.image.now) }
{
    let image = placed.image;
    let _ = image.header();
    images_that_fit_keep_their_limits();
    let mut promises = PlacedPromises::new(alloc);
    for promise in image.promises() {
        let offset = placed.offsets[promise.header().endpoint as usize];
        promises.put(offset, MessagePromise { promise })?;
    }
    Ok(promises)
}
