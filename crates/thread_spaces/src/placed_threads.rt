//! A thread of a well-formed image whose objects have their places in memory.

ghost use Rattle.std.specs.Prelude.{◌≡◌, Some, slice_get};

use crate::offsets::PlacedImage;
use image_reading::ThreadRef;

/// A thread of a well-formed image, with the places of the image's objects.
#[derive(Clone, Copy)]
pub struct PlacedThread<'p, 'i, 't, 'a> {
    pub placed: &'p PlacedImage<'i, 'a>,
    /// Which of the image's threads it is, from 0 on.
    pub number: u32,
    pub thread: &'t ThreadRef<'a>,
    ghost listed: { slice_get placed.now.image.now.threads number ≡ Some thread.now },
}
