//! A thread's capability space, as a well-formed image gives it.

ghost use Rattle.std.specs.Prelude.{◌≡◌};
ghost use Rattle.model.specs.Acceptance.NotedKernel.{noted_root};
ghost use Rattle.model.specs.Images.Places.{offset_of};
ghost use Rattle.typestate.specs.GivenSpaces.{IsGivenSpace};
ghost use Rattle.typestate.specs.Promises.{AreOfImage};

use crate::{PlacedPromises, Windows};
use image_reading::{ImageRef, ThreadRef};
use model::Cap;

/// A thread of an image, with the CNodes that the image gives it, what the image promises of messages, the root of the thread's
/// capability space, and the offset of its root table.
#[derive(Clone, Copy)]
pub struct Space<'a, 's> {
    pub image: &'s ImageRef<'a>,
    pub thread: &'s ThreadRef<'a>,
    pub windows: &'s Windows,
    pub promises: &'s PlacedPromises<'a>,
    pub root: Cap,
    pub table: u32,
    ghost rooted: { root ≡ noted_root image.now thread.now },
    ghost mapped: { table ≡ offset_of image.now thread.now.header.root },
    ghost promised: { AreOfImage image.now promises.now },
    ghost given: { ∥ IsGivenSpace image.now thread.now windows.now root ∥₁ },
}
