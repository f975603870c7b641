//! The image of a part alone.

ghost use Rattle.std.specs.Prelude.{◌≡◌, ◌⊎◌, IfErr, IfOk, OnOk, Some};
ghost use Rattle.headline.specs.parts.Parts.{alone};
ghost use Rattle.model.specs.Acceptance.Accepted.{IsAccepted, first_breach};
ghost use Rattle.model.specs.Images.Format.{IsSpelling};
ghost use Rattle.model.specs.Images.Image as described;
ghost use Rattle.model.specs.declared.refusals.Refusal.TheVariants.{OutOfMemory};
ghost use Rattle.parts.specs.Alone.{WhyNotAlone};
ghost use Rattle.parts.specs.declared.alone.NotAlone.TheVariants.{Refused};
ghost use Rattle.parts.specs.Uses.{is_part};

use crate::image_parts::is_in;
use crate::uses::Uses;
use image::{Image, Parts, write};
use image_copies::copied;
use image_reading::ImageRef;
use model::Refusal;
use std::alloc::Global;
use std::marker::Model;
use verify::verify;

/// Why there is no image of a part alone.
#[derive(Clone, Copy, Debug, PartialEq, Eq)]
pub enum NotAlone {
    /// It would not fit the format of images, as where the part has no thread.
    Unfit,
    /// The verifier refuses it, or memory was refused.
    Refused(Refusal),
}

/// The image of a part alone, by its bytes, which the verifier accepted.
#[derive(Drop)]
pub struct Alone {
    bytes: Vec<u8>,
}

impl Model for Alone {
    ghost use Rattle.std.specs.Prelude.{ℕ, List};

    ghost Value = { List ℕ };

    ghost view = { λ a. a.bytes.items };
}

impl Alone {
    /// Its bytes.
    pub fn bytes(&self) -> &[u8]
        ensures { result.now ≡ self.now }
    {
        self.bytes.as_slice()
    }
}

/// Leaves out the threads that are not of the part.
fn leave_others_out(all: &[Uses], threads: u64, parts: &mut Parts)
    ensures { parts.new ≡ alone parts.old (is_part threads all.now) }
{
    parts
        .threads
        .retain(|thread| is_in(all, threads, thread.tcb));
}

/// An image as parts of its own.
fn copy_of(alloc: Global, image: &ImageRef<'_>) -> Result<Parts, NotAlone>
    ensures parts { IfOk result (λ parts. parts ≡ image.now) }
    ensures memory { IfErr result (λ why. why ≡ Refused OutOfMemory) }
{
    match copied(alloc, image) {
        Ok(parts) => Ok(parts),
        Err(_) => Err(NotAlone::Refused(Refusal::OutOfMemory)),
    }
}

/// The bytes of an image.
fn written(alloc: Global, image: &Image) -> Result<Vec<u8>, NotAlone>
    ensures spelled { IfOk result (λ bytes. IsSpelling described.whole_image bytes.items image.now) }
    ensures memory { IfErr result (λ why. why ≡ Refused OutOfMemory) }
{
    match write(alloc, image) {
        Ok(bytes) => Ok(bytes),
        Err(_) => Err(NotAlone::Refused(Refusal::OutOfMemory)),
    }
}

/// The bytes of an image, if its parts fit the format.
fn bytes_of(alloc: Global, parts: Parts) -> Result<Vec<u8>, NotAlone>
    ensures spelled { IfOk result (λ bytes. IsSpelling described.whole_image bytes.items parts) }
    ensures refused { IfErr result (WhyNotAlone parts) }
{
    match Image::checked(parts) {
        Ok(image) => written(alloc, &image),
        Err(_) => Err(NotAlone::Unfit),
    }
}

/// Whether the verifier accepts the bytes.
fn check(alloc: Global, bytes: &[u8]) -> Result<(), Refusal>
    ensures accepted { (image : described.Image) → IsSpelling described.whole_image bytes.now image → OnOk result (IsAccepted bytes.now image) }
    ensures refused { IfErr result (λ refusal. (refusal ≡ OutOfMemory) ⊎ (first_breach bytes.now ≡ Some refusal)) }
{
    match verify(alloc, bytes) {
        Ok(_) => Ok(()),
        Err(refusal) => Err(refusal),
    }
}

/// The part alone, if the verifier accepts it.
pub(crate) fn alone_of(
    alloc: Global,
    image: &ImageRef<'_>,
    all: &[Uses],
    threads: u64,
) -> Result<Alone, NotAlone>
    ensures accepted { IfOk result (λ bytes. IsAccepted bytes (alone image.now (is_part threads all.now))) }
    ensures refused { IfErr result (WhyNotAlone (alone image.now (is_part threads all.now))) }
{
    let mut parts = copy_of(alloc, image)?;
    leave_others_out(all, threads, &mut parts);
    let bytes = bytes_of(alloc, parts)?;
    match check(alloc, bytes.as_slice()) {
        Ok(()) => Ok(Alone { bytes }),
        Err(refusal) => Err(NotAlone::Refused(refusal)),
    }
}
