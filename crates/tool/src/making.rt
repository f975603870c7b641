//! Images of the texts of systems, with the certificates that are found.

ghost use Rattle.std.specs.Prelude.{IfOk, OnOk};
ghost use Rattle.tool.specs.AcceptedTexts.{IsAcceptedImage, IsImageOf, IsMadeOf};

use crate::certification::{CertifiedText, NotCertified, certified};
use asm::assemble;
use image::write;
use model::Refusal;
use progress::Progress;
use std::alloc::Global;
use verify::verify;

/// An image that the verifier accepts.
#[derive(Drop)]
pub struct MadeImage {
    pub image: Vec<u8>,
    /// The line `THREAD budget N` of each thread, with the least budget that is found.
    pub budgets: String,
}

/// Whether the verifier accepts these bytes.
fn judge(alloc: Global, bytes: &[u8]) -> Result<(), NotCertified>
    ensures { OnOk result (IsAcceptedImage bytes.now) }
{
    match verify(alloc, bytes) {
        Ok(_) => Ok(()),
        Err(Refusal::OutOfMemory) => Err(NotCertified::OutOfMemory),
        Err(refusal) => Err(NotCertified::Image(refusal)),
    }
}

/// The image of a text, if the verifier accepts it.
///
/// # Errors
///
/// It is no text, its image is refused, or memory is.
pub(crate) fn image_of_text(alloc: Global, text: &str) -> Result<Vec<u8>, NotCertified>
    ensures accepted { IfOk result (λ bytes. IsAcceptedImage bytes.items) }
    ensures from { IfOk result (λ bytes. IsImageOf text.now bytes.items) }
{
    let image = assemble(alloc, text)?;
    let bytes = write(alloc, &image)?;
    judge(alloc, bytes.as_slice())?;
    Ok(bytes)
}

/// The image of a text, whether the verifier accepts it or not.
///
/// # Errors
///
/// It is no text, or memory is refused.
pub(crate) fn image_as_written(alloc: Global, text: &str) -> Result<Vec<u8>, NotCertified> {
    let image = assemble(alloc, text)?;
    Ok(write(alloc, &image)?)
}

/// The image of the bytes of a text, if they are a text and the verifier accepts it.
fn image_of(alloc: Global, text: &[u8]) -> Result<Vec<u8>, NotCertified>
    ensures accepted { IfOk result (λ bytes. IsAcceptedImage bytes.items) }
    ensures from { IfOk result (λ bytes. IsImageOf text.now bytes.items) }
{
    match std::str::from_utf8(text) {
        Ok(text) => image_of_text(alloc, text),
        Err(_) => Err(NotCertified::Disagreement),
    }
}

/// The image of a text without certificates, which the verifier accepts with those that are found. Whoever watches hears what
/// [`certified`] says.
///
/// # Errors
///
/// Why there is none ([`NotCertified`]).
pub fn made<P: Progress>(
    alloc: Global,
    text: &str,
    progress: &mut P,
) -> Result<MadeImage, NotCertified>
    // The verifier accepts the bytes that are answered.
    ensures accepted { IfOk result (λ made. IsAcceptedImage made.image.items) }
    // They are the image of the text that is given, but for its certificates.
    ensures from { IfOk result (λ made. IsMadeOf text.now made.image.items) }
{
    let CertifiedText { text, budgets } = certified(alloc, text, progress)?;
    Ok(MadeImage {
        image: image_of(alloc, text.as_slice())?,
        budgets,
    })
}
