//! Well-formed images.

ghost use Rattle.std.specs.Prelude.{◌≡◌, ◌⊎◌, IfErr, OnOk, Some};
ghost use Rattle.model.specs.Acceptance.Accepted.{IsWellFormed, first_in, phases};
ghost use Rattle.model.specs.declared.refusals.Refusal.TheVariants.{OutOfMemory};
ghost use Rattle.wellformed.specs.Answering.{Answers, form_rules};

use crate::capabilities::check_capabilities;
use crate::mappings::check_mappings;
use crate::number_sets::NumberSet;
use crate::objects::check_objects;
use crate::threads::check_threads;
use image_reading::ImageRef;
use model::Refusal;
use std::alloc::Global;

/// The rules, phase after phase.
fn check_phases(alloc: Global, image: &ImageRef<'_>) -> Result<(), Refusal>
    ensures { Answers (first_in (form_rules image.now)) result }
{
    let mut sources = NumberSet::new(alloc);
    check_objects(image)?;
    check_capabilities(image, &mut sources)?;
    check_mappings(alloc, image, &sources)?;
    check_threads(alloc, image)
}

/// Whether the image is well formed: whether its untypeds, objects, capabilities, mappings and threads keep their rules,
/// before any program is looked at.
///
/// # Errors
///
/// The first rule that is broken, phase after phase, or that memory was refused.
pub fn well_formed(alloc: Global, image: &ImageRef<'_>) -> Result<(), Refusal>
    // No rule is broken.
    ensures formed { OnOk result (IsWellFormed image.now) }
    // What is refused is refused for the first rule that is broken, if memory is not refused.
    ensures refused { IfErr result (λ refusal. (refusal ≡ OutOfMemory) ⊎ (first_in (form_rules image.now) ≡ Some refusal)) }
    // That is the first breach of all rules on the image, those on programs with them.
    ensures first { IfErr result (λ refusal. (refusal ≡ OutOfMemory) ⊎ (first_in (phases image.now) ≡ Some refusal)) }
    // What is well formed is refused as out of memory alone.
    ensures complete { IsWellFormed image.now → IfErr result (λ refusal. refusal ≡ OutOfMemory) }
{
    check_phases(alloc, image)
}
