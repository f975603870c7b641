//! Accepted images.

ghost use Rattle.std.specs.Prelude.{◌≡◌, ◌⊎◌, Err, IfErr, IfOk, Ok, OnOk, Some, true};
ghost use Rattle.model.specs.Acceptance.Accepted.{AreKept, IsAccepted, IsWellFormed, first_breach, first_in, phases};
ghost use Rattle.model.specs.Acceptance.PointRules.{program_rules};
ghost use Rattle.model.specs.Images.Format.{reading};
ghost use Rattle.model.specs.Images.Image.{Image, whole_image};
ghost use Rattle.model.specs.declared.refusals.Refusal.TheVariants.{OutOfMemory};
ghost use Rattle.verify.specs.Threads.{AllStandAtFirst, EventsGoWell, PlainStepsAreKept, ThreadsStart};

use headline::events_keep_all_standing;
use headline::kept::all_stand_at_the_start;
use headline::starts::threads_start_as_certified;
use headline::steps::plain_steps_keep_threads;
use image_reading::{ImageRef, read};
use model::Refusal;
use program_rules::check_programs;
use std::alloc::Global;
use std::marker::Model;
use wellformed::well_formed;

/// An image that the verifier accepted, lent from the bytes that it verified.
#[derive(Drop)]
pub struct Accepted<'a> {
    image: ImageRef<'a>,
}

impl<'a> Model for Accepted<'a> {
    ghost use Rattle.std.specs.Prelude.{◌≡◌, true};
    ghost use Rattle.model.specs.Acceptance.Accepted.{AreKept, IsWellFormed};
    ghost use Rattle.model.specs.Acceptance.PointRules.{program_rules};
    ghost use Rattle.model.specs.Images.Image.{Image, whole_image};

    ghost Value = { Image };

    ghost view = { λ a. a.image };

    ghost invariant = { λ a. IsWellFormed a.image × (whole_image.fits a.image ≡ true) × AreKept (program_rules a.image) };
}

impl<'a> Accepted<'a> {
    /// The image.
    pub fn image(&self) -> &ImageRef<'a>
        ensures value { result.now ≡ self.now }
        // It fits the format of images, and its sections keep the rules of acceptance.
        ensures fits { whole_image.fits self.now ≡ true }
        ensures formed { IsWellFormed self.now }
        ensures programs { AreKept (program_rules self.now) }
    {
        &self.image
    }
}

/// Whether the image may be started: `Ok` lends the very bytes that were verified.
///
/// # Errors
///
/// The first rule that is broken, or that memory was refused.
pub fn verify(alloc: Global, bytes: &[u8]) -> Result<Accepted<'_>, Refusal>
    // The image that the bytes spell is accepted: no rule of acceptance is broken.
    ensures accepted { IfOk result (λ image. IsAccepted bytes.now image) }
    // It is what reading gives.
    ensures read { IfOk result (λ image. reading whole_image bytes.now ≡ Ok image) }
    // What is refused is refused for its first breach, if memory is not refused.
    ensures refused { IfErr result (λ refusal. (refusal ≡ OutOfMemory) ⊎ (first_breach bytes.now ≡ Some refusal)) }
    // What the rules accept is accepted, if memory is not refused.
    ensures complete { (image : Image) → IsAccepted bytes.now image → IfErr result (λ refusal. refusal ≡ OutOfMemory) }
    // In the state that the image describes each thread is as its certificate says.
    ensures starts { IfOk result ThreadsStart }
    // So it is after a step of its own that reaches no system call, and the step does not fault.
    ensures steps { IfOk result PlainStepsAreKept }
    // In that state the threads' invariant holds, and they wait for what they asked.
    ensures stands { IfOk result AllStandAtFirst }
    // Where the threads' invariant holds, whatever happens next goes well: a step is no fault and no error, whoever
    // runs and whatever it calls, and after a step, a tick, an interrupt, and a write or a look of the world in a device
    // page, the invariant holds again.
    ensures events { IfOk result EventsGoWell }
    // What cannot be read is refused for the first reason, and takes no memory.
    ensures unread { IfErr (reading whole_image bytes.now) (λ refusal. result ≡ Err refusal) }
{
    let image = read(bytes)?;
    check(alloc, &image)?;
    threads_start_as_certified();
    plain_steps_keep_threads();
    all_stand_at_the_start();
    events_keep_all_standing();
    Ok(Accepted { image })
}

/// The rules on an image that was read, phase after phase.
fn check(alloc: Global, image: &ImageRef<'_>) -> Result<(), Refusal>
    // No rule is broken.
    ensures formed { OnOk result (IsWellFormed image.now) }
    ensures programs { OnOk result (AreKept (program_rules image.now)) }
    // What is refused is refused for its first breach, if memory is not refused.
    ensures refused { IfErr result (λ refusal. (refusal ≡ OutOfMemory) ⊎ (first_in (phases image.now) ≡ Some refusal)) }
{
    well_formed(alloc, image)?;
    check_programs(alloc, image)
}
