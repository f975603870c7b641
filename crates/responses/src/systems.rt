//! The threads and lines of an accepted image, as the test of a response reads them.

ghost use Rattle.std.specs.Prelude.{◌≡◌, IfErr, IfOk, map, true};
ghost use Rattle.model.specs.declared.refusals.Refusal.TheVariants.{OutOfMemory};
ghost use Rattle.responses.specs.Bounds.{IsTested};
ghost use Rattle.responses.specs.Found.{rate_of};

use crate::answers::answers_in;
use crate::bounds::Numbers;
use crate::checks::{Claim, Sums};
use crate::keepers::{Keeper, keepers_of};
use crate::lines::{Bell, bells_of};
use crate::outlines::{Outline, outlines_of};
use crate::sums::{costs_within, left_at_start};
use crate::threads::Threads;
use answering::Answered;
use headline::starts::threads_are_as_listed;
use image_reading::ImageRef;
use model::Refusal;
use std::alloc::Global;
use std::marker::Model;
use thread_spaces::{PlacedImage, offsets_of, programs_have_their_places};
use verify::Accepted;

/// The threads of an accepted image with what their programs ask, and what its lines signal. A clause sees the image.
#[derive(Drop)]
pub struct Levels<'i, 'a> {
    pub(crate) image: &'i ImageRef<'a>,
    pub(crate) programs: Vec<Outline>,
    pub(crate) bells: Vec<Option<Bell>>,
    /// Who keeps each line.
    pub(crate) keepers: Vec<Option<Keeper>>,
    /// Of each thread, by its number: the badges that it answers.
    pub(crate) answers: Vec<Answered>,
    pub(crate) threads: Threads,
    /// Of each object, by its number.
    pub(crate) offsets: Vec<u32>,
}

impl<'i, 'a> Model for Levels<'i, 'a> {
    ghost use Rattle.std.specs.Prelude.{◌≡◌, true};
    ghost use Rattle.model.specs.Acceptance.Accepted.{IsWellFormed};
    ghost use Rattle.model.specs.Images.Image.{Image, whole_image};
    ghost use Rattle.answering.specs.Answers.{AreAnswers};
    ghost use Rattle.responses.specs.Keepers.{AreKeepers};
    ghost use Rattle.responses.specs.Lines.{AreBells};
    ghost use Rattle.responses.specs.Outlines.{AreOutlines};

    ghost Value = { Image };

    ghost view = { λ l. l.image.now };

    ghost invariant = { λ l. IsWellFormed l.image.now × (whole_image.fits l.image.now ≡ true)
        × AreOutlines l.image.now 0 l.image.now.threads l.programs.items × AreBells l.image.now l.bells.items
        × AreKeepers l.programs.items l.bells.items l.keepers.items × AreAnswers l.image.now l.answers.items };
}

/// The threads and lines of an accepted image. It takes time as its verification does.
///
/// # Errors
///
/// Memory may be refused.
pub fn levels_of<'i, 'a>(
    alloc: Global,
    accepted: &'i Accepted<'a>,
) -> Result<Levels<'i, 'a>, Refusal>
    ensures image { IfOk result (λ image. image ≡ accepted.now) }
    ensures memory { IfErr result (λ refusal. refusal ≡ OutOfMemory) }
{
    let image = accepted.image();
    let programs = outlines_of(alloc, image)?;
    let offsets = offsets_of(alloc, image)?;
    let placed = PlacedImage {
        image,
        offsets: &offsets,
    };
    let bells = bells_of(alloc, &placed)?;
    let keepers = keepers_of(alloc, programs.as_slice(), bells.as_slice())?;
    let answers = answers_in(alloc, accepted, programs.as_slice())?;
    let threads = Threads::of(alloc, programs.as_slice(), answers.as_slice())?;
    Ok(Levels {
        image,
        programs,
        bells,
        keepers,
        answers,
        threads,
        offsets,
    })
}

impl Levels<'_, '_> {
    /// Whether what is claimed passes the test with these numbers, from the start and once the level has rested.
    pub(crate) fn pass(&self, claim: &Claim<'_>, numbers: &Numbers) -> bool
        ensures { result ≡ true → IsTested self.now claim.now.priority (map rate_of claim.now.rates.now) claim.now.settled.now.inputs.items
            claim.now.lines.now claim.now.tended.now numbers.now.steps numbers.now.later }
    {
        threads_are_as_listed();
        programs_have_their_places();
        let programs = self.programs.as_slice();
        let bells = self.bells.as_slice();
        let keepers = self.keepers.as_slice();
        let Some(rest) = claim.rest(programs, bells) else {
            return false;
        };
        let Some(first_costs) = costs_within(claim.weights, bells, claim.rates, numbers.steps)
        else {
            return false;
        };
        let Some(costs) = costs_within(claim.weights, bells, claim.rates, numbers.later) else {
            return false;
        };
        let Some(left) = left_at_start(claim.weights, claim.priority, programs) else {
            return false;
        };
        if !claim.is_acknowledged(programs, keepers) {
            return false;
        }
        if !claim.is_paid(programs, keepers, self.answers.as_slice()) {
            return false;
        }
        let first = Sums {
            rest,
            costs: first_costs,
        };
        if !claim.fits(
            programs,
            bells,
            &first,
            numbers.most_at_first,
            numbers.steps,
        ) {
            return false;
        }
        let rested = Sums { rest, costs };
        if !claim.fits(
            programs,
            bells,
            &rested,
            numbers.most_at_rest,
            numbers.later,
        ) {
            return false;
        }
        left <= numbers.most_at_first
    }
}
