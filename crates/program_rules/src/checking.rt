//! The programs of all threads, in their order.

ghost use Rattle.model.specs.Acceptance.Accepted.{IsWellFormed};
ghost use Rattle.model.specs.Acceptance.PointRules.{program_rules};
ghost use Rattle.model.specs.Acceptance.Rules.{first_broken};
ghost use Rattle.program_rules.specs.OfPrograms.{rules_given, rules_placed};
ghost use Rattle.typestate.specs.Promises.{AreOfImage};
ghost use Rattle.wellformed.specs.Answering.{Answers};

use crate::point_rules::runs_of;
use crate::programs::Program;
use format_laws::{certificates_that_fit_keep_their_limits, images_that_fit_keep_their_limits};
use image_reading::ImageRef;
use model::{Access, Refusal};
use std::alloc::Global;
use thread_spaces::{
    GivenThread, PlacedImage, PlacedThread, ThreadParts, offsets_of, programs_have_their_places,
    promises_of,
};
use typestate::PlacedPromises;

/// The rules on the program of a thread, by what the image gives the thread.
fn check_given(alloc: Global, given: GivenThread<'_, '_>) -> Result<(), Refusal>
    ensures { Answers (first_broken (rules_given given.entry)) result }
{
    let image = given.space.image;
    let thread = given.space.thread;
    let _ = image.header();
    certificates_that_fit_keep_their_limits();
    programs_have_their_places();
    let loads = runs_of(alloc, image, thread, Access::Load)?;
    let stores = runs_of(alloc, image, thread, Access::Store)?;
    let program = Program {
        given,
        loads: &loads,
        stores: &stores,
        alloc,
    };
    program.check()
}

/// The rules on a thread's program.
fn check_program<'a>(
    alloc: Global,
    promises: &PlacedPromises<'a>,
    owner: PlacedThread<'_, '_, '_, 'a>,
) -> Result<(), Refusal>
    requires { AreOfImage owner.placed.now.image.now promises.now }
    ensures { Answers (first_broken (rules_placed owner.entry)) result }
{
    let parts = ThreadParts::of(alloc, owner)?;
    check_given(alloc, parts.given(promises))
}

/// Whether a well-formed image keeps the rules on programs.
///
/// # Errors
///
/// The first rule that it breaks, of its threads in their order, or that memory was refused.
#[tactic(auto, unfolding(model::specs::Acceptance::PointRules::program_rules))]
pub fn check_programs(alloc: Global, image: &ImageRef<'_>) -> Result<(), Refusal>
    requires formed { IsWellFormed image.now }
    ensures { Answers (first_broken (program_rules image.now)) result }
{
    let _ = image.header();
    images_that_fit_keep_their_limits();
    let offsets = offsets_of(alloc, image)?;
    let placed = PlacedImage {
        image,
        offsets: &offsets,
    };
    let promises = promises_of(alloc, &placed)?;
    let mut number = 0;
    'threads: for thread in image.threads() {
        let owner = PlacedThread {
            placed: &placed,
            number,
            thread: &thread,
        };
        check_program(alloc, &promises, owner)?;
        number += 1;
    }
    Ok(())
}
