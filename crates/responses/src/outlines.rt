//! What the programs of an image ask of others, by runs. The points of a run ask the same and lead to the same runs, or ask nothing and stay in it. What is
//! so of a run is so of all its points, and there are as few as there are things to ask in different ways.

ghost use Rattle.std.specs.Prelude.{◌≡◌, IfErr, IfOk};
ghost use Rattle.model.specs.Acceptance.Accepted.{IsWellFormed};
ghost use Rattle.model.specs.declared.refusals.Refusal.TheVariants.{OutOfMemory};
ghost use Rattle.responses.specs.Outlines.{AreOutlines, IsOutlineOf, next_of, place_at};

use crate::asks::Ask;
use crate::kinds::draft_of;
use crate::spans::{Span, run_at, spans_of};
use format_laws::images_that_fit_keep_their_limits;
use image_reading::ImageRef;
use model::{Refusal, ThreadHeader};
use program_rules::{ProgramView, view_of};
use std::alloc::{AllocError, Global};
use thread_spaces::{PlacedImage, PlacedThread, offsets_of, promises_of};

/// A run: what is asked there, and where the ways from there lead.
#[derive(Clone, Copy)]
pub(crate) struct Run {
    /// One of its points, which asks that.
    pub(crate) point: u32,
    /// Its place among the runs of the program.
    pub(crate) place: u32,
    /// Whether that is known.
    pub(crate) is_clear: bool,
    pub(crate) ask: Ask,
    /// The badge of the capability that is named there, if one is.
    pub(crate) badge: u32,
    /// The run to which a jump or a branch leads, if it may go there.
    pub(crate) taken: Option<u32>,
    /// The run of the next instruction, if the way may go on there.
    pub(crate) next: Option<u32>,
}

/// A thread, and the runs of its program.
#[derive(Drop)]
pub(crate) struct Outline {
    /// Which of the image's threads it is, from 0 on.
    pub(crate) number: u32,
    pub(crate) header: ThreadHeader,
    /// The offset of its control block from the start of physical memory.
    pub(crate) tcb: u32,
    pub(crate) runs: Vec<Run>,
    /// Which points are of which run.
    pub(crate) spans: Vec<Span>,
}

impl Run {
    /// The place of the run to which the way on leads, if there is one.
    pub(crate) fn next_place(&self) -> usize
        ensures { result ≡ next_of self.now }
    {
        match self.next {
            Some(place) => place as usize,
            None => 0,
        }
    }
}

impl Outline {
    /// The run of a point, by its place.
    pub(crate) fn place(&self, point: u32) -> usize
        ensures { result ≡ place_at self.now point }
    {
        run_at(self.spans.as_slice(), point) as usize
    }

    /// That of a thread with these runs.
    fn with(view: &ProgramView, runs: Vec<Run>, spans: Vec<Span>) -> Self
        ensures number { result.number ≡ view.now.number }
        ensures header { result.header ≡ view.now.header }
        ensures tcb { result.tcb ≡ view.now.tcb }
        ensures runs { result.runs.items ≡ runs.items }
        ensures spans { result.spans.items ≡ spans.items }
    {
        Outline {
            number: view.number,
            header: view.header,
            tcb: view.tcb,
            runs,
            spans,
        }
    }

    /// One of which nothing is known.
    fn unclear(alloc: Global, view: &ProgramView) -> Result<Self, AllocError>
        ensures { IfOk result (IsOutlineOf view.now) }
    {
        let mut runs = Vec::new(alloc);
        runs.push(Run {
            point: 0,
            place: 0,
            is_clear: false,
            ask: Ask::Nothing,
            badge: 0,
            taken: None,
            next: None,
        })?;
        Ok(Outline::with(view, runs, Vec::new(alloc)))
    }

    /// That of a thread and its program, by what is seen of them.
    fn of(alloc: Global, view: &ProgramView) -> Result<Self, AllocError>
        ensures { IfOk result (IsOutlineOf view.now) }
    {
        let base = view.header.base;
        let draft = draft_of(alloc, base, &view.points)?;
        if !draft.fits(base, &view.points) {
            return Outline::unclear(alloc, view);
        }
        let spans = spans_of(alloc, draft.places.as_slice())?;
        Ok(Outline::with(view, draft.runs, spans))
    }
}

/// What the threads of a well-formed image ask of others, in their order.
pub(crate) fn outlines_of(alloc: Global, image: &ImageRef<'_>) -> Result<Vec<Outline>, Refusal>
    requires { IsWellFormed image.now }
    ensures outlines { IfOk result (λ outlines. AreOutlines image.now 0 image.now.threads outlines.items) }
    ensures memory { IfErr result (λ refusal. refusal ≡ OutOfMemory) }
{
    let _ = image.header();
    images_that_fit_keep_their_limits();
    let offsets = offsets_of(alloc, image)?;
    let placed = PlacedImage {
        image,
        offsets: &offsets,
    };
    let promises = promises_of(alloc, &placed)?;
    let mut number = 0;
    let mut outlines = Vec::new(alloc);
    'threads: for thread in image.threads() {
        let owner = PlacedThread {
            placed: &placed,
            number,
            thread: &thread,
        };
        let view = view_of(alloc, &promises, owner)?;
        outlines.push(Outline::of(alloc, &view)?)?;
        number += 1;
    }
    Ok(outlines)
}
