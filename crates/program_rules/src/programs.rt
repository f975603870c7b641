//! The program of a thread, with what a well-formed image gives the thread.

ghost use Rattle.std.specs.Prelude.{◌≡◌, ◌+◌, ◌*◌, ◌^◌, ◌<◌, ◌≤◌};
ghost use Rattle.std.specs.List.{list_any};
ghost use Rattle.format_laws.specs.Fitting.{CertificateFits};
ghost use Rattle.model.specs.Acceptance.PointRules.{maps_for};
ghost use Rattle.model.specs.declared.instructions.Access.TheVariants as accesses;
ghost use Rattle.program_rules.specs.point_rules.Runs.{AreRuns};

use crate::point_rules::PageRun;
use std::alloc::Global;
use thread_spaces::GivenThread;

/// The program of a thread of a well-formed image, with what the image gives the thread.
#[derive(Clone, Copy)]
pub(crate) struct Program<'a, 's> {
    pub(crate) given: GivenThread<'a, 's>,
    /// The pages that the image maps for loads, and those for stores. They are the same at each point.
    pub(crate) loads: &'s [PageRun],
    pub(crate) stores: &'s [PageRun],
    /// For the lists of slots that calls change.
    pub(crate) alloc: Global,
    ghost loaded: { AreRuns (λ page. list_any (maps_for accesses.Load given.space.thread.now page) given.space.image.now.frames) loads.now },
    ghost stored: { AreRuns (λ page. list_any (maps_for accesses.Store given.space.thread.now page) given.space.image.now.frames) stores.now },
    ghost fits: { CertificateFits given.space.thread.now },
    // Its words lie in memory.
    ghost inside: { given.space.thread.now.header.base + 4 * given.space.thread.now.header.words ≤ 2 ^ 31 },
    ghost entry: { given.space.thread.now.header.entry < given.space.thread.now.header.words },
}
