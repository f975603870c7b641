//! What a thread may reach at a point.

ghost use Rattle.std.specs.Prelude.{◌≡◌};
ghost use Rattle.std.specs.List.{list_any};
ghost use Rattle.model.specs.Acceptance.PointRules.{is_mapped_for, maps_for};
ghost use Rattle.model.specs.Images.Places.{offset_of};
ghost use Rattle.model.specs.declared.instructions.Access.TheVariants as accesses;
ghost use Rattle.program_rules.specs.point_rules.Runs.{AreRuns};
ghost use Rattle.ranges.specs.Orders.{IsOrdered};
ghost use Rattle.typestate.specs.Differences.{slots_of};

use crate::point_rules::{FoundRuns, PageRun};
use image_reading::{ImageRef, ThreadRef};
use model::{Access, AccessSize, Range};
use typestate::NotedSlots;

/// The pages that a thread may reach at a point: those that the image maps, and those that frames in its slots map.
#[derive(Clone, Copy)]
pub(crate) struct Pages<'p, 'i> {
    pub(crate) image: &'p ImageRef<'i>,
    pub(crate) thread: &'p ThreadRef<'i>,
    /// Where the thread's root table is.
    pub(crate) root: u32,
    pub(crate) slots: NotedSlots<'p>,
    /// The pages that the image maps for loads, and those for stores.
    pub(crate) loads: &'p [PageRun],
    pub(crate) stores: &'p [PageRun],
    ghost rooted: { root ≡ offset_of image.now thread.now.header.root },
    ghost loaded: { AreRuns (λ page. list_any (maps_for accesses.Load thread.now page) image.now.frames) loads.now },
    ghost stored: { AreRuns (λ page. list_any (maps_for accesses.Store thread.now page) image.now.frames) stores.now },
}

/// The same for accesses of one kind, with pages that were found mapped for these.
#[derive(Clone, Copy)]
pub(crate) struct AccessPages<'q, 'f, 'p, 'i> {
    pub(crate) pages: &'q Pages<'p, 'i>,
    pub(crate) access: Access,
    pub(crate) found: &'f FoundRuns,
    ghost mapped: { AreRuns (is_mapped_for pages.now.image.now pages.now.thread.now (slots_of pages.now.slots) access) found.now },
}

/// The bytes that a load or store may reach: so many from each address in a range, and this offset after it.
#[derive(Clone, Copy)]
pub(crate) struct ReachedBytes {
    pub(crate) size: AccessSize,
    pub(crate) range: Range,
    pub(crate) offset: i32,
    ghost ordered: { IsOrdered range },
}
