//! Threads without records, which get certificates.

ghost use Rattle.std.specs.Prelude.{◌≡◌, []};

use crate::Effort;
use std::alloc::Global;
use thread_spaces::GivenThread;

/// A thread whose certificate has no records, with what the image gives it.
#[derive(Clone, Copy)]
pub(crate) struct BareThread<'a, 's> {
    pub(crate) given: GivenThread<'a, 's>,
    pub(crate) effort: Effort,
    pub(crate) alloc: Global,
    ghost bare: { given.space.thread.now.records ≡ [] },
}
