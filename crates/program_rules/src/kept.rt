//! What is kept of a point.

ghost use Rattle.std.specs.Prelude.{◌≡◌, IfOk};
ghost use Rattle.program_rules.specs.Kept.{HasPart, ShowsKept, is_known};
ghost use Rattle.typestate.specs.Logs.{ShowsSome};

use crate::at_points::AtPoint;
use measure::Measure;
use ranges::Bounds;
use std::alloc::AllocError;
use typestate::{Part, ShownPart, SlotLog};

/// A state: its slots are the image's with a part of a log of changes made.
#[derive(Clone, Copy)]
pub(crate) struct Known {
    pub(crate) bounds: Bounds,
    pub(crate) measure: Measure,
    pub(crate) part: Part,
    /// Whether it is known that no slot is one that the thread may not have.
    pub(crate) is_clean: bool,
}

impl AtPoint<Known> {
    /// Whether a state is noted.
    pub(crate) fn has_state(&self) -> bool
        ensures { result ≡ is_known self.now }
    {
        matches!(self, AtPoint::Known(_))
    }

    /// Whether the part of its state is empty: its slots are those that the image lists.
    pub(crate) fn has_empty_part(&self) -> bool {
        match self {
            AtPoint::Known(known) => known.part.first == known.part.end,
            AtPoint::Missing | AtPoint::Unmeasured => false,
        }
    }

    /// Whether its state has a part of which one that is shown has more than another one.
    pub(crate) fn is_more_of(&self, one: &ShownPart, other: &ShownPart) -> bool {
        match self {
            AtPoint::Known(known) => one.has_more_of(known.part, other),
            AtPoint::Missing | AtPoint::Unmeasured => false,
        }
    }

    /// Shows the part of its state, if it has one, in place of another one of this log. Memory may be refused.
    pub(crate) fn show(&self, log: &SlotLog, shown: &mut ShownPart) -> Result<(), AllocError>
        requires held { HasPart log.now self.now }
        requires old { ShowsSome log.now shown.old }
        ensures some { IfOk result (λ _. ShowsSome log.now shown.new) }
        ensures own { IfOk result (λ _. ShowsKept log.now shown.new self.now) }
    {
        match self {
            AtPoint::Known(known) => log.show(shown, known.part),
            AtPoint::Missing | AtPoint::Unmeasured => Ok(()),
        }
    }
}
