//! What goes along from point to point while the rules on them are checked.

ghost use Rattle.std.specs.Prelude.{List};
ghost use Rattle.model.specs.Acceptance.NotedStates.{NotedSlot};
ghost use Rattle.model.specs.Images.Image.{Image, Thread};
ghost use Rattle.part_roots.specs.Rooted.{AreRooted};
ghost use Rattle.program_rules.specs.Walks.{GoesAlong};
ghost use Rattle.typestate.specs.Logs.{ShowsSome};
ghost use Rattle.typestate.specs.declared.log_entries.LogEntry.{LogEntry};

use crate::at_points::AtPoint;
use crate::kept::Known;
use crate::point_rules::FoundPages;
use part_roots::PartRoots;
use std::alloc::Global;
use std::mem::swap;
use typestate::ShownPart;

/// Shows another part that was set aside, if it is asked for, and sets aside what was shown.
fn turn(is_asked: bool, shown: &mut ShownPart, aside: &mut ShownPart)
    ensures shown { (log : List LogEntry) → ShowsSome log shown.old → ShowsSome log aside.old → ShowsSome log shown.new }
    ensures aside { (log : List LogEntry) → ShowsSome log shown.old → ShowsSome log aside.old → ShowsSome log aside.new }
{
    if is_asked {
        swap(shown, aside);
    }
}

/// What is shown of the slots of a point, and what was found with those of the points before.
#[derive(Drop)]
pub(crate) struct Walk {
    /// What is shown of the slots.
    pub(crate) shown: ShownPart,
    /// What was set aside: what was shown before a point with an empty part, or that part.
    pub(crate) aside: ShownPart,
    was_empty: bool,
    /// What was left of showing the points before.
    pub(crate) left: ShownPart,
    pub(crate) roots: PartRoots,
    pub(crate) found: FoundPages,
}

impl Walk {
    /// Nothing is shown or found so far, this was left, and these are the roots of parts.
    pub(crate) fn new(alloc: Global, left: ShownPart, roots: PartRoots) -> Self
        ensures { (image : Image) (t : Thread) (slots : List NotedSlot) (log : List LogEntry) → ShowsSome log left → AreRooted slots log roots
            → GoesAlong image t slots log result }
    {
        Walk {
            shown: ShownPart::new(alloc),
            aside: ShownPart::new(alloc),
            was_empty: false,
            left,
            roots,
            found: FoundPages::new(alloc),
        }
    }

    /// Goes on to a point of which this is kept. What is shown of the slots is set aside where its part is empty, and is gone on from
    /// after it; and what was left of showing the points before is taken where its part begins with it, so that it is not shown again.
    pub(crate) fn turn_to(&mut self, kept: &AtPoint<Known>)
        ensures { (image : Image) (t : Thread) (slots : List NotedSlot) (log : List LogEntry) → GoesAlong image t slots log self.old
            → GoesAlong image t slots log self.new }
    {
        let is_empty = kept.has_empty_part();
        turn(is_empty != self.was_empty, &mut self.shown, &mut self.aside);
        self.was_empty = is_empty;
        let is_more = kept.is_more_of(&self.left, &self.shown);
        turn(is_more, &mut self.shown, &mut self.left);
    }
}
