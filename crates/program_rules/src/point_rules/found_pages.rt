//! Pages that were found mapped while the slots were those of one part of the log.

ghost use Rattle.std.specs.Prelude.{ℕ, ◌≡◌, List};
ghost use Rattle.model.specs.Acceptance.NotedStates.{NotedSlot};
ghost use Rattle.model.specs.Images.Image.{Image, Thread};
ghost use Rattle.program_rules.specs.FoundPages.{AreFound};
ghost use Rattle.typestate.specs.Logs.{Holds};
ghost use Rattle.typestate.specs.declared.log_entries.LogEntry.{LogEntry};

use crate::point_rules::FoundRuns;
use std::alloc::Global;
use typestate::Part;

/// The pages that loads and stores were found to reach, where the slots are those of a part of the log. They are not asked again, as
/// where one load after another lies in the same pages.
#[derive(Drop)]
pub struct FoundPages {
    pub part: Part,
    pub loads: FoundRuns,
    pub stores: FoundRuns,
}

impl FoundPages {
    /// None so far.
    pub fn new(alloc: Global) -> Self
        ensures { (image : Image) (t : Thread) (slots : List NotedSlot) (log : List LogEntry) → AreFound image t slots log result }
    {
        FoundPages {
            part: Part { first: 0, end: 0 },
            loads: FoundRuns::new(alloc),
            stores: FoundRuns::new(alloc),
        }
    }

    /// Goes on to a point whose slots are those of a part. What was found with others is forgotten.
    pub fn go_on(&mut self, part: Part)
        ensures part { self.new.part ≡ part }
        ensures found { (image : Image) (t : Thread) (slots : List NotedSlot) (log : List LogEntry) → Holds log part → AreFound image t slots log self.old
            → AreFound image t slots log self.new }
    {
        if !self.part.is_same(part) {
            self.part = part;
            self.loads.clear();
            self.stores.clear();
        }
    }
}
