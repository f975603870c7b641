//! Changes to slots in one log: the points of a program share those that were made before them.

use std::alloc::{AllocError, Global};
use typestate::LogEntry;

/// Changes from one place of a log to another.
#[derive(Clone, Copy, PartialEq, Eq)]
pub(crate) struct Stretch {
    first: usize,
    end: usize,
    /// The print of the slots that they leave.
    print: u64,
}

/// All changes to slots that are made in a program, of which each point has a stretch.
#[derive(Drop)]
pub(crate) struct StretchLog {
    entries: Vec<LogEntry>,
}

impl Stretch {
    /// No changes.
    pub(crate) const NONE: Stretch = Stretch {
        first: 0,
        end: 0,
        print: 0,
    };

    /// No changes, where this one begins.
    pub(crate) fn none_of(self) -> Stretch {
        Stretch {
            first: self.first,
            end: self.first,
            print: 0,
        }
    }

    /// How many entries of the log are before its end.
    pub(crate) fn end(self) -> usize {
        self.end
    }

    /// What it begins with, up to so many entries of the log.
    pub(crate) fn up_to(self, end: usize) -> Stretch {
        Stretch {
            first: self.first,
            end,
            print: 0,
        }
    }

    /// This one, with the print of the slots that it leaves.
    pub(crate) fn with_print(self, print: u64) -> Stretch {
        Stretch {
            first: self.first,
            end: self.end,
            print,
        }
    }

    /// Whether another one begins with this one.
    pub(crate) fn begins(self, other: Stretch) -> bool {
        self.first == other.first && self.end <= other.end
    }

    /// Whether both leave the same slots, by their prints.
    pub(crate) fn leaves_same(self, other: Stretch) -> bool {
        self.print == other.print
    }

    /// Its last entries, so many.
    pub(crate) fn last(self, count: usize) -> Stretch {
        Stretch {
            first: self.end.saturating_sub(count),
            end: self.end,
            print: 0,
        }
    }
}

impl StretchLog {
    /// No changes.
    pub(crate) fn new(alloc: Global) -> Self {
        StretchLog {
            entries: Vec::new(alloc),
        }
    }

    /// The changes of a stretch.
    pub(crate) fn part(&self, stretch: Stretch) -> &[LogEntry] {
        if stretch.first <= stretch.end && stretch.end <= self.entries.len() {
            &self.entries[stretch.first..stretch.end]
        } else {
            &[]
        }
    }

    /// What follows one stretch up to the end of another one.
    pub(crate) fn between(&self, one: Stretch, other: Stretch) -> &[LogEntry] {
        self.part(Stretch {
            first: one.end,
            end: other.end,
            print: 0,
        })
    }

    /// Appends changes that follow no others, and answers where they are.
    pub(crate) fn begin(&mut self, made: &[LogEntry]) -> Result<Stretch, AllocError> {
        let first = self.entries.len();
        self.entries.extend_from_slice(made)?;
        Ok(Stretch {
            first,
            end: self.entries.len(),
            print: 0,
        })
    }

    /// Appends changes that follow those of a stretch, which is repeated unless it is the last.
    pub(crate) fn follow(
        &mut self,
        held: Stretch,
        made: &[LogEntry],
    ) -> Result<Stretch, AllocError> {
        if held.end == self.entries.len() {
            let made = self.begin(made)?;
            return Ok(Stretch {
                first: held.first,
                end: made.end,
                print: 0,
            });
        }
        let first = self.entries.len();
        if held.first <= held.end && held.end <= first {
            self.entries.extend_from_within(held.first..held.end)?;
        }
        let made = self.begin(made)?;
        Ok(Stretch {
            first,
            end: made.end,
            print: 0,
        })
    }
}
