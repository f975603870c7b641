//! Runs of pages that were found to pass a test.

ghost use Rattle.std.specs.Prelude.{ℕ, ◌≡◌, ◌<◌, ◌≤◌, Bool, IfOk, true};
ghost use Rattle.program_rules.specs.point_rules.Runs.{AreRuns, IsRun};

use crate::point_rules::listed_pages::{PageRun, run_end};
use std::alloc::{AllocError, Global};
use std::marker::Model;

/// Pages that were found to pass a test, run by run in their order. A clause sees the list of runs.
#[derive(Drop)]
pub struct FoundRuns {
    alloc: Global,
    runs: Vec<PageRun>,
}

impl Model for FoundRuns {
    ghost use Rattle.std.specs.Prelude.{List};
    ghost use Rattle.program_rules.specs.declared.point_rules.listed_pages.PageRun.{PageRun};

    ghost Value = { List PageRun };

    ghost view = { λ found. found.runs.items };
}

/// Two runs as one, where neither ends before the other begins: else the first alone.
fn joined(run: PageRun, other: PageRun) -> PageRun
    ensures { (test : ℕ → Bool) → IsRun test run → IsRun test other → IsRun test result }
{
    if run.end < other.first || other.end < run.first {
        return run;
    }
    PageRun {
        first: run.first.min(other.first),
        end: run.end.max(other.end),
    }
}

/// A run with that of others at a place, if it touches that.
fn joined_at(run: PageRun, runs: &[PageRun], place: usize) -> PageRun
    ensures { (test : ℕ → Bool) → IsRun test run → AreRuns test runs.now → IsRun test result }
{
    if place < runs.len() {
        joined(run, runs[place])
    } else {
        run
    }
}

/// Runs in their order with one more: those that it touches are one with it. Memory may be refused.
fn with_run(alloc: Global, runs: &[PageRun], run: PageRun) -> Result<Vec<PageRun>, AllocError>
    ensures { IfOk result (λ all. (test : ℕ → Bool) → AreRuns test runs.now → IsRun test run → AreRuns test all.items) }
{
    let place = runs.partition_point(|known| known.end < run.first);
    let later = runs.partition_point(|known| known.first <= run.end);
    let longer = joined_at(joined_at(run, runs, place), runs, later.saturating_sub(1));
    let mut all = Vec::new(alloc);
    all.extend_from_slice(&runs[..place])?;
    all.push(longer)?;
    all.extend_from_slice(&runs[later..])?;
    Ok(all)
}

impl FoundRuns {
    /// None so far.
    pub fn new(alloc: Global) -> Self
        ensures { (test : ℕ → Bool) → AreRuns test result }
    {
        FoundRuns {
            alloc,
            runs: Vec::new(alloc),
        }
    }

    /// Forgets all.
    pub fn clear(&mut self)
        ensures { (test : ℕ → Bool) → AreRuns test self.new }
    {
        self.runs.clear();
    }

    /// Where the run ends that a page lies in: at the page itself, where none has it.
    pub fn end(&self, page: u32) -> u32
        ensures { (test : ℕ → Bool) → AreRuns test self.now → (p : ℕ) → page ≤ p → p < result → test p ≡ true }
    {
        run_end(&self.runs, page)
    }

    /// Notes a run. Where memory is refused it is not noted, and its pages are asked again.
    pub fn note(&mut self, run: PageRun)
        ensures { (test : ℕ → Bool) → AreRuns test self.old → IsRun test run → AreRuns test self.new }
    {
        if run.end <= self.end(run.first) {
            return;
        }
        if let Ok(runs) = with_run(self.alloc, &self.runs, run) {
            self.runs = runs;
        }
    }
}
