//! Tests of the ways from run to run: whether weights pay for them, and whether marks of a line are kept on them.

ghost use Rattle.std.specs.Prelude.{◌≡◌, option_to_list};
ghost use Rattle.std.specs.List.{list_all};
ghost use Rattle.response.specs.Resting.{marks_for};
ghost use Rattle.responses.specs.Asks.{asked};
ghost use Rattle.responses.specs.Edges.{edge_test_of};
ghost use Rattle.responses.specs.Seen.{edges_pass, leads_so};

use crate::asks::Ask;
use crate::outlines::{Outline, Run};
use crate::weights::{Weights, mark_at};

/// A test of a way from one run to another.
#[derive(Clone, Copy)]
pub(crate) enum EdgeTest<'w> {
    /// The weights pay for it.
    Pays {
        weights: &'w Weights,
        thread: u32,
        budget: u64,
    },
    /// The marks of a line are kept.
    KeepsMarks {
        line: u32,
        marks: &'w [bool],
    },
}

/// Whether marks of a line are kept on a way from a run that asks this.
fn keeps_marks(line: u32, here: bool, next: bool, ask: Ask) -> bool
    ensures { result ≡ marks_for line here next (asked ask) }
{
    match ask {
        Ask::Takes(_) => here && !next,
        Ask::Acknowledges(other) => other == line || here || !next,
        Ask::Polls(_) => here || !next,
        Ask::Rings(_) => here || !next,
        Ask::Accepts { .. } => here || !next,
        Ask::Looks(_) => here || !next,
        Ask::SendsTo(_) => here || !next,
        Ask::Calls(_) => here || !next,
        Ask::Tries(_) => here || !next,
        Ask::Answers => here || !next,
        Ask::Nothing => here || !next,
    }
}

impl EdgeTest<'_> {
    /// Whether a way passes, from a run that asks this to another.
    fn passes(&self, ask: Ask, here: usize, next: usize) -> bool
        ensures { result ≡ edge_test_of self.now (asked ask) here next }
    {
        match *self {
            EdgeTest::Pays {
                weights,
                thread,
                budget,
            } => weights.pay_for(
                budget,
                weights.still(thread, here),
                weights.still(thread, next),
                ask,
            ),
            EdgeTest::KeepsMarks { line, marks } => {
                keeps_marks(line, mark_at(marks, here), mark_at(marks, next), ask)
            }
        }
    }

    /// Whether the way to a run passes, if there is one.
    fn passes_to(&self, ask: Ask, here: usize, way: Option<u32>) -> bool
        ensures { result ≡ list_all (edge_test_of self.now (asked ask) here) (option_to_list way) }
    {
        match way {
            Some(next) => self.passes(ask, here, next as usize),
            None => true,
        }
    }

    /// Whether the ways from a run pass, if they are clear.
    fn holds_from(&self, run: &Run) -> bool
        ensures { result ≡ edges_pass (edge_test_of self.now) run.now }
    {
        if !run.is_clear {
            return false;
        }
        let here = run.place as usize;
        self.passes_to(run.ask, here, run.taken) && self.passes_to(run.ask, here, run.next)
    }

    /// Whether the ways from all runs of a program pass.
    pub(crate) fn holds_for(&self, program: &Outline) -> bool
        ensures { result ≡ leads_so (edge_test_of self.now) program.now }
    {
        program.runs.iter().all(|run| self.holds_from(run))
    }
}
