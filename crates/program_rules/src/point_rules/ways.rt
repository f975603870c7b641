//! The ways on from a point.

ghost use Rattle.std.specs.Prelude.{ℕ, ◌≡◌, List};
ghost use Rattle.std.specs.Result.{result_err};
ghost use Rattle.measure.specs.Measures.{measure_of};
ghost use Rattle.model.specs.Acceptance.NotedStates.{NotedSlot, are_same_slots};
ghost use Rattle.model.specs.Acceptance.PointRules.{are_ranges_within, kept_at};
ghost use Rattle.model.specs.Acceptance.Rules.{first_broken};
ghost use Rattle.model.specs.Images.Image.{Thread};
ghost use Rattle.program_rules.specs.point_rules.Points.{edge_of, known_of};

use crate::kept::Known;
use measure::{Measure, Step, falls, stays_below};
use model::{Point, Refusal};
use ranges::Bounds;

/// A way on from a point: the point and its measure, what is known of the registers before the way and after it, and whether the
/// budget is there anew.
#[derive(Clone, Copy)]
pub struct Way<'s> {
    pub at: Point,
    pub measure: &'s Measure,
    pub before: &'s Bounds,
    pub behind: &'s Bounds,
    pub is_wait: bool,
}

/// Whether each register's range lies within that of others.
fn are_within(bounds: &Bounds, others: &Bounds) -> bool
    ensures { result ≡ are_ranges_within bounds.now others.now }
{
    bounds.is_within(others)
}

/// Whether a way on keeps the point with a state that it leads to, if it is known whether that has the slots that the way leaves.
///
/// # Errors
///
/// The first rule that it breaks: the ranges are kept (`RangeNotKept`), the slots are the same (`CapNotThere`), and the
/// measure falls (`MeasureNotFalling`), or is within the budget after a wait (`OverBudget`).
pub(crate) fn kept_at<S: Step>(
    budget: u64,
    way: &Way<'_>,
    step: &S,
    target: &Known,
    has_slots: bool,
) -> Result<(), Refusal>
    ensures { (t : Thread) (address : ℕ) (here there : List NotedSlot) → t.header.budget ≡ budget → has_slots ≡ are_same_slots here there
        → result_err result ≡ first_broken (kept_at t way.now.at (measure_of way.now.measure.now) (edge_of address (S.value_of step.now) here way.now)
        (known_of there target.now)) }
{
    let at = way.at;
    if !are_within(way.behind, &target.bounds) {
        return Err(Refusal::RangeNotKept(at));
    }
    if !has_slots {
        return Err(Refusal::CapNotThere(at));
    }
    if way.is_wait {
        if !stays_below(budget, &target.measure, step, way.before, way.behind) {
            return Err(Refusal::OverBudget(at));
        }
    } else if !falls(way.measure, &target.measure, step, way.before, way.behind) {
        return Err(Refusal::MeasureNotFalling(at));
    }
    Ok(())
}
