//! How long a thread runs from one wait to the next.

ghost use Rattle.headline.specs.SafeRuns.{StandingThreadsKeepTheirBudgets};

use crate::measure_facts::{least_values_are_least, measures_of_points_name_registers};

/// Where the threads' invariant holds throughout, no stretch of a thread, from wait to wait, is longer than its budget.
pub fn standing_threads_keep_their_budgets()
    ensures { StandingThreadsKeepTheirBudgets }
{
    least_values_are_least();
    measures_of_points_name_registers();
}
