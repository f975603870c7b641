//! What is true of the rules on ways. Each law is the contract of a function that does nothing.

ghost use Rattle.std.specs.Prelude.{ℕ, ◌≡◌, None, Some};
ghost use Rattle.model.specs.Acceptance.CallRules.{AfterCall};
ghost use Rattle.model.specs.Acceptance.Edges.{Edge};
ghost use Rattle.model.specs.Acceptance.NotedStates.{PointState};
ghost use Rattle.model.specs.Acceptance.PointRules.{call_edge, edge_rules, program_edge};
ghost use Rattle.model.specs.Acceptance.PointStates.{Known, behind_call, follows_edge};
ghost use Rattle.model.specs.Acceptance.Rules.{first_broken};
ghost use Rattle.model.specs.Images.Image.{Thread};
ghost use Rattle.model.specs.declared.instructions.Instr.{Instr};
ghost use Rattle.model.specs.declared.refusals.Point.{Point};

use measure::{budgets_stay_below, measures_fall_behind_calls, unwritten_measures_fall};

/// A way that leads to the very state that its instruction leaves keeps the rules on ways.
pub fn left_states_are_kept()
    ensures { (t : Thread) (at : Point) (instr : Instr) (state next : PointState) (edge : Edge) → follows_edge instr state (Some edge) ≡ Known next
        → first_broken (edge_rules t at state.measure (program_edge instr state.slots edge) (Known next)) ≡ None }
{
    unwritten_measures_fall();
}

/// A way that leads to the very state that its system call leaves keeps the rules on ways.
pub fn left_calls_are_kept()
    ensures { (t : Thread) (at : Point) (pc : ℕ) (state next : PointState) (a : AfterCall) → behind_call t state.measure a ≡ Known next
        → first_broken (edge_rules t at state.measure (call_edge pc state.ranges a) (Known next)) ≡ None }
{
    measures_fall_behind_calls();
    budgets_stay_below();
}
