//! What an instruction leaves for the next point, where no record notes that one.

ghost use Rattle.std.specs.Prelude.{◌≡◌, ◌≤ℤ◌, ◌-◌, ◌^◌, List, false, negsuc};
ghost use Rattle.std.specs.Option.{option_map_or};
ghost use Rattle.measure.specs.Measures.{measure_of};
ghost use Rattle.model.specs.Acceptance.Edges.{after};
ghost use Rattle.model.specs.Acceptance.Measures.{has_term};
ghost use Rattle.model.specs.Acceptance.NotedStates.{NotedSlot};
ghost use Rattle.model.specs.Acceptance.PointStates.{follows_edge};
ghost use Rattle.model.specs.Acceptance.RangeRules.{destination};
ghost use Rattle.model.specs.Machine.Instructions.{IsInstr};
ghost use Rattle.program_rules.specs.point_rules.Points.{left_with};
ghost use Rattle.typestate.specs.Calls.{known_with};

use crate::at_points::AtPoint;
use measure::{Measure, destination};
use model::Instr;
use ranges::{Bounds, after};

/// The state that a point leaves for the next one, but for its slots.
#[derive(Clone, Copy)]
pub struct Left {
    pub bounds: Bounds,
    pub measure: Measure,
}

/// Whether an instruction writes a register of a measure.
pub(crate) fn writes_term(instr: Instr, measure: &Measure) -> bool
    ensures { result ≡ option_map_or (λ rd. has_term (measure_of measure.now) rd.0) (destination instr) false }
{
    match destination(instr) {
        Some(register) => measure.has_term(u32::from(register.0)),
        None => false,
    }
}

/// What the instruction at a pc leaves for the next point, whose slots are those of this one: one instruction less is left to run. It is
/// no system call.
pub fn follows(pc: u32, instr: Instr, bounds: &Bounds, measure: &Measure) -> AtPoint<Left>
    requires instr { IsInstr instr }
    requires measure { negsuc (2 ^ 63 - 2) ≤ℤ (measure_of measure.now).constant }
    ensures { (slots : List NotedSlot) → left_with slots result
        ≡ follows_edge instr (known_with bounds.now slots (measure_of measure.now)) (after pc instr bounds.now).fall_through }
{
    match after(pc, instr, bounds).fall_through {
        Some(_) if writes_term(instr, measure) => AtPoint::Unmeasured,
        Some(edge) => AtPoint::Known(Left {
            bounds: edge.bounds,
            measure: measure.lowered(),
        }),
        None => AtPoint::Missing,
    }
}
