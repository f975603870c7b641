//! What a system call leaves for the next point.

ghost use Rattle.std.specs.Prelude.{◌≡◌, ◌≤◌, ◌≤ℤ◌, ◌-◌, ◌^◌, List, negsuc};
ghost use Rattle.std.specs.List.{list_any};
ghost use Rattle.measure.specs.Measures.{measure_of};
ghost use Rattle.model.specs.Acceptance.Measures.{has_term};
ghost use Rattle.model.specs.Acceptance.NotedStates.{NotedSlot};
ghost use Rattle.model.specs.Acceptance.PointStates.{behind_call};
ghost use Rattle.model.specs.Images.Image.{Thread};
ghost use Rattle.program_rules.specs.point_rules.Points.{left_with};
ghost use Rattle.typestate.specs.Calls.{behind_with, registers_of};

use crate::at_points::AtPoint;
use crate::point_rules::Left;
use measure::Measure;
use model::Register;
use typestate::{Behind, Written};

const BADGE: [Register; 1] = [Register(10)];

const ANSWER: [Register; 2] = [Register(10), Register(11)];

/// The badge, the info and the eight words.
const MESSAGE: [Register; 10] = [
    Register(10),
    Register(11),
    Register(12),
    Register(13),
    Register(14),
    Register(15),
    Register(18),
    Register(19),
    Register(20),
    Register(21),
];

/// The registers that a call writes.
#[tactic(auto, unfolding(model::specs::Kernel::Messages::word_registers))]
pub fn registers_of(written: Written) -> &'static [Register]
    ensures { result.now ≡ registers_of written }
{
    match written {
        Written::Nothing => &[],
        Written::Badge => &BADGE,
        Written::Answer => &ANSWER,
        Written::Message => &MESSAGE,
    }
}

/// Whether a measure has a term of one of these registers.
fn has_one(measure: &Measure, registers: &[Register]) -> bool
    ensures { result ≡ list_any (λ x. has_term (measure_of measure.now) x.0) registers.now }
{
    registers
        .iter()
        .any(|register| measure.has_term(u32::from(register.0)))
}

/// What a system call leaves for the next point: the budget is there anew after a wait, and else one instruction less is left
/// to run.
pub fn follows_call(budget: u64, measure: &Measure, behind: &Behind) -> AtPoint<Left>
    requires budget { budget ≤ 2 ^ 62 }
    requires measure { negsuc (2 ^ 63 - 2) ≤ℤ (measure_of measure.now).constant }
    ensures { (t : Thread) (slots : List NotedSlot) → t.header.budget ≡ budget
        → left_with slots result ≡ behind_call t (measure_of measure.now) (behind_with slots behind.now) }
{
    let measure = if behind.is_wait {
        Measure::new(budget as i64)
    } else if has_one(measure, registers_of(behind.written)) {
        return AtPoint::Unmeasured;
    } else {
        measure.lowered()
    };
    AtPoint::Known(Left {
        bounds: behind.bounds,
        measure,
    })
}
