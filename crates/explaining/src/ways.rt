//! The ways on from a point, and by how much a measure misses on them.

ghost use Rattle.model.specs.Machine.Instructions.{IsInstr};

use crate::scenes::Scene;
use crate::states::{Called, State};
use measure::{AfterCall, AfterInstruction, Measure, Step, falls, stays_below};
use model::{Instr, Refusal};
use program_rules::registers_of;
use ranges::{Bounds, Edge, after};
use rv32_isa::decode;
use std::alloc::AllocError;
use typestate::{NotedSlot, Written};

/// What writes registers on a way.
#[derive(Clone, Copy)]
pub(crate) enum Effect {
    Instruction(AfterInstruction),
    Call(Written),
}

/// A way on from a point.
#[derive(Drop)]
pub(crate) struct Way {
    /// The address that it leads to.
    pub(crate) target: u32,
    /// The ranges before the instruction, of the values that come this way.
    pub(crate) before: Bounds,
    pub(crate) behind: Bounds,
    pub(crate) changes: Vec<NotedSlot>,
    /// Whether instructions are counted anew after it.
    pub(crate) is_wait: bool,
    pub(crate) effect: Effect,
}

/// How far is looked for a measure that falls.
const FAR: u64 = 1 << 60;

/// How many halvings find a number up to that.
const HALVINGS: u32 = 61;

/// A measure with its constant raised.
fn raised(measure: &Measure, by: u64) -> Measure {
    let by = by.min(FAR) as i64;
    let mut higher = Measure::new(measure.constant().saturating_add(by));
    for term in measure.terms() {
        if higher.terms().len() < 4 {
            higher.push(*term);
        }
    }
    higher
}

/// By how much a measure has to be raised before it falls to another one, if that is ever enough.
fn missed_fall<S: Step>(from: &Measure, to: &Measure, step: &S, way: &Way) -> Option<u64> {
    if !falls(&raised(from, FAR), to, step, &way.before, &way.behind) {
        return None;
    }
    let mut low = 0u64;
    let mut high = FAR;
    for _ in 0..HALVINGS {
        let middle = low.saturating_add(high.saturating_sub(low) / 2);
        if falls(&raised(from, middle), to, step, &way.before, &way.behind) {
            high = middle;
        } else {
            low = middle.saturating_add(1);
        }
    }
    Some(high)
}

/// The least budget that a measure after a wait stays within, if there is one.
fn least_budget<S: Step>(to: &Measure, step: &S, way: &Way) -> Option<u64> {
    if !stays_below(FAR, to, step, &way.before, &way.behind) {
        return None;
    }
    let mut low = 0u64;
    let mut high = FAR;
    for _ in 0..HALVINGS {
        let middle = low.saturating_add(high.saturating_sub(low) / 2);
        if stays_below(middle, to, step, &way.before, &way.behind) {
            high = middle;
        } else {
            low = middle.saturating_add(1);
        }
    }
    Some(high)
}

/// By how much the measures on a way miss what they have to keep.
#[derive(Clone, Copy, Debug)]
pub(crate) enum Miss {
    /// They keep it.
    Nothing,
    By(u64),
    /// No constant is enough.
    Always,
}

/// What is missed, of a number that is wanted to be at most another.
fn miss_above(number: Option<u64>, allowed: u64) -> Miss {
    match number {
        None => Miss::Always,
        Some(number) if number <= allowed => Miss::Nothing,
        Some(number) => Miss::By(number.saturating_sub(allowed)),
    }
}

impl Way {
    /// By how much the measure misses its fall on this way, or the budget if it is a wait.
    pub(crate) fn miss(&self, budget: u64, from: &Measure, to: &Measure) -> Miss {
        match &self.effect {
            Effect::Instruction(step) => miss_above(missed_fall(from, to, step, self), 0),
            Effect::Call(written) => {
                let step = AfterCall {
                    written: registers_of(*written),
                };
                if self.is_wait {
                    miss_above(least_budget(to, &step, self), budget)
                } else {
                    miss_above(missed_fall(from, to, &step, self), 0)
                }
            }
        }
    }
}

impl Scene<'_, '_, '_, '_, '_, '_, '_> {
    /// The way along an edge of an instruction.
    fn way_along(&self, instr: Instr, state: &State, edge: &Edge) -> Result<Way, AllocError>
        requires { IsInstr instr }
    {
        let before = if matches!(instr, Instr::Branch { .. }) {
            edge.bounds
        } else {
            state.bounds
        };
        Ok(Way {
            target: edge.target,
            before,
            behind: edge.bounds,
            changes: state.changes.clone()?,
            is_wait: false,
            effect: Effect::Instruction(AfterInstruction::new(instr, &before, &edge.bounds)),
        })
    }

    /// The ways on from a point in a state: the taken one first. A system call that is refused has none.
    pub(crate) fn ways(&self, point: u32, state: &State) -> Result<Vec<Way>, AllocError> {
        let mut ways = Vec::new(self.alloc);
        if point >= self.given.space.thread.word_count() {
            return Ok(ways);
        }
        match decode(self.given.space.thread.word(point)) {
            None => {}
            Some(Instr::Ecall) => {
                if let Ok(Called { behind, changes }) = self.called(point, state)? {
                    ways.push(Way {
                        target: self.address(point).wrapping_add(4),
                        before: state.bounds,
                        behind: behind.bounds,
                        changes,
                        is_wait: behind.is_wait,
                        effect: Effect::Call(behind.written),
                    })?;
                }
            }
            Some(instr) => {
                let edges = after(self.address(point), instr, &state.bounds);
                if let Some(edge) = &edges.taken {
                    ways.push(self.way_along(instr, state, edge)?)?;
                }
                if let Some(edge) = &edges.fall_through {
                    ways.push(self.way_along(instr, state, edge)?)?;
                }
            }
        }
        Ok(ways)
    }

    /// Why the system call at a point is refused, if it is.
    pub(crate) fn refusal_of_call(
        &self,
        point: u32,
        state: &State,
    ) -> Result<Option<Refusal>, AllocError> {
        match self.called(point, state)? {
            Ok(_) => Ok(None),
            Err(refusal) => Ok(Some(refusal)),
        }
    }
}
