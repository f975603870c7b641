//! The ways on from a point in a state.

ghost use Rattle.std.specs.Prelude.{IfOk};
ghost use Rattle.model.specs.Machine.Instructions.{IsInstr};

use crate::bare_threads::BareThread;
use crate::shared::Shared;
use crate::stretches::Stretch;
use crate::{Fault, Reason};
use measure::{AfterCall, AfterInstruction, Step, Value};
use model::{Instr, Point, Refusal};
use program_rules::registers_of;
use ranges::{Bounds, Edge, after};
use rv32_isa::decode;
use typestate::Written;

/// What is known at a point: the ranges of the registers, and the slots as changes to those of the image.
#[derive(Clone, Copy)]
pub(crate) struct State {
    pub(crate) bounds: Bounds,
    pub(crate) changes: Stretch,
}

/// What writes registers on a way.
#[derive(Clone, Copy)]
pub(crate) enum Effect {
    Instruction(AfterInstruction),
    Call(Written),
}

impl Effect {
    /// What a register becomes.
    pub(crate) fn value(&self, register: u32) -> Value {
        match self {
            Effect::Instruction(step) => step.value(register),
            Effect::Call(written) => {
                let step = AfterCall {
                    written: registers_of(*written),
                };
                step.value(register)
            }
        }
    }
}

/// A way on from a point.
#[derive(Clone, Copy)]
pub(crate) struct Way {
    pub(crate) from: u32,
    pub(crate) target: u32,
    /// The ranges before the instruction, of the values that come this way.
    pub(crate) before: Bounds,
    pub(crate) behind: Bounds,
    /// Whether the count of instructions begins again after it.
    pub(crate) is_wait: bool,
    /// Whether it is that of a jump, or of a branch that is taken.
    pub(crate) is_jump: bool,
    pub(crate) effect: Effect,
}

/// The ways on from a point, and the slots after it.
#[derive(Clone, Copy)]
pub(crate) struct Ways {
    pub(crate) next: Option<Way>,
    pub(crate) taken: Option<Way>,
    pub(crate) changes: Stretch,
}

/// Whether it is a branch.
fn is_branch(instr: Instr) -> bool {
    matches!(instr, Instr::Branch { .. })
}

impl BareThread<'_, '_> {
    /// How many points the program has.
    pub(crate) fn count(&self) -> u32 {
        self.given.space.thread.word_count()
    }

    /// The address of a point.
    fn address(&self, point: u32) -> u32 {
        let base = self.given.space.thread.header().base;
        base.wrapping_add(point.wrapping_mul(4))
    }

    /// The point at an address that a point leads to.
    fn point_at(&self, from: u32, address: u32) -> Result<u32, Fault> {
        let distance = address.wrapping_sub(self.given.space.thread.header().base);
        let point = distance / 4;
        if distance % 4 == 0 && point < self.count() {
            Ok(point)
        } else {
            Err(Fault::At {
                point: from,
                reason: Reason::LeavesProgram,
            })
        }
    }

    /// The instruction at a point.
    fn instruction(&self, point: u32) -> Result<Instr, Fault>
        ensures { IfOk result IsInstr }
    {
        let at = Point {
            thread: self.given.number,
            point,
        };
        if point >= self.given.space.thread.word_count() {
            return Err(Fault::refused(point, Refusal::BadTarget(at)));
        }
        match decode(self.given.space.thread.word(point)) {
            None | Some(Instr::Ebreak) => {
                Err(Fault::refused(point, Refusal::IllegalInstruction(at)))
            }
            Some(Instr::Jalr { .. }) => Err(Fault::refused(point, Refusal::ComputedJump(at))),
            Some(instr) => Ok(instr),
        }
    }

    /// The way along an edge of an instruction.
    fn way_along(
        &self,
        from: u32,
        instr: Instr,
        bounds: &Bounds,
        edge: &Edge,
        is_jump: bool,
    ) -> Result<Way, Fault>
        requires { IsInstr instr }
    {
        let before = if is_branch(instr) {
            edge.bounds
        } else {
            *bounds
        };
        Ok(Way {
            from,
            target: self.point_at(from, edge.target)?,
            before,
            behind: edge.bounds,
            is_wait: false,
            is_jump,
            effect: Effect::Instruction(AfterInstruction::new(instr, &before, &edge.bounds)),
        })
    }

    /// The ways on from an instruction: to the next point, and the one that is taken.
    fn ways_along(
        &self,
        point: u32,
        instr: Instr,
        bounds: &Bounds,
    ) -> Result<(Option<Way>, Option<Way>), Fault>
        requires { IsInstr instr }
    {
        let edges = after(self.address(point), instr, bounds);
        let next = match &edges.fall_through {
            Some(edge) => Some(self.way_along(point, instr, bounds, edge, false)?),
            None => None,
        };
        let taken = match &edges.taken {
            Some(edge) => Some(self.way_along(point, instr, bounds, edge, true)?),
            None => None,
        };
        Ok((next, taken))
    }

    /// The ways on from a system call.
    fn ways_behind_call(
        &self,
        point: u32,
        state: &State,
        shared: &mut Shared<'_, '_>,
    ) -> Result<Ways, Fault> {
        let called = self.called(point, state, shared)?;
        let way = Way {
            from: point,
            target: self.point_at(point, self.address(point).wrapping_add(4))?,
            before: state.bounds,
            behind: called.behind.bounds,
            is_wait: called.behind.is_wait,
            is_jump: false,
            effect: Effect::Call(called.behind.written),
        };
        Ok(Ways {
            next: Some(way),
            taken: None,
            changes: called.left,
        })
    }

    /// The ways on from a point in a state.
    pub(crate) fn ways(
        &self,
        point: u32,
        state: &State,
        shared: &mut Shared<'_, '_>,
    ) -> Result<Ways, Fault> {
        let instr = self.instruction(point)?;
        if let Instr::Ecall = instr {
            return self.ways_behind_call(point, state, shared);
        }
        let (next, taken) = self.ways_along(point, instr, &state.bounds)?;
        Ok(Ways {
            next,
            taken,
            changes: state.changes,
        })
    }
}
