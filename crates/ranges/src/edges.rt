//! Where an instruction leads, and with which ranges.

ghost use Rattle.std.specs.Prelude.{◌≡◌, false, option_map};
ghost use Rattle.model.specs.declared.instructions.Exec.TheVariants.{Next};
ghost use Rattle.model.specs.Acceptance.Edges.{after, branch_edge};
ghost use Rattle.model.specs.Acceptance.ThreadInvariants.{LieWithin};
ghost use Rattle.model.specs.Machine.Effects.{effect};
ghost use Rattle.model.specs.Machine.ProgramMemory.{Content, RegisterFile};
ghost use Rattle.model.specs.Machine.Instructions.{IsInstr};
ghost use Rattle.model.specs.Acceptance.RangeRules.{ranges_after};
ghost use Rattle.ranges.specs.Edges.{only_if, ranges_behind, way_of, ways_of};
ghost use Rattle.ranges.specs.Standing.{AreWords, TakesWay, is_computed_jump};

use crate::Bounds;
use crate::branches::{Compared, refine};
use crate::results::{load_range, result_of_immediate, result_of_registers, result_of_shift};
use model::{ImmediateOp, Instr, Range};
use rv32_exec::upper_result;

/// A way on from an instruction: the address that it leads to, and the ranges there.
#[derive(Clone, Copy, Debug)]
pub struct Edge {
    pub target: u32,
    pub bounds: Bounds,
}

/// The ways on from an instruction, each where there is one.
#[derive(Clone, Copy, Debug)]
pub struct Edges {
    /// To the next instruction.
    pub fall_through: Option<Edge>,
    /// To the target of a jump or a branch.
    pub taken: Option<Edge>,
}

/// What the instruction at `pc` makes of the ranges, on each way on. A computed jump leads nowhere that is known, and
/// a system call has rules of its own.
pub fn after(pc: u32, instr: Instr, bounds: &Bounds) -> Edges
    requires { IsInstr instr }
    ensures ways { result ≡ ways_of (after pc instr bounds.now) }
    // An instruction that goes on, and is no computed jump, takes one of the ways, and each register that lay in its range
    // lies in the range that it has there.
    ensures taken { (r : RegisterFile) (content : Content) → r.pc ≡ pc → AreWords r content → is_computed_jump instr ≡ false
        → LieWithin r bounds.now → (effect r content instr).exec ≡ Next → TakesWay (effect r content instr).registers result }
{
    ways_on(pc, instr, bounds.all())
}

/// The ways on, by the kind of the instruction.
#[tactic(auto, unfolding(model::specs::Acceptance::Edges::after))]
fn ways_on(pc: u32, instr: Instr, bounds: &Bounds) -> Edges
    requires { IsInstr instr }
    ensures { result ≡ ways_of (after pc instr bounds.now) }
{
    let next = pc.wrapping_add(4);
    match instr {
        Instr::Jal { offset, .. } => Edges {
            fall_through: None,
            taken: Some(Edge {
                target: pc.wrapping_add(offset.cast_unsigned()),
                bounds: ranges_after(pc, instr, bounds),
            }),
        },
        Instr::Branch {
            op,
            rs1,
            rs2,
            offset,
        } => Edges {
            fall_through: branch_edge(next, refine(op, false, rs1, rs2, bounds)),
            taken: branch_edge(
                pc.wrapping_add(offset.cast_unsigned()),
                refine(op, true, rs1, rs2, bounds),
            ),
        },
        Instr::Jalr { .. } | Instr::Ecall | Instr::Ebreak => Edges {
            fall_through: None,
            taken: None,
        },
        Instr::Upper { .. }
        | Instr::Load { .. }
        | Instr::Store { .. }
        | Instr::Immediate { .. }
        | Instr::Shift { .. }
        | Instr::Registers { .. }
        | Instr::Fence => Edges {
            fall_through: Some(Edge {
                target: next,
                bounds: ranges_after(pc, instr, bounds),
            }),
            taken: None,
        },
    }
}

/// The way of a branch to this address, where it can go there.
fn branch_edge(target: u32, bounds: Option<Bounds>) -> Option<Edge>
    ensures { result ≡ option_map way_of (branch_edge target bounds) }
{
    let bounds = bounds?;
    Some(Edge { target, bounds })
}

/// The ranges after the instruction at `pc`, which is not a branch.
fn ranges_after(pc: u32, instr: Instr, bounds: &Bounds) -> Bounds
    requires { IsInstr instr }
    ensures { result ≡ ranges_after pc instr bounds.now }
{
    let mut bounds = *bounds;
    write_result(pc, instr, &mut bounds);
    bounds
}

/// Makes of the ranges those after the instruction at `pc`, which is not a branch: the register that it writes gets the
/// range of its result.
#[tactic(auto, unfolding(model::specs::Acceptance::RangeRules::ranges_after))]
fn write_result(pc: u32, instr: Instr, bounds: &mut Bounds)
    requires { IsInstr instr }
    ensures { bounds.new ≡ ranges_after pc instr bounds.old }
{
    let (rd, range) = match instr {
        Instr::Upper { op, rd, immediate } => (rd, Range::single(upper_result(op, pc, immediate))),
        Instr::Jal { rd, .. } | Instr::Jalr { rd, .. } => (rd, Range::single(pc.wrapping_add(4))),
        Instr::Load { op, rd, .. } => (rd, load_range(op)),
        Instr::Immediate {
            op,
            rd,
            rs1,
            immediate,
        } => (rd, result_of_immediate(op, bounds.get(rs1), immediate)),
        Instr::Shift {
            op,
            rd,
            rs1,
            amount,
        } => (rd, result_of_shift(op, bounds.get(rs1), u32::from(amount))),
        Instr::Registers { op, rd, rs1, rs2 } => (
            rd,
            result_of_registers(op, bounds.get(rs1), bounds.get(rs2)),
        ),
        Instr::Branch { .. } | Instr::Store { .. } | Instr::Fence | Instr::Ecall | Instr::Ebreak =>
            {
                return;
            }
    };
    bounds.set(rd, range);
}

/// Makes of the ranges those on the way to the next instruction, if the instruction at `pc` has such a way: whether it
/// has. It makes no other copy of them.
#[tactic(auto, unfolding(model::specs::Acceptance::Edges::after))]
pub fn pass(pc: u32, instr: Instr, bounds: &mut Bounds) -> bool
    requires { IsInstr instr }
    ensures { only_if result bounds.new ≡ ranges_behind (after pc instr bounds.old) }
{
    match instr {
        Instr::Branch { op, rs1, rs2, .. } => Compared { op, rs1, rs2 }.narrow(false, bounds),
        Instr::Jal { .. } | Instr::Jalr { .. } | Instr::Ecall | Instr::Ebreak => false,
        Instr::Upper { .. }
        | Instr::Load { .. }
        | Instr::Store { .. }
        | Instr::Immediate { .. }
        | Instr::Shift { .. }
        | Instr::Registers { .. }
        | Instr::Fence => {
            write_result(pc, instr, bounds);
            true
        }
    }
}
