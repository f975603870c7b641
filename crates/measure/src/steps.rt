//! What the registers become on an edge.

ghost use Rattle.std.specs.Prelude.{◌≡◌, ◌==◌, ℕ, IfSome, option_map};
ghost use Rattle.std.specs.List.{list_any};
ghost use Rattle.std.specs.Option.{option_map_or};
ghost use Rattle.model.specs.Acceptance.Measures.{Form, before_form, behind_form, call_form, exact_sum, moves_within, other_value};
ghost use Rattle.model.specs.Acceptance.RangeRules.{destination, difference_fits, sum_fits};
ghost use Rattle.model.specs.Machine.Instructions.{IsInstr, IsRegister};
ghost use Rattle.measure.specs.Values.{form_of};

use crate::Value;
use model::{ImmediateOp, Instr, Register, RegisterOp};
use ranges::{Bounds, Range};

/// What the registers become on an edge, as forms over the registers before it.
pub trait Step {
    ghost value_of: { Self → ℕ → Form };

    /// What a register becomes.
    fn value(&self, register: u32) -> Value
        ensures { form_of result ≡ value_of self.now register };
}

/// No register changes.
#[derive(Clone, Copy)]
pub struct Unchanged;

impl Step for Unchanged {
    ghost value_of = { λ _. before_form };

    fn value(&self, register: u32) -> Value {
        Value::Same(register)
    }
}

/// A register that an instruction writes, and what it becomes.
#[derive(Clone, Copy)]
struct Written {
    register: Register,
    value: Value,
}

/// After an instruction.
#[derive(Clone, Copy)]
pub struct AfterInstruction {
    written: Option<Written>,
}

impl AfterInstruction {
    ghost use Rattle.measure.specs.Steps.{value_behind};

    /// After this instruction, with the ranges before and after it.
    pub fn new(instr: Instr, before: &Bounds, behind: &Bounds) -> Self
        requires { IsInstr instr }
        ensures { (register : ℕ) → value_behind result register ≡ behind_form instr before.now behind.now register }
    {
        match destination(instr) {
            Some(register) => AfterInstruction {
                written: Some(Written {
                    register,
                    value: written_value(instr, before, behind, register),
                }),
            },
            None => AfterInstruction { written: None },
        }
    }
}

impl Step for AfterInstruction {
    ghost use Rattle.measure.specs.Steps.{value_behind};

    ghost value_of = { value_behind };

    fn value(&self, register: u32) -> Value {
        match self.written {
            Some(written) if u32::from(written.register.0) == register => written.value,
            _ => Value::Same(register),
        }
    }
}

/// After a system call that writes these registers.
#[derive(Clone, Copy)]
pub struct AfterCall<'a> {
    pub written: &'a [Register],
}

impl<'a> Step for AfterCall<'a> {
    ghost value_of = { λ s. call_form s.written.now };

    fn value(&self, register: u32) -> Value {
        if is_among(self.written, register) {
            Value::Fresh(register)
        } else {
            Value::Same(register)
        }
    }
}

/// Whether a register is one of these.
fn is_among(registers: &[Register], number: u32) -> bool
    ensures { result ≡ list_any (λ x. x.0 == number) registers.now }
{
    registers
        .iter()
        .any(|register| u32::from(register.0) == number)
}

/// What the register that an instruction writes becomes.
fn written_value(instr: Instr, before: &Bounds, behind: &Bounds, register: Register) -> Value
    requires instr { IsInstr instr }
    requires register { IsRegister register }
    ensures { form_of result ≡ option_map_or (λ form. form) (exact_sum instr before.now) (other_value behind.now register.0) }
{
    match exact_sum(instr, before) {
        Some(value) => value,
        None => other_value(behind, register),
    }
}

/// The register that an instruction writes.
pub fn destination(instr: Instr) -> Option<Register>
    ensures value { result ≡ destination instr }
    ensures register { IsInstr instr → IfSome result IsRegister }
{
    match instr {
        Instr::Upper { rd, .. }
        | Instr::Jal { rd, .. }
        | Instr::Jalr { rd, .. }
        | Instr::Load { rd, .. }
        | Instr::Immediate { rd, .. }
        | Instr::Shift { rd, .. }
        | Instr::Registers { rd, .. } => Some(rd),
        Instr::Branch { .. } | Instr::Store { .. } | Instr::Fence | Instr::Ecall | Instr::Ebreak =>
            None,
    }
}

/// What ADDI, ADD or SUB writes, as a sum or difference of registers before it, where that does not wrap.
#[tactic(auto, unfolding(model::specs::Acceptance::Measures::exact_sum))]
fn exact_sum(instr: Instr, before: &Bounds) -> Option<Value>
    requires { IsInstr instr }
    ensures { option_map form_of result ≡ exact_sum instr before.now }
{
    match instr {
        Instr::Immediate {
            op: ImmediateOp::Addi,
            rs1,
            immediate,
            ..
        } if moves_within(before.get(rs1), immediate) => Some(Value::Moved(rs1, immediate)),
        Instr::Registers {
            op: RegisterOp::Add,
            rs1,
            rs2,
            ..
        } if sum_fits(before.get(rs1), before.get(rs2)) => Some(Value::Sum(rs1, rs2)),
        Instr::Registers {
            op: RegisterOp::Sub,
            rs1,
            rs2,
            ..
        } if difference_fits(before.get(rs1), before.get(rs2)) => Some(Value::Difference(rs1, rs2)),
        _ => None,
    }
}

/// Whether a range moved by an immediate stays within the words.
fn moves_within(range: Range, immediate: i32) -> bool
    ensures { result ≡ moves_within range immediate }
{
    let by = i64::from(immediate);
    0 <= i64::from(range.low) + by && i64::from(range.high) + by < 1 << 32
}

/// Whether no sum of two values of these ranges wraps.
fn sum_fits(first: Range, second: Range) -> bool
    ensures { result ≡ sum_fits first second }
{
    u64::from(first.high) + u64::from(second.high) < 1 << 32
}

/// Whether no difference of two values of these ranges wraps.
fn difference_fits(first: Range, second: Range) -> bool
    ensures { result ≡ difference_fits first second }
{
    second.high <= first.low
}

/// What a register is that an instruction writes otherwise: its value, where it has one, and else a fresh one.
fn other_value(behind: &Bounds, register: Register) -> Value
    requires { IsRegister register }
    ensures { form_of result ≡ other_value behind.now register.0 }
{
    match behind.get(register).value() {
        Some(value) => Value::Constant(value),
        None => Value::Fresh(u32::from(register.0)),
    }
}
