//! The range of an instruction's result, by the ranges of its sources: a function for each rule.

ghost use Rattle.std.specs.Prelude.{◌≡◌, ◌<◌, ◌≤◌, ◌^◌, ◌&&◌};
ghost use Rattle.model.specs.Machine.Effects.{immediate_result, register_result, shift_result};
ghost use Rattle.model.specs.Acceptance.RangeRules.{and_range, difference_range, if_positive, immediate_range, is_single, left_by, left_range, load_range};
ghost use Rattle.model.specs.Acceptance.RangeRules.{ones_above, or_range, register_range, right_by, right_range, shift_range, sum_range, value_or, xor_range};
ghost use Rattle.model.specs.Acceptance.Ranges.{moved};
ghost use Rattle.ranges.specs.Orders.{IsOrdered};

use model::{ImmediateOp, LoadOp, Range, RegisterOp, ShiftOp};
use rv32_exec::{immediate_result, register_result, shift_result};

/// Of 0 or 1.
const BIT: Range = Range { low: 0, high: 1 };

/// Of a sum: full, where it may wrap.
fn sum_range(first: Range, second: Range) -> Range
    requires first { IsOrdered first }
    requires second { IsOrdered second }
    ensures range { result ≡ sum_range first second }
    ensures ordered { IsOrdered result }
{
    match first.high.checked_add(second.high) {
        Some(high) => Range {
            low: first.low + second.low,
            high,
        },
        None => Range::FULL,
    }
}

/// Of a difference: full, where it may wrap.
fn difference_range(first: Range, second: Range) -> Range
    requires first { IsOrdered first }
    requires second { IsOrdered second }
    ensures range { result ≡ difference_range first second }
    ensures ordered { IsOrdered result }
{
    if second.high <= first.low {
        Range {
            low: first.low - second.high,
            high: first.high - second.low,
        }
    } else {
        Range::FULL
    }
}

/// Of AND.
fn and_range(first: Range, second: Range) -> Range
    ensures range { result ≡ and_range first second }
    ensures ordered { IsOrdered result }
{
    Range {
        low: 0,
        high: first.high.min(second.high),
    }
}

/// Of OR.
fn or_range(first: Range, second: Range) -> Range
    ensures range { result ≡ or_range first second }
    ensures ordered { IsOrdered first → IsOrdered second → IsOrdered result }
{
    Range {
        low: first.low.max(second.low),
        high: ones_above(first.high.max(second.high)),
    }
}

/// Of XOR.
fn xor_range(first: Range, second: Range) -> Range
    ensures range { result ≡ xor_range first second }
    ensures ordered { IsOrdered result }
{
    Range {
        low: 0,
        high: ones_above(first.high.max(second.high)),
    }
}

/// The least number of the form 2^k - 1 that is at least `n`.
fn ones_above(n: u32) -> u32
    ensures value { result ≡ ones_above n }
    ensures least { n ≤ result }
{
    if n == 0 {
        return 0;
    }
    u32::MAX >> n.leading_zeros()
}

/// Of a range moved by a signed number: full, where an end would wrap.
fn moved(range: Range, by: i32) -> Range
    ensures range { result ≡ moved range by }
    ensures ordered { IsOrdered range → IsOrdered result }
{
    let distance = by.unsigned_abs();
    let ends = if by >= 0 {
        (
            range.low.checked_add(distance),
            range.high.checked_add(distance),
        )
    } else {
        (
            range.low.checked_sub(distance),
            range.high.checked_sub(distance),
        )
    };
    match ends {
        (Some(low), Some(high)) => Range { low, high },
        _ => Range::FULL,
    }
}

/// Of a shift to the left: full, where it may lose a bit.
fn left_range(range: Range, count: u32) -> Range
    requires count { count < 2 ^ 5 }
    requires ordered { IsOrdered range }
    ensures range { result ≡ left_range range count }
    ensures ordered { IsOrdered result }
{
    let factor = power(count);
    match range.high.checked_mul(factor) {
        Some(high) => Range {
            low: range.low * factor,
            high,
        },
        None => Range::FULL,
    }
}

/// 2 to this power.
fn power(exponent: u32) -> u32
    requires { exponent < 2 ^ 5 }
    ensures { result ≡ 2 ^ exponent }
{
    1 << exponent
}

/// Of a shift to the right with zeros.
fn right_range(range: Range, count: u32) -> Range
    requires { count < 2 ^ 5 }
    ensures range { result ≡ right_range range count }
    ensures ordered { IsOrdered range → IsOrdered result }
{
    Range {
        low: range.low >> count,
        high: range.high >> count,
    }
}

/// Of a shift to the right with the sign, which is one with zeros where no value has its sign bit set.
fn if_positive(range: Range, shifted: Range) -> Range
    ensures range { result ≡ if_positive range shifted }
    ensures ordered { IsOrdered shifted → IsOrdered result }
{
    if range.high < 1 << 31 {
        shifted
    } else {
        Range::FULL
    }
}

/// Of a shift by a fixed amount.
fn shift_range(op: ShiftOp, range: Range, count: u32) -> Range
    requires count { count < 2 ^ 5 }
    requires ordered { IsOrdered range }
    ensures range { result ≡ shift_range op range count }
    ensures ordered { IsOrdered result }
{
    match op {
        ShiftOp::Slli => left_range(range, count),
        ShiftOp::Srli => right_range(range, count),
        ShiftOp::Srai => if_positive(range, right_range(range, count)),
    }
}

/// Of a shift to the left by the low five bits of a register: full, where it has more than one value.
fn left_by(range: Range, by: Range) -> Range
    requires { IsOrdered range }
    ensures range { result ≡ left_by range by }
    ensures ordered { IsOrdered result }
{
    match by.value() {
        Some(count) => left_range(range, count % 32),
        None => Range::FULL,
    }
}

/// Of a shift to the right with zeros by the low five bits of a register: up to the greatest value, where it has
/// more than one value.
fn right_by(range: Range, by: Range) -> Range
    ensures range { result ≡ right_by range by }
    ensures ordered { IsOrdered range → IsOrdered result }
{
    match by.value() {
        Some(count) => right_range(range, count % 32),
        None => Range {
            low: 0,
            high: range.high,
        },
    }
}

/// Of an operation on two registers.
fn register_range(op: RegisterOp, first: Range, second: Range) -> Range
    requires first { IsOrdered first }
    requires second { IsOrdered second }
    ensures range { result ≡ register_range op first second }
    ensures ordered { IsOrdered result }
{
    match op {
        RegisterOp::Add => sum_range(first, second),
        RegisterOp::Sub => difference_range(first, second),
        RegisterOp::Sll => left_by(first, second),
        RegisterOp::Slt | RegisterOp::Sltu => BIT,
        RegisterOp::Xor => xor_range(first, second),
        RegisterOp::Srl => right_by(first, second),
        RegisterOp::Sra => if_positive(first, right_by(first, second)),
        RegisterOp::Or => or_range(first, second),
        RegisterOp::And => and_range(first, second),
    }
}

/// Of an operation on a register and an immediate.
fn immediate_range(op: ImmediateOp, range: Range, immediate: i32) -> Range
    ensures range { result ≡ immediate_range op range immediate }
    ensures ordered { IsOrdered range → IsOrdered result }
{
    let word = Range::single(immediate.cast_unsigned());
    match op {
        ImmediateOp::Addi => moved(range, immediate),
        ImmediateOp::Slti | ImmediateOp::Sltiu => BIT,
        ImmediateOp::Xori => xor_range(range, word),
        ImmediateOp::Ori => or_range(range, word),
        ImmediateOp::Andi => and_range(range, word),
    }
}

/// Of a load.
pub(crate) fn load_range(op: LoadOp) -> Range
    ensures range { result ≡ load_range op }
    ensures ordered { IsOrdered result }
{
    match op {
        LoadOp::Lb | LoadOp::Lh | LoadOp::Lw => Range::FULL,
        LoadOp::Lbu => Range { low: 0, high: 255 },
        LoadOp::Lhu => Range {
            low: 0,
            high: 65535,
        },
    }
}

/// Of an operation on a register and an immediate: its value, where the register has only one.
pub(crate) fn result_of_immediate(op: ImmediateOp, range: Range, immediate: i32) -> Range
    ensures range { result ≡ value_or (is_single range) (immediate_result op range.low immediate) (immediate_range op range immediate) }
    ensures ordered { IsOrdered range → IsOrdered result }
{
    match range.value() {
        Some(value) => Range::single(immediate_result(op, value, immediate)),
        None => immediate_range(op, range, immediate),
    }
}

/// Of a shift by a fixed amount: its value, where the register has only one.
pub(crate) fn result_of_shift(op: ShiftOp, range: Range, count: u32) -> Range
    requires count { count < 2 ^ 5 }
    requires ordered { IsOrdered range }
    ensures range { result ≡ value_or (is_single range) (shift_result op range.low count) (shift_range op range count) }
    ensures ordered { IsOrdered result }
{
    match range.value() {
        Some(value) => Range::single(shift_result(op, value, count)),
        None => shift_range(op, range, count),
    }
}

/// Of an operation on two registers: its value, where both have only one.
pub(crate) fn result_of_registers(op: RegisterOp, first: Range, second: Range) -> Range
    requires first { IsOrdered first }
    requires second { IsOrdered second }
    ensures range { result ≡ value_or (is_single first && is_single second) (register_result op first.low second.low) (register_range op first second) }
    ensures ordered { IsOrdered result }
{
    match (first.value(), second.value()) {
        (Some(a), Some(b)) => Range::single(register_result(op, a, b)),
        _ => register_range(op, first, second),
    }
}
