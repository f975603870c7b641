//! What a register is after an edge, by the registers before it.

ghost use Rattle.std.specs.Prelude.{◌≡◌, ◌≤ℤ◌, ◌+ℤ◌, ◌-ℤ◌, ◌^◌, if◌then◌else◌, negsuc, pos};
ghost use Rattle.model.specs.Acceptance.Measures.{After, Before};
ghost use Rattle.measure.specs.Values.{form_of};
ghost use Rattle.measure.specs.Variables.{variable_of};

use crate::variables::Variable;
use model::Register;

/// What a register is after an edge.
#[derive(Clone, Copy)]
pub enum Value {
    /// What this register was before it.
    Same(u32),
    /// What this register becomes, where nothing more is known of it.
    Fresh(u32),
    Sum(Register, Register),
    Difference(Register, Register),
    /// A register and an immediate.
    Moved(Register, i32),
    Constant(u32),
}

/// The coefficient of this variable, of which the value is another.
fn one_if(is_same: bool) -> i8
    ensures { result ≡ (if is_same then pos 1 else pos 0) }
{
    if is_same { 1 } else { 0 }
}

/// The coefficient of the variable of one register in its sum with another.
fn in_sum(is_first: bool, is_second: bool) -> i8
    ensures value { result ≡ (if is_first then pos 1 else pos 0) +ℤ (if is_second then pos 1 else pos 0) }
    ensures least { negsuc 0 ≤ℤ result }
    ensures greatest { result ≤ℤ pos 2 }
{
    one_if(is_first) + one_if(is_second)
}

/// The same in its difference from another.
fn in_difference(is_first: bool, is_second: bool) -> i8
    ensures value { result ≡ (if is_first then pos 1 else pos 0) -ℤ (if is_second then pos 1 else pos 0) }
    ensures least { negsuc 0 ≤ℤ result }
    ensures greatest { result ≤ℤ pos 2 }
{
    one_if(is_first) - one_if(is_second)
}

/// How often a variable counts in a value.
pub(crate) fn coefficient(value: Value, variable: Variable) -> i8
    ensures value { result ≡ (form_of value).coefficient (variable_of variable) }
    ensures least { negsuc 0 ≤ℤ result }
    ensures greatest { result ≤ℤ pos 2 }
{
    match variable {
        Variable::Before(register) => before_in(value, register),
        Variable::After(register) => after_in(value, register),
    }
}

/// How often what this register was before the edge counts in a value.
fn before_in(value: Value, register: u32) -> i8
    ensures value { result ≡ (form_of value).coefficient (Before register) }
    ensures least { negsuc 0 ≤ℤ result }
    ensures greatest { result ≤ℤ pos 2 }
{
    match value {
        Value::Same(same) => one_if(register == same),
        Value::Sum(first, second) => {
            in_sum(
                register == u32::from(first.0),
                register == u32::from(second.0),
            )
        }
        Value::Difference(first, second) => {
            in_difference(
                register == u32::from(first.0),
                register == u32::from(second.0),
            )
        }
        Value::Moved(moved, _) => one_if(register == u32::from(moved.0)),
        Value::Fresh(_) | Value::Constant(_) => 0,
    }
}

/// How often what this register becomes counts in a value.
fn after_in(value: Value, register: u32) -> i8
    ensures value { result ≡ (form_of value).coefficient (After register) }
    ensures least { negsuc 0 ≤ℤ result }
    ensures greatest { result ≤ℤ pos 2 }
{
    match value {
        Value::Fresh(fresh) => one_if(register == fresh),
        _ => 0,
    }
}

/// What a value is where all variables are 0.
pub(crate) fn constant(value: Value) -> i64
    ensures value { result ≡ (form_of value).constant }
    ensures least { negsuc (2 ^ 31) ≤ℤ result }
    ensures greatest { result ≤ℤ pos (2 ^ 32) }
{
    match value {
        Value::Moved(_, by) => i64::from(by),
        Value::Constant(number) => i64::from(number),
        Value::Same(_) | Value::Fresh(_) | Value::Sum(..) | Value::Difference(..) => 0,
    }
}
