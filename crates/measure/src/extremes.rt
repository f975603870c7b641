//! Extremes of linear forms over ranges, each variable by itself.

ghost use Rattle.std.specs.Prelude.{◌≡◌, ◌<◌, ◌^◌, ◌*ℤ◌, false, pos};
ghost use Rattle.model.specs.Acceptance.Measures.{Before, falls, greatest_on, greatest_term, least, least_term, least_value, register_numbered, stays_below};
ghost use Rattle.model.specs.Acceptance.Ranges.{range_of};
ghost use Rattle.measure.specs.Measures.{measure_of};
ghost use Rattle.measure.specs.Sums.{IsSmall};
ghost use Rattle.measure.specs.Variables.{is_named, register_of, variable_of};

use crate::forms::{Behind, Change, Linear};
use crate::variables::{Variable, Variables};
use crate::{Measure, Step, Unchanged};
use model::Register;
use ranges::{Bounds, Range};

/// The least value of a measure over the ranges of the registers.
pub fn least(measure: &Measure, bounds: &Bounds) -> i128
    ensures { result ≡ least_value (measure_of measure.now) bounds.now }
{
    least_of(
        &Behind {
            measure,
            step: &Unchanged,
        },
        bounds,
    )
}

/// Whether the measure after an edge is always less than the one before it.
#[tactic(auto, unfolding(model::specs::Acceptance::Measures::falls))]
pub fn falls<S: Step>(
    from: &Measure,
    to: &Measure,
    step: &S,
    before: &Bounds,
    behind: &Bounds,
) -> bool
    ensures { result ≡ falls (measure_of from.now) (measure_of to.now) (S.value_of step.now) before.now behind.now }
{
    let change = Change {
        before: from,
        behind: Behind { measure: to, step },
    };
    greatest(&change, before, behind) < 0
}

/// Whether the measure after an edge is never above a budget.
#[tactic(auto, unfolding(model::specs::Acceptance::Measures::stays_below))]
pub fn stays_below<S: Step>(
    budget: u64,
    to: &Measure,
    step: &S,
    before: &Bounds,
    behind: &Bounds,
) -> bool
    ensures { result ≡ stays_below budget (measure_of to.now) (S.value_of step.now) before.now behind.now }
{
    greatest(&Behind { measure: to, step }, before, behind) <= i128::from(budget)
}

/// The greatest value of a form over an edge.
#[tactic(auto, using(crate::proofs::LinearSums::sum_more), unfolding(model::specs::Acceptance::Measures::greatest))]
fn greatest<L: Linear>(form: &L, before: &Bounds, behind: &Bounds) -> i128
    ensures { result ≡ greatest_on before.now behind.now (L.form form.now) }
{
    if form.is_constant() {
        return form.constant();
    }
    let named = form.variables();
    let mut sum = 0;
    for register in 0..32 {
        sum += greatest_part(form, &named, before, Variable::Before(register));
        sum += greatest_part(form, &named, behind, Variable::After(register));
    }
    form.constant() + sum
}

/// The least value of a form of registers alone.
#[tactic(auto, using(crate::proofs::LinearSums::sum_more), unfolding(model::specs::Acceptance::Measures::least))]
fn least_of<L: Linear>(form: &L, bounds: &Bounds) -> i128
    ensures { result ≡ least (L.form form.now) (λ register. range_of bounds.now (register_numbered register)) }
{
    if form.is_constant() {
        return form.constant();
    }
    let named = form.variables();
    let mut sum = 0;
    for register in 0..32 {
        sum += least_part(form, &named, bounds, register);
    }
    form.constant() + sum
}

/// The greatest value of what a form has of one variable, by the ranges on its side of the edge.
fn greatest_part<L: Linear>(
    form: &L,
    named: &Variables,
    bounds: &Bounds,
    variable: Variable,
) -> i128
    requires register { register_of (variable_of variable) < 32 }
    requires others { is_named named.now (variable_of variable) ≡ false → (L.form form.now).coefficient (variable_of variable) ≡ pos 0 }
    ensures value { result ≡ greatest_term ((L.form form.now).coefficient (variable_of variable))
        (range_of bounds.now (register_numbered (register_of (variable_of variable)))) }
    ensures small { IsSmall (2 ^ 96) result }
{
    if named.contains(variable) {
        let range = bounds.get(Register(variable.register() as u8));
        greatest_term(form.coefficient(variable), range)
    } else {
        0
    }
}

/// The least value of what a form has of one register before the edge.
fn least_part<L: Linear>(form: &L, named: &Variables, bounds: &Bounds, register: u32) -> i128
    requires register { register < 32 }
    requires others { is_named named.now (Before register) ≡ false → (L.form form.now).coefficient (Before register) ≡ pos 0 }
    ensures value { result ≡ least_term ((L.form form.now).coefficient (Before register)) (range_of bounds.now (register_numbered register)) }
    ensures small { IsSmall (2 ^ 96) result }
{
    let variable = Variable::Before(register);
    if named.contains(variable) {
        let range = bounds.get(Register(register as u8));
        least_term(form.coefficient(variable), range)
    } else {
        0
    }
}

/// The greatest value of a term.
fn greatest_term(coefficient: i64, range: Range) -> i128
    ensures value { result ≡ greatest_term coefficient range }
    ensures small { IsSmall (2 ^ 96) result }
{
    if coefficient < 0 {
        product(coefficient, range.low)
    } else {
        product(coefficient, range.high)
    }
}

/// The least value of a term.
fn least_term(coefficient: i64, range: Range) -> i128
    ensures value { result ≡ least_term coefficient range }
    ensures small { IsSmall (2 ^ 96) result }
{
    if coefficient < 0 {
        product(coefficient, range.high)
    } else {
        product(coefficient, range.low)
    }
}

/// A coefficient times a word.
fn product(coefficient: i64, word: u32) -> i128
    ensures value { result ≡ coefficient *ℤ pos word }
    ensures small { IsSmall (2 ^ 96) result }
{
    wide_product(coefficient, word)
}

/// The same, whatever its size.
fn wide_product(coefficient: i64, word: u32) -> i128
    ensures { result ≡ coefficient *ℤ pos word }
{
    i128::from(coefficient) * i128::from(word)
}
