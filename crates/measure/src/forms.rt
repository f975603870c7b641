//! Linear forms of the variables on an edge.

ghost use Rattle.std.specs.Prelude.{◌≡◌, ◌+◌, ◌^◌, ◌*ℤ◌, ◌<◌, false, pos, true};
ghost use Rattle.model.specs.Acceptance.Measures.{Form, Variable as FormVariable, before_form, difference_form, substituted};
ghost use Rattle.measure.specs.Measures.{measure_of};
ghost use Rattle.measure.specs.Sums.{IsSmall, coefficient_sum, constant_sum};
ghost use Rattle.measure.specs.Variables.{is_named, register_of, variable_of};

use crate::values::{coefficient, constant};
use crate::variables::{Variable, Variables};
use crate::{Measure, Step, TermEntry, Unchanged};

/// A linear form: a constant, and a coefficient for each variable.
pub(crate) trait Linear {
    ghost form: { Self → Form };

    fn constant(&self) -> i128
        ensures value { result ≡ (form self.now).constant }
        ensures small { IsSmall (2 ^ 100) result };

    fn coefficient(&self, variable: Variable) -> i64
        ensures { result ≡ (form self.now).coefficient (variable_of variable) };

    /// Whether it counts no variable, as far as is seen at once.
    fn is_constant(&self) -> bool
        ensures { (variable : FormVariable) → result ≡ true → (form self.now).coefficient variable ≡ pos 0 };

    /// The variables that it may count.
    fn variables(&self) -> Variables
        ensures { (variable : FormVariable) → register_of variable < 32 → is_named result variable ≡ false → (form self.now).coefficient variable ≡ pos 0 };
}

/// A measure after a step, over the registers before it.
#[derive(Drop)]
pub(crate) struct Behind<'a, S: Step> {
    pub(crate) measure: &'a Measure,
    pub(crate) step: &'a S,
}

impl<'a, S: Step> Linear for Behind<'a, S> {
    ghost form = { λ b. substituted (measure_of b.measure.now) (S.value_of b.step.now) };

    fn constant(&self) -> i128 {
        constant_of(self.measure, self.step)
    }

    fn coefficient(&self, variable: Variable) -> i64 {
        coefficient_of(self.measure, self.step, variable)
    }

    fn is_constant(&self) -> bool {
        counts_none(self.measure, self.step)
    }

    fn variables(&self) -> Variables {
        let mut named = Variables::none();
        add_terms(self.measure, self.step, &mut named);
        named
    }
}

/// How much a measure after a step is above one before it.
#[derive(Drop)]
pub(crate) struct Change<'a, S: Step> {
    pub(crate) before: &'a Measure,
    pub(crate) behind: Behind<'a, S>,
}

impl<'a, S: Step> Linear for Change<'a, S> {
    ghost form = { λ c. difference_form (substituted (measure_of c.behind.measure.now) (S.value_of c.behind.step.now))
        (substituted (measure_of c.before.now) before_form) };

    fn constant(&self) -> i128 {
        constant_of(self.behind.measure, self.behind.step) - constant_of(self.before, &Unchanged)
    }

    fn coefficient(&self, variable: Variable) -> i64 {
        coefficient_of(self.behind.measure, self.behind.step, variable)
            - coefficient_of(self.before, &Unchanged, variable)
    }

    fn is_constant(&self) -> bool {
        counts_none(self.behind.measure, self.behind.step) && counts_none(self.before, &Unchanged)
    }

    fn variables(&self) -> Variables {
        let mut named = Variables::none();
        add_terms(self.behind.measure, self.behind.step, &mut named);
        add_terms(self.before, &Unchanged, &mut named);
        named
    }
}

/// Whether a measure counts no variable, after any step.
fn counts_none<S: Step>(measure: &Measure, step: &S) -> bool
    ensures { (variable : FormVariable) → result ≡ true → (substituted (measure_of measure.now) (S.value_of step.now)).coefficient variable ≡ pos 0 }
{
    let _ = step;
    measure.is_constant()
}

/// The variables that a measure counts after a step.
fn add_terms<S: Step>(measure: &Measure, step: &S, named: &mut Variables)
    ensures { (variable : FormVariable) → register_of variable < 32 → is_named named.new variable ≡ false
        → (is_named named.old variable ≡ false) × ((substituted (measure_of measure.now) (S.value_of step.now)).coefficient variable ≡ pos 0) }
{
    let terms = measure.terms();
    for term in terms {
        named.add_value(step.value(term.register));
    }
}

/// The constant of a measure after a step.
pub(crate) fn constant_of<S: Step>(measure: &Measure, step: &S) -> i128
    ensures value { result ≡ (substituted (measure_of measure.now) (S.value_of step.now)).constant }
    ensures small { IsSmall (2 ^ 98 + 2 ^ 64) result }
{
    let terms = measure.terms();
    let mut sum = i128::from(measure.constant());
    for term in terms {
        sum += scaled(term.coefficient, constant(step.value(term.register)));
    }
    sum
}

/// The coefficient of a variable in a measure after a step.
fn coefficient_of<S: Step>(measure: &Measure, step: &S, variable: Variable) -> i64
    ensures value { result ≡ (substituted (measure_of measure.now) (S.value_of step.now)).coefficient (variable_of variable) }
    ensures small { IsSmall (2 ^ 42) result }
{
    let terms = measure.terms();
    let mut sum = 0;
    for term in terms {
        sum += times(
            term.coefficient,
            coefficient(step.value(term.register), variable),
        );
    }
    sum
}

/// A coefficient times a constant.
fn scaled(coefficient: i32, constant: i64) -> i128
    ensures value { result ≡ coefficient *ℤ constant }
    ensures small { IsSmall (2 ^ 94) result }
{
    wide_product(coefficient, constant)
}

/// The same, whatever its size.
fn wide_product(coefficient: i32, constant: i64) -> i128
    ensures { result ≡ coefficient *ℤ constant }
{
    i128::from(coefficient) * i128::from(constant)
}

/// A coefficient times another.
fn times(coefficient: i32, other: i8) -> i64
    ensures value { result ≡ coefficient *ℤ other }
    ensures small { IsSmall (2 ^ 38) result }
{
    product(coefficient, other)
}

/// The same, whatever its size.
fn product(coefficient: i32, other: i8) -> i64
    ensures { result ≡ coefficient *ℤ other }
{
    i64::from(coefficient) * i64::from(other)
}
