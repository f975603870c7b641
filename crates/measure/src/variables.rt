//! Variables of linear forms, and those that a form may count.

ghost use Rattle.std.specs.Prelude.{◌≡◌, ◌<◌, ◌||◌, false, pos};
ghost use Rattle.model.specs.Acceptance.Measures.{Variable as FormVariable, is_variable};
ghost use Rattle.measure.specs.Values.{form_of};
ghost use Rattle.measure.specs.Variables.{is_named, register_of, variable_of};

use crate::Value;

/// A variable of a form on an edge.
#[derive(Clone, Copy)]
pub(crate) enum Variable {
    /// What this register is before the edge.
    Before(u32),
    /// What it is after it, where that is no sum.
    After(u32),
}

impl Variable {
    /// The register.
    pub(crate) fn register(self) -> u32
        ensures { result ≡ register_of (variable_of self) }
    {
        match self {
            Variable::Before(register) | Variable::After(register) => register,
        }
    }
}

/// Some of the variables of registers on an edge: a form counts few of them, so that extremes need not look at the others.
#[derive(Clone, Copy)]
pub(crate) struct Variables {
    before: [bool; 32],
    after: [bool; 32],
}

impl Variables {
    /// None of them.
    pub(crate) fn none() -> Self {
        Variables {
            before: [false; 32],
            after: [false; 32],
        }
    }

    /// Whether this is one of them.
    pub(crate) fn contains(&self, variable: Variable) -> bool
        requires { register_of (variable_of variable) < 32 }
        ensures { result ≡ is_named self.now (variable_of variable) }
    {
        match variable {
            Variable::Before(register) => self.before[register as usize],
            Variable::After(register) => self.after[register as usize],
        }
    }

    /// One more, if there is such a register.
    fn add(&mut self, variable: Variable)
        ensures { (other : FormVariable) → register_of other < 32
            → is_named self.new other ≡ (is_named self.old other || is_variable other (variable_of variable)) }
    {
        match variable {
            Variable::Before(register) if register < 32 => self.before[register as usize] = true,
            Variable::After(register) if register < 32 => self.after[register as usize] = true,
            _ => {}
        }
    }

    /// Those that a value counts.
    pub(crate) fn add_value(&mut self, value: Value)
        ensures { (variable : FormVariable) → register_of variable < 32 → is_named self.new variable ≡ false
            → (is_named self.old variable ≡ false) × ((form_of value).coefficient variable ≡ pos 0) }
    {
        match value {
            Value::Same(register) => self.add(Variable::Before(register)),
            Value::Fresh(register) => self.add(Variable::After(register)),
            Value::Sum(first, second) | Value::Difference(first, second) => {
                self.add(Variable::Before(u32::from(first.0)));
                self.add(Variable::Before(u32::from(second.0)));
            }
            Value::Moved(register, _) => self.add(Variable::Before(u32::from(register.0))),
            Value::Constant(_) => {}
        }
    }
}
