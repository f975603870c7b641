//! Linear forms of registers, as upper bounds of how many instructions run until the next wait.

use crate::ways::Way;
use measure::Value;
use model::{Range, Register};
use ranges::Bounds;

/// A constant, and a coefficient for each register. What is too great stays at the ends of 64 bits.
#[derive(Clone, Copy, PartialEq, Eq)]
pub(crate) struct Form {
    pub(crate) constant: i64,
    coefficients: [i64; 32],
}

/// A coefficient times a word.
fn scaled(coefficient: i64, word: u32) -> i64 {
    coefficient.saturating_mul(i64::from(word))
}

/// The greatest value of a term.
fn greatest_term(coefficient: i64, range: Range) -> i64 {
    if coefficient < 0 {
        scaled(coefficient, range.low)
    } else {
        scaled(coefficient, range.high)
    }
}

/// The range of a register, by its number.
fn range_of(bounds: &Bounds, register: u32) -> Range {
    if register < 32 {
        bounds.get(Register(register as u8))
    } else {
        Range::FULL
    }
}

impl Form {
    /// A form without registers.
    pub(crate) fn constant(constant: i64) -> Self {
        Form {
            constant,
            coefficients: [0; 32],
        }
    }

    /// The coefficient of a register.
    pub(crate) fn coefficient(&self, register: u32) -> i64 {
        match self.coefficients.get(register as usize) {
            Some(coefficient) => *coefficient,
            None => 0,
        }
    }

    /// Adds a register so many times. Register 0 is 0.
    pub(crate) fn add(&mut self, register: u32, times: i64) {
        if register == 0 {
            return;
        }
        if let Some(coefficient) = self.coefficients.get_mut(register as usize) {
            *coefficient = coefficient.saturating_add(times);
        }
    }

    /// This form and a constant.
    pub(crate) fn raised(&self, by: i64) -> Form {
        let mut raised = *self;
        raised.constant = raised.constant.saturating_add(by);
        raised
    }

    /// This form and another so many times.
    pub(crate) fn with(&self, other: &Form, times: i64) -> Form {
        let by = other.constant.saturating_mul(times);
        let mut sum = self.raised(by);
        'registers: for register in 1..32u32 {
            sum.add(register, other.coefficient(register).saturating_mul(times));
        }
        sum
    }

    /// How far its greatest value over ranges is above its least.
    pub(crate) fn width(&self, bounds: &Bounds) -> i64 {
        self.greatest(bounds).saturating_sub(self.least(bounds))
    }

    /// The sum of two forms.
    pub(crate) fn plus(&self, other: &Form) -> Form {
        self.with(other, 1)
    }

    /// The difference of two forms.
    pub(crate) fn minus(&self, other: &Form) -> Form {
        self.with(other, -1)
    }

    /// Its greatest value over ranges.
    pub(crate) fn greatest(&self, bounds: &Bounds) -> i64 {
        let mut sum = self.constant;
        'registers: for register in 1..32u32 {
            let term = greatest_term(self.coefficient(register), range_of(bounds, register));
            sum = sum.saturating_add(term);
        }
        sum
    }

    /// Its least value over ranges.
    pub(crate) fn least(&self, bounds: &Bounds) -> i64 {
        let opposite = Form::constant(0).minus(self);
        opposite.greatest(bounds).saturating_neg()
    }

    /// Adds so many times what a register is after a way, in words of the registers before it, or what it is at most.
    fn add_value(&mut self, times: i64, value: Value, way: &Way) {
        match value {
            Value::Same(register) => self.add(register, times),
            Value::Fresh(register) => {
                let term = greatest_term(times, range_of(&way.behind, register));
                self.constant = self.constant.saturating_add(term);
            }
            Value::Sum(first, second) => {
                self.add(u32::from(first.0), times);
                self.add(u32::from(second.0), times);
            }
            Value::Difference(first, second) => {
                self.add(u32::from(first.0), times);
                self.add(u32::from(second.0), times.saturating_neg());
            }
            Value::Moved(register, by) => {
                self.add(u32::from(register.0), times);
                let moved = times.saturating_mul(i64::from(by));
                self.constant = self.constant.saturating_add(moved);
            }
            Value::Constant(word) => {
                self.constant = self.constant.saturating_add(scaled(times, word));
            }
        }
    }

    /// A form after a way, in words of the registers before it: at least that.
    pub(crate) fn before(&self, way: &Way) -> Form {
        let mut made = Form::constant(self.constant);
        'registers: for register in 1..32u32 {
            let times = self.coefficient(register);
            if times != 0 {
                made.add_value(times, way.effect.value(register), way);
            }
        }
        made
    }

    /// This form with each register bounded that is among these.
    pub(crate) fn bounded(&self, which: &[bool; 32], bounds: &Bounds) -> Form {
        let mut made = Form::constant(self.constant);
        'registers: for register in 1..32u32 {
            let times = self.coefficient(register);
            if which.get(register as usize).copied().unwrap_or(false) {
                let term = greatest_term(times, range_of(bounds, register));
                made.constant = made.constant.saturating_add(term);
            } else {
                made.add(register, times);
            }
        }
        made
    }

    /// This form, raised until it is at least another.
    fn raised_above(&self, other: &Form, bounds: &Bounds) -> Form {
        self.raised(other.minus(self).greatest(bounds).max(0))
    }

    /// The registers whose coefficients differ from another form's.
    fn differing(&self, other: &Form) -> [bool; 32] {
        let mut which = [false; 32];
        'registers: for register in 1..32usize {
            which[register] = self.coefficient(register as u32)
                != other.coefficient(register as u32);
        }
        which
    }

    /// This form, or another that is less at its greatest, or as much there and less at its least.
    fn or_less(self, other: Form, bounds: &Bounds) -> Form {
        let mine = self.greatest(bounds);
        let theirs = other.greatest(bounds);
        if theirs < mine || (theirs == mine && other.least(bounds) < self.least(bounds)) {
            other
        } else {
            self
        }
    }

    /// A form that is at least both: one of them, raised, or what they have in common and a constant, whichever is
    /// least at its greatest.
    pub(crate) fn above_both(&self, other: &Form, bounds: &Bounds) -> Form {
        let which = self.differing(other);
        let mine = self.bounded(&which, bounds);
        let theirs = other.bounded(&which, bounds);
        let common = mine.raised_above(&theirs, bounds);
        let first = self.raised_above(other, bounds);
        let second = other.raised_above(self, bounds);
        first.or_less(second, bounds).or_less(common, bounds)
    }
}
