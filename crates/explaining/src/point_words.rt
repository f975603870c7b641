//! Ranges, measures and states in words.

use crate::scenes::Scene;
use crate::states::State;
use measure::Measure;
use model::{Range, Register};
use source_gaps::{code_on, push_place};
use std::alloc::AllocError;

/// From here on numbers are written in hexadecimal digits.
const LARGE: u32 = 1024;

/// Puts a word: small ones as decimal digits, others after `0x`.
pub(crate) fn push_number(to: &mut String, number: u32) -> Result<(), AllocError> {
    if number < LARGE {
        write!(to, "{number}")
    } else {
        write!(to, "{number:#x}")
    }
}

/// Whether a range has all values.
pub(crate) fn is_full(range: Range) -> bool {
    range.low == 0 && range.high == u32::MAX
}

/// Puts a range.
pub(crate) fn push_range(to: &mut String, range: Range) -> Result<(), AllocError> {
    let (low, high) = (range.low, range.high);
    if is_full(range) {
        to.push_str("anything")
    } else if low == high {
        push_number(to, low)
    } else if high < LARGE {
        write!(to, "{low}..{high}")
    } else {
        write!(to, "{low:#x}..{high:#x}")
    }
}

/// Puts a measure.
pub(crate) fn push_measure(to: &mut String, measure: &Measure) -> Result<(), AllocError> {
    let constant = measure.constant();
    write!(to, "{constant}")?;
    for term in measure.terms() {
        let sign = if term.coefficient < 0 { '-' } else { '+' };
        let times = term.coefficient.unsigned_abs();
        let register = term.register;
        if times == 1 {
            write!(to, " {sign} x{register}")?;
        } else {
            write!(to, " {sign} {times}*x{register}")?;
        }
    }
    Ok(())
}

/// Puts the range of a register, after others or as the first.
fn push_bound(to: &mut String, number: u8, range: Range, is_first: bool) -> Result<(), AllocError> {
    to.push_str(if is_first { "" } else { ", " })?;
    write!(to, "x{number} ")?;
    push_range(to, range)
}

/// Puts what is known of the registers that have not all values; those that are 0 can be left out.
fn push_bounds(to: &mut String, state: &State, leaves_zero: bool) -> Result<(), AllocError> {
    let mut is_first = true;
    for number in 1..32u8 {
        let range = state.bounds.get(Register(number));
        let is_left = is_full(range) || (leaves_zero && range.high == 0);
        if !is_left {
            push_bound(to, number, range, is_first)?;
            is_first = false;
        }
    }
    if is_first {
        to.push_str("nothing of the registers")?;
    }
    Ok(())
}

impl Scene<'_, '_, '_, '_, '_, '_, '_> {
    /// Puts a point as its line and its instruction.
    pub(crate) fn push_point(&self, to: &mut String, point: u32) -> Result<(), AllocError> {
        let line = self.line(point);
        let code = code_on(&self.text, line);
        write!(to, "line {line}, `{code}`")
    }

    /// Puts the place of a point in the text, and which rule is broken.
    pub(crate) fn push_rule(
        &self,
        to: &mut String,
        point: u32,
        rule: &str,
    ) -> Result<(), AllocError> {
        push_place(to, &self.text, self.line(point))?;
        write!(to, "{rule}: ")
    }

    /// Puts the head of a report on a point, after the place and the rule.
    pub(crate) fn push_head(&self, to: &mut String, point: u32) -> Result<(), AllocError> {
        let name = self.source.object_name(self.thread.tcb);
        let code = code_on(&self.text, self.line(point));
        write!(to, "thread {name}, `{code}`: ")
    }

    /// Puts the line of what is known at a point.
    pub(crate) fn push_state(&self, to: &mut String, state: &State) -> Result<(), AllocError> {
        to.push_str("  known here: ")?;
        push_bounds(to, state, self.known.is_some())?;
        if self.known.is_some() {
            return to.push_str("\n");
        }
        to.push_str("; measure ")?;
        push_measure(to, &state.measure)?;
        let budget = self.given.space.thread.header().budget;
        write!(to, "; budget {budget}\n")
    }
}
