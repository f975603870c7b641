//! What is missed at a thread's entry.

use crate::point_words::{push_measure, push_number, push_range};
use crate::scenes::Scene;
use crate::slot_gaps::Difference;
use crate::states::State;
use measure::value_at;
use model::{Range, Register};
use program_rules::AtPoint;
use std::alloc::AllocError;

/// Puts with what value a register starts.
fn push_start(to: &mut String, number: u8, value: u32) -> Result<(), AllocError> {
    write!(to, "  x{number} starts as ")?;
    push_number(to, value)?;
    to.push_str("; known at the entry is ")
}

/// Puts by how much a measure is above the budget at the start.
fn push_above(to: &mut String, value: i128, budget: u64, above: i128) -> Result<(), AllocError> {
    match (i64::try_from(value), i64::try_from(above)) {
        (Ok(value), Ok(above)) => write!(
            to,
            " is {value} at the start, above the budget {budget} by {above}\n"
        ),
        _ => write!(to, " is far above the budget {budget} at the start\n"),
    }
}

impl Scene<'_, '_, '_, '_, '_, '_, '_> {
    /// The values that the thread starts with.
    fn start_values(&self) -> [u32; 32] {
        let mut words = [0; 32];
        for entry in self.given.space.thread.registers() {
            if entry.register < 32 {
                words[entry.register as usize] = entry.value;
            }
        }
        words
    }

    /// Puts what says what is known at the entry.
    fn push_source(&self, to: &mut String, point: u32) -> Result<(), AllocError> {
        match self.record_line(point) {
            Some(line) => write!(to, ", as its record says (line {line})\n"),
            None => to.push_str(": put a record there\n"),
        }
    }

    /// Reports that a register starts with a value outside of its range.
    fn report_start(
        &self,
        to: &mut String,
        point: u32,
        number: u8,
        value: u32,
        range: Range,
    ) -> Result<(), AllocError> {
        push_start(to, number, value)?;
        push_range(to, range)?;
        self.push_source(to, point)
    }

    /// Reports which registers start outside of their ranges, and returns whether one does.
    fn report_starts(
        &self,
        to: &mut String,
        point: u32,
        state: &State,
    ) -> Result<bool, AllocError> {
        let words = self.start_values();
        let mut is_told = false;
        for number in 1..32u8 {
            let value = words[usize::from(number)];
            let range = state.bounds.get(Register(number));
            if value < range.low || value > range.high {
                self.report_start(to, point, number, value, range)?;
                is_told = true;
            }
        }
        Ok(is_told)
    }

    /// Reports that the measure at the entry is above the budget, and returns whether it is.
    fn report_budget(&self, to: &mut String, state: &State) -> Result<bool, AllocError> {
        let value = value_at(&state.measure, &self.start_values());
        let budget = self.given.space.thread.header().budget;
        let above = value.saturating_sub(i128::from(budget));
        if above <= 0 {
            return Ok(false);
        }
        to.push_str("  the measure")?;
        if !state.measure.terms().is_empty() {
            to.push_str(" ")?;
            push_measure(to, &state.measure)?;
        }
        push_above(to, value, budget, above)?;
        Ok(true)
    }

    /// Reports which slots at the entry differ from the image's, and returns whether one does.
    fn report_slots(&self, to: &mut String, point: u32, state: &State) -> Result<bool, AllocError> {
        let before = to.len();
        let difference = Difference {
            here: &[],
            there: &state.changes,
            record: self.record_line(point),
            target: None,
        };
        self.push_differences(to, &difference)?;
        Ok(to.len() > before)
    }

    /// Reports that the entry has no record.
    fn report_unnoted(&self, to: &mut String, point: u32) -> Result<(), AllocError> {
        self.push_head(to, point)?;
        let line = self.line(point);
        write!(
            to,
            "the entry has no record\n  put `measure NUMBER` before line {line}: at most so many instructions come before the next wait is done\n"
        )
    }

    /// Reports the first thing that is missed at the entry in a state, and returns whether something is.
    fn report_gap(&self, to: &mut String, point: u32, state: &State) -> Result<bool, AllocError> {
        if self.report_starts(to, point, state)? {
            return Ok(true);
        }
        if self.report_slots(to, point, state)? {
            return Ok(true);
        }
        self.report_budget(to, state)
    }

    /// Puts that the thread does not start as the record of its entry says, and what is missed.
    fn push_gap(&self, to: &mut String, point: u32, gap: &str) -> Result<(), AllocError> {
        self.push_head(to, point)?;
        to.push_str("the thread does not start as the entry's record says\n")?;
        to.push_str(gap)
    }

    /// Reports what is missed at the entry in a state, and returns whether something is.
    fn report_noted(&self, to: &mut String, point: u32, state: &State) -> Result<bool, AllocError> {
        let mut gap = String::new(self.alloc);
        let is_told = self.report_gap(&mut gap, point, state)?;
        if is_told {
            self.push_gap(to, point, &gap)?;
        }
        Ok(is_told)
    }

    /// Reports what is missed at the entry, and returns whether something is.
    pub(crate) fn report_entry(&self, to: &mut String, point: u32) -> Result<bool, AllocError> {
        if point != self.given.space.thread.header().entry {
            return Ok(false);
        }
        match self.state_at(point)? {
            AtPoint::Known(state) => self.report_noted(to, point, &state),
            AtPoint::Unmeasured | AtPoint::Missing => {
                self.report_unnoted(to, point)?;
                Ok(true)
            }
        }
    }
}
