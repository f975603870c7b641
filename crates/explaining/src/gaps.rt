//! What is missed on the ways on from a point.

use crate::point_words::{push_measure, push_range};
use crate::scenes::Scene;
use crate::slot_gaps::Difference;
use crate::states::State;
use crate::ways::{Miss, Way};
use measure::least;
use model::Register;
use program_rules::AtPoint;
use std::alloc::AllocError;

/// Puts by how much a measure misses.
fn push_miss(to: &mut String, way: &Way, miss: &Miss) -> Result<(), AllocError> {
    match miss {
        Miss::By(number) if way.is_wait => write!(to, ", above it by {number}"),
        Miss::By(number) => write!(to, ": it has to fall by 1, and misses that by {number}"),
        _ => to.push_str(", which no constant makes good: a register there can have any value"),
    }
}

impl Scene<'_, '_, '_, '_, '_, '_, '_> {
    /// The line of the record of a point.
    pub(crate) fn record_line(&self, point: u32) -> Option<u64> {
        self.thread.record_line(point as usize)
    }

    /// Puts who says what is known at a point.
    fn push_whose(&self, to: &mut String, point: u32) -> Result<(), AllocError> {
        match self.record_line(point) {
            Some(line) => write!(to, ", as its record says (line {line})\n"),
            None => to.push_str(
                ", as follows from the point before it: put a record there, with what all ways to it keep\n",
            ),
        }
    }

    /// Reports which ranges are left on a way.
    fn report_ranges(
        &self,
        to: &mut String,
        way: &Way,
        target: u32,
        there: &State,
    ) -> Result<(), AllocError> {
        for number in 1..32u8 {
            let register = Register(number);
            let (here, wanted) = (way.behind.get(register), there.bounds.get(register));
            if !here.is_within(wanted) {
                write!(to, "  x{number} is ")?;
                push_range(to, here)?;
                to.push_str(" on the way to ")?;
                self.push_point(to, target)?;
                to.push_str(", where it is ")?;
                push_range(to, wanted)?;
                self.push_whose(to, target)?;
            }
        }
        Ok(())
    }

    /// Reports by how much a measure misses.
    fn report_measures(
        &self,
        to: &mut String,
        way: &Way,
        state: &State,
        target: u32,
        there: &State,
    ) -> Result<(), AllocError> {
        let budget = self.given.space.thread.header().budget;
        let miss = way.miss(budget, &state.measure, &there.measure);
        if let Miss::Nothing = miss {
            return Ok(());
        }
        to.push_str("  on the way to ")?;
        self.push_point(to, target)?;
        if way.is_wait {
            write!(to, ": the budget is {budget}, and the measure there ")?;
        } else {
            to.push_str(": the measure is ")?;
            push_measure(to, &state.measure)?;
            to.push_str(" here, and there ")?;
        }
        push_measure(to, &there.measure)?;
        push_miss(to, way, &miss)?;
        self.push_record(to, target)
    }

    /// Puts where the record of a point is.
    fn push_record(&self, to: &mut String, point: u32) -> Result<(), AllocError> {
        match self.record_line(point) {
            Some(line) => write!(to, "; the record there is on line {line}\n"),
            None => to.push_str(
                "; no record is there: put one there, or raise the constants before it\n",
            ),
        }
    }

    /// Reports what is missed on a way to a point of which something is known.
    fn report_known(
        &self,
        to: &mut String,
        way: &Way,
        state: &State,
        target: u32,
        there: &State,
    ) -> Result<(), AllocError> {
        if self.known.is_none() {
            self.report_ranges(to, way, target, there)?;
        }
        let difference = Difference {
            here: &way.changes,
            there: &there.changes,
            record: self.record_line(target),
            target: Some(target),
        };
        self.push_differences(to, &difference)?;
        if self.known.is_some() {
            return Ok(());
        }
        self.report_measures(to, way, state, target, there)
    }

    /// Reports what is missed on a way.
    fn report_way(
        &self,
        to: &mut String,
        point: u32,
        way: &Way,
        state: &State,
    ) -> Result<(), AllocError> {
        let Some(target) = self.point_at(way.target) else {
            return to.push_str(
                "  the way on leaves the program after its last word: end it with a jump\n",
            );
        };
        match self.state_at(target)? {
            AtPoint::Known(there) => self.report_known(to, way, state, target, &there),
            AtPoint::Unmeasured => {
                to.push_str("  after it comes ")?;
                self.push_point(to, target)?;
                let writer = target.saturating_sub(1);
                if writer == point {
                    to.push_str(
                        "; this instruction writes a register of its measure, so nothing is known there: put a record there\n",
                    )
                } else {
                    to.push_str(
                        "; the point before it writes a register of its measure: put a record there\n",
                    )
                }
            }
            AtPoint::Missing => {
                to.push_str("  it leads to ")?;
                self.push_point(to, target)?;
                to.push_str(", where nothing is known: put a record there\n")
            }
        }
    }

    /// Reports what is missed on all ways on from a point, and what is known there.
    pub(crate) fn report_ways(
        &self,
        to: &mut String,
        point: u32,
        state: &State,
    ) -> Result<(), AllocError> {
        let ways = self.ways(point, state)?;
        for way in &ways {
            self.report_way(to, point, way, state)?;
        }
        self.push_state(to, state)
    }

    /// Reports that the measure at a point is too small by itself, if it is.
    pub(crate) fn report_least(&self, to: &mut String, state: &State) -> Result<(), AllocError> {
        let least = least(&state.measure, &state.bounds);
        if least < 1 {
            let by = 1i128.saturating_sub(least);
            to.push_str("  the measure ")?;
            push_measure(to, &state.measure)?;
            push_least(to, least, by)?;
        }
        Ok(())
    }
}

/// Puts the least value of a measure, and by how much it is too small.
fn push_least(to: &mut String, least: i128, by: i128) -> Result<(), AllocError> {
    let (Ok(least), Ok(by)) = (i64::try_from(least), i64::try_from(by)) else {
        return to.push_str(" can be far below 1 here\n");
    };
    write!(
        to,
        " can be {least} here; it has to be 1 or more: raise the constant by {by}, here and along the way back from here\n"
    )
}
