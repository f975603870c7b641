//! Lines on how soon each level of a system rests.

use crate::lines::Report;
use responses::{Bound, LineParts, Reason, Response, Row, Share, Why};
use std::alloc::{AllocError, Global};

/// Whether a share is for interrupts of a line.
fn is_of_line(share: &Share, wanted: u32) -> bool {
    match share.reason {
        Reason::Comes { line, .. } => line == wanted,
        _ => false,
    }
}

/// A share without one interrupt of a line, which is told apart.
fn without_first(share: &Share, line: u32) -> Option<Share> {
    match share.reason {
        Reason::Comes { line: other, times } if other == line => {
            if times <= 1 {
                return None;
            }
            Some(Share {
                reason: Reason::Comes {
                    line,
                    times: times - 1,
                },
                steps: share.steps.saturating_sub(share.steps / times),
            })
        }
        _ => Some(*share),
    }
}

/// Shares, the greatest first; without one interrupt of a line, where that is told apart.
fn sorted_shares(
    alloc: Global,
    shares: &[Share],
    told: Option<u32>,
) -> Result<Vec<Share>, AllocError> {
    let mut sorted = Vec::new(alloc);
    for share in shares {
        let left = match told {
            Some(line) => without_first(share, line),
            None => Some(*share),
        };
        if let Some(left) = left {
            sorted.push(left)?;
        }
    }
    sorted.sort_by_key(|share| u64::MAX - share.steps)?;
    Ok(sorted)
}

impl<'t> Report<'_, 't> {
    /// Puts the names of the threads of a level.
    fn push_level(&mut self, priority: u32) -> Result<(), AllocError> {
        let mut before = " (";
        for (number, thread) in self.scene.text.threads.iter().enumerate() {
            if priority <= thread.priority {
                let name = self.thread(u32::try_from(number).unwrap_or(u32::MAX));
                write!(&mut self.to, "{before}{name}")?;
                before = ", ";
            }
        }
        self.to.push_str(")\n")
    }

    /// What the number of an interrupt of a line is made of: its own price, and what else there may be.
    pub(crate) fn say_parts(
        &mut self,
        shares: &[Share],
        parts: &LineParts,
    ) -> Result<(), AllocError> {
        let mut stretches = parts.stretches.clone()?;
        stretches.sort_by_key(|stretch| u64::MAX - stretch.steps)?;
        for stretch in &stretches {
            self.say_stretch(stretch)?;
        }
        let shares = sorted_shares(self.scene.alloc, shares, Some(parts.line))?;
        for share in &shares {
            self.say_share(share)?;
        }
        Ok(())
    }

    /// The name of the thread that a line's interrupts set going.
    pub(crate) fn thread_of(&self, parts: &LineParts) -> &'t str {
        match parts.stretches.first() {
            Some(stretch) => self.thread(stretch.thread),
            None => "?",
        }
    }

    /// Within how many instructions an interrupt of a line is dealt with, and what that is made of.
    fn say_line(
        &mut self,
        bound: &Bound,
        shares: &[Share],
        parts: &LineParts,
    ) -> Result<(), AllocError> {
        self.to.push_str("  ")?;
        self.push_line(parts.line)?;
        let (steps, name) = (bound.later, self.thread_of(parts));
        write!(
            &mut self.to,
            ": {name} rests again within {steps} instructions\n"
        )?;
        self.say_parts(shares, parts)
    }

    /// The lines that cost a level something, and are not known to be dealt with; and whether there is one.
    fn say_other_lines(&mut self, row: &Row) -> Result<bool, AllocError> {
        let mut is_any = false;
        for share in &row.parts.shares {
            if let Reason::Comes { line, .. } = share.reason {
                if !row.parts.lines.iter().any(|parts| parts.line == line) {
                    self.to.push_str("  ")?;
                    self.push_line(line)?;
                    self.to.push_str(": not known to be dealt with\n")?;
                    is_any = true;
                }
            }
        }
        Ok(is_any)
    }

    /// The bound of a level.
    fn say_bound(&mut self, row: &Row, bound: &Bound) -> Result<(), AllocError> {
        let (priority, steps, later) = (row.priority, bound.steps, bound.later);
        write!(
            &mut self.to,
            "priority {priority} and above: at most {steps} instructions on end"
        )?;
        self.push_level(priority)?;
        for parts in &row.parts.lines {
            if row
                .parts
                .shares
                .iter()
                .any(|share| is_of_line(share, parts.line))
            {
                self.say_line(bound, row.parts.shares.as_slice(), parts)?;
            }
        }
        if self.say_other_lines(row)? || row.parts.lines.is_empty() {
            write!(
                &mut self.to,
                "  once rested: at most {later} instructions on end\n"
            )?;
            let shares = sorted_shares(self.scene.alloc, row.parts.shares.as_slice(), None)?;
            for share in &shares {
                self.say_share(share)?;
            }
        }
        Ok(())
    }

    /// What one interrupt of a line costs that comes more often than there is time for.
    fn say_cost(&mut self, line: u32, cost: u64, is_alone: bool) -> Result<(), AllocError> {
        for rate in self.scene.rates {
            if rate.line == line && (!is_alone || rate.period <= cost) {
                let period = rate.period;
                write!(
                    &mut self.to,
                    "    line {line} comes every {period} instructions, and one costs {cost}\n"
                )?;
            }
        }
        Ok(())
    }

    /// Whether a share of one interrupt is at least the period of its line.
    fn is_too_dear(&self, share: &Share) -> bool {
        self.scene.rates.iter().any(|rate| is_of_line(share, rate.line)
            && rate.period <= share.steps)
    }

    /// Why rates ask for too much: lines that do by themselves, or else all lines.
    pub(crate) fn say_too_much(&mut self, priority: u32) -> Result<(), AllocError> {
        let Some(costs) = self.costs else {
            return Ok(());
        };
        for row in &costs.rows {
            if row.priority == priority {
                let is_alone = row.parts.shares.iter().any(|share| self.is_too_dear(share));
                for share in &row.parts.shares {
                    if let Reason::Comes { line, .. } = share.reason {
                        self.say_cost(line, share.steps, is_alone)?;
                    }
                }
            }
        }
        Ok(())
    }

    /// Why there is no bound.
    pub(crate) fn say_why(&mut self, why: Why) -> Result<(), AllocError> {
        match why {
            Why::Rises(at) => {
                let name = self.thread(at.thread);
                write!(&mut self.to, "    what {name} sets going from ")?;
                self.push_place(at)?;
                self.to.push_str(
                    " on has no end: something keeps itself going, or is rung, sent to or called in a loop\n",
                )
            }
            Why::NoRate(line) => {
                self.to.push_str("    ")?;
                self.push_line(line)?;
                self.to.push_str(
                    " costs these parts something, and how often it comes is not said\n",
                )
            }
            Why::OutOfRange => self.to.push_str("    numbers are too great\n"),
        }
    }

    /// A level.
    pub(crate) fn say_row(&mut self, row: &Row) -> Result<(), AllocError> {
        let priority = row.priority;
        match &row.response {
            Response::Bound(bound) => self.say_bound(row, bound),
            Response::NoBound(why) => {
                write!(&mut self.to, "priority {priority} and above: no bound\n")?;
                self.say_why(*why)
            }
            Response::TooMuch => {
                write!(
                    &mut self.to,
                    "priority {priority} and above: no bound at these rates\n"
                )?;
                self.say_too_much(priority)
            }
        }
    }
}
