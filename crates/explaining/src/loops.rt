//! Loops without a measure: why nothing counts their turns.

use crate::causes::{is_step, origin_words, written_by};
use crate::point_words::push_range;
use crate::scenes::Scene;
use crate::ways::Way;
use model::{ImmediateOp, Instr};
use program_rules::AtPoint;
use std::alloc::AllocError;

/// A loop without a measure.
#[derive(Clone, Copy)]
pub(crate) struct Loop<'p> {
    /// Where it is entered.
    pub(crate) header: u32,
    /// Its points, which rise.
    pub(crate) points: &'p [u32],
}

impl Loop<'_> {
    /// Whether a point is in it.
    fn has(&self, point: u32) -> bool {
        self.points.binary_search(&point).is_ok()
    }
}

/// Whether a point is not in a loop.
fn is_outside(of: &Loop<'_>, point: Option<u32>) -> bool {
    match point {
        Some(point) => !of.has(point),
        None => false,
    }
}

/// By how much an instruction raises the register that it writes, if that is a number of its own.
fn stride(instr: Instr) -> Option<i32> {
    match instr {
        Instr::Immediate {
            op: ImmediateOp::Addi,
            immediate,
            ..
        } => Some(immediate),
        _ => None,
    }
}

/// Puts what an instruction does that neither raises nor lowers the register that it writes.
fn push_other(to: &mut String, instr: Instr) -> Result<(), AllocError> {
    match instr {
        Instr::Immediate {
            op: ImmediateOp::Addi,
            rd,
            rs1,
            immediate,
        } if rs1.0 != 0 => {
            let (own, other) = (rd.0, rs1.0);
            if immediate == 0 {
                write!(to, ", which copies x{other}\n")
            } else {
                write!(to, ", which adds to x{other} and not to x{own} itself\n")
            }
        }
        _ => to.push_str(", which adds no number to it and takes none from it\n"),
    }
}

impl Scene<'_, '_, '_, '_, '_, '_, '_> {
    /// The first point of a loop that writes a register, and what it does.
    fn turn_of(&self, of: &Loop<'_>, register: u8) -> Option<(u32, Instr)> {
        for point in of.points {
            if let Some(instr) = self.instruction_at(*point) {
                if written_by(instr) == Some(register) {
                    return Some((*point, instr));
                }
            }
        }
        None
    }

    /// Puts that a register is raised in each turn, and from where on.
    fn push_step(
        &self,
        to: &mut String,
        of: &Loop<'_>,
        register: u8,
        point: u32,
        instr: Instr,
    ) -> Result<(), AllocError> {
        write!(to, "  x{register} changes ")?;
        if let Some(stride) = stride(instr) {
            write!(to, "by {stride} ")?;
        }
        to.push_str("on ")?;
        self.push_point(to, point)?;
        to.push_str("; where the loop begins it is ")?;
        push_range(to, self.range_before(of.header, register)?)?;
        to.push_str("\n")?;
        self.push_full_cause(to, of.header, register)
    }

    /// Puts that a register is written anew in each turn.
    fn push_anew(&self, to: &mut String, point: u32, instr: Instr) -> Result<(), AllocError> {
        match origin_words(instr) {
            Some(origin) => {
                to.push_str(origin)?;
                self.push_point(to, point)?;
                to.push_str(", so it can be anything in each turn\n")
            }
            None => {
                to.push_str("written on ")?;
                self.push_point(to, point)?;
                push_other(to, instr)
            }
        }
    }

    /// Puts what becomes of a register in each turn.
    fn push_turn(&self, to: &mut String, of: &Loop<'_>, register: u8) -> Result<(), AllocError> {
        match self.turn_of(of, register) {
            None => self.push_unwritten(to, of, register),
            Some((point, instr)) if is_step(instr) => {
                self.push_step(to, of, register, point, instr)
            }
            Some((point, instr)) => {
                write!(to, "  x{register} is ")?;
                self.push_anew(to, point, instr)
            }
        }
    }

    /// Puts that no turn changes a register, or that a call does.
    fn push_unwritten(
        &self,
        to: &mut String,
        of: &Loop<'_>,
        register: u8,
    ) -> Result<(), AllocError> {
        write!(to, "  x{register} is ")?;
        push_range(to, self.range_before(of.header, register)?)?;
        to.push_str(", and no instruction of the loop changes it\n")?;
        self.push_full_cause(to, of.header, register)
    }

    /// Whether an address is that of a point of a loop.
    fn is_inside(&self, of: &Loop<'_>, address: u32) -> bool {
        match self.point_at(address) {
            Some(point) => of.has(point),
            None => false,
        }
    }

    /// Whether one of some ways leads out of a loop.
    fn has_way_out(&self, of: &Loop<'_>, ways: &[Way]) -> bool {
        for way in ways {
            if !self.is_inside(of, way.target) {
                return true;
            }
        }
        false
    }

    /// Whether a way leads out of a loop from a point.
    fn leads_out(&self, of: &Loop<'_>, point: u32) -> Result<bool, AllocError> {
        match self.state_at(point)? {
            AtPoint::Known(state) => {
                let ways = self.ways(point, &state)?;
                Ok(self.has_way_out(of, &ways))
            }
            AtPoint::Unmeasured | AtPoint::Missing => Ok(false),
        }
    }

    /// Whether an instruction of a loop would lead out of it for some values of its registers.
    fn may_lead_out(&self, of: &Loop<'_>, point: u32) -> bool {
        match self.instruction_at(point) {
            Some(instr) if matches!(instr, Instr::Branch { .. }) => {
                let [taken, next] = self.leads(point, instr);
                is_outside(of, taken) || is_outside(of, next)
            }
            _ => false,
        }
    }

    /// Puts what becomes of two registers in each turn, but for x0.
    fn push_turns(
        &self,
        to: &mut String,
        of: &Loop<'_>,
        registers: [u8; 2],
    ) -> Result<(), AllocError> {
        for register in registers {
            if register != 0 {
                self.push_turn(to, of, register)?;
            }
        }
        Ok(())
    }

    /// Puts on what a way out of a loop depends.
    fn push_exit(
        &self,
        to: &mut String,
        of: &Loop<'_>,
        point: u32,
        head: &str,
    ) -> Result<(), AllocError> {
        to.push_str(head)?;
        self.push_point(to, point)?;
        to.push_str("\n")?;
        match self.instruction_at(point) {
            Some(Instr::Branch { rs1, rs2, .. }) => self.push_turns(to, of, [rs1.0, rs2.0]),
            _ => Ok(()),
        }
    }

    /// Puts on what the way out of a loop at a point depends, if there can be one, and returns whether there is one.
    fn push_exit_at(&self, to: &mut String, of: &Loop<'_>, point: u32) -> Result<bool, AllocError> {
        if self.leads_out(of, point)? {
            self.push_exit(to, of, point, "  a way out is on ")?;
            return Ok(true);
        }
        if self.may_lead_out(of, point) {
            self.push_exit(to, of, point, "  never left on ")?;
        }
        Ok(false)
    }

    /// Puts on what the ways out of a loop depend, and returns whether there are some.
    fn push_exits(&self, to: &mut String, of: &Loop<'_>) -> Result<bool, AllocError> {
        let mut some = false;
        for point in of.points {
            if self.push_exit_at(to, of, *point)? {
                some = true;
            }
        }
        Ok(some)
    }

    /// Puts from which line to which a loop goes.
    fn push_lines(&self, to: &mut String, of: &Loop<'_>) -> Result<(), AllocError> {
        let mut first = u64::MAX;
        let mut last = 0u64;
        for point in of.points {
            let line = self.line(*point);
            first = first.min(line);
            last = last.max(line);
        }
        if first == last {
            write!(to, "(line {first})")
        } else {
            write!(to, "(lines {first} to {last})")
        }
    }

    /// Reports why nothing counts the turns of a loop with points, after its head.
    fn report_turns(&self, to: &mut String, of: &Loop<'_>) -> Result<(), AllocError> {
        to.push_str("no wait on this loop ")?;
        self.push_lines(to, of)?;
        to.push_str(", and no register counts its turns\n")?;
        let is_left = self.push_exits(to, of)?;
        to.push_str(if is_left {
            "  count the turns in a register with a known range, down to 0 or up to a limit\n"
        } else {
            "  no way leads out of it: put a wait (Recv) on it, or a branch that ends it\n"
        })
    }

    /// Reports why nothing counts the turns of a loop.
    pub(crate) fn report_loop(&self, to: &mut String, of: &Loop<'_>) -> Result<(), AllocError> {
        self.push_rule(to, of.header, "NoMeasure")?;
        self.push_head(to, of.header)?;
        if of.points.is_empty() {
            to.push_str(
                "no measure of at most four registers is found: a loop with fewer counters has one\n",
            )
        } else {
            self.report_turns(to, of)
        }
    }
}
