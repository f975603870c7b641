//! Why a register can have many values: what writes it, and what that comes from.

use crate::point_words::{is_full, push_range};
use crate::scenes::Scene;
use crate::states::State;
use model::{ImmediateOp, Instr, Range, RegisterOp};
use program_rules::{AtPoint, registers_of};
use rv32_isa::decode;
use std::alloc::{AllocError, Global};
use typestate::Written;

/// How many instructions are named at most of which a value comes.
const MOST_STEPS: u32 = 4;

/// What is in a register after an instruction that writes it.
#[derive(Clone, Copy)]
pub(crate) struct Write {
    pub(crate) point: u32,
    pub(crate) instr: Instr,
    pub(crate) range: Range,
}

/// How many values a range has, less one.
fn width(range: Range) -> u32 {
    range.high.saturating_sub(range.low)
}

/// The register that an instruction writes, if it is no system call.
pub(crate) fn written_by(instr: Instr) -> Option<u8> {
    match instr {
        Instr::Upper { rd, .. }
        | Instr::Jal { rd, .. }
        | Instr::Jalr { rd, .. }
        | Instr::Load { rd, .. }
        | Instr::Immediate { rd, .. }
        | Instr::Shift { rd, .. }
        | Instr::Registers { rd, .. } => Some(rd.0),
        Instr::Branch { .. } | Instr::Store { .. } | Instr::Fence | Instr::Ecall | Instr::Ebreak =>
            None,
    }
}

/// The registers of which an instruction computes what it writes; 0 for none.
fn operands(instr: Instr) -> [u8; 2] {
    match instr {
        Instr::Immediate { rs1, .. } | Instr::Shift { rs1, .. } => [rs1.0, 0],
        Instr::Registers { rs1, rs2, .. } => [rs1.0, rs2.0],
        _ => [0, 0],
    }
}

/// Whether an instruction adds to the register that it writes, or takes from it.
pub(crate) fn is_step(instr: Instr) -> bool {
    match instr {
        Instr::Immediate {
            op: ImmediateOp::Addi,
            rd,
            rs1,
            ..
        } => rd.0 == rs1.0,
        Instr::Registers {
            op: RegisterOp::Add,
            rd,
            rs1,
            rs2,
        } => rd.0 == rs1.0 || rd.0 == rs2.0,
        Instr::Registers {
            op: RegisterOp::Sub,
            rd,
            rs1,
            ..
        } => rd.0 == rs1.0,
        _ => false,
    }
}

/// Where what an instruction writes comes from, if it is computed of no register: the stack has its address in x2.
pub(crate) fn origin_words(instr: Instr) -> Option<&'static str> {
    match instr {
        Instr::Load { rs1, .. } if rs1.0 == 2 => Some("loaded from the stack on "),
        Instr::Load { .. } => Some("loaded from memory on "),
        Instr::Ecall => Some("what the call leaves on "),
        _ => None,
    }
}

/// Puts that a register can have the values of a range.
fn push_can_be(to: &mut String, range: Range) -> Result<(), AllocError> {
    to.push_str(", so it can be ")?;
    push_range(to, range)?;
    to.push_str("\n")
}

/// Whether a register is one of those that a system call writes.
fn is_written(written: Written, register: u8) -> bool {
    for one in registers_of(written) {
        if one.0 == register {
            return true;
        }
    }
    false
}

/// The points that are looked at.
#[derive(Drop)]
struct Visits {
    seen: Vec<bool>,
    /// Those that are still to be looked at.
    stack: Vec<u32>,
}

/// A mark for each of so many points.
fn marks(alloc: Global, count: usize) -> Result<Vec<bool>, AllocError> {
    let mut marks = Vec::new(alloc);
    marks.resize(count, false)?;
    Ok(marks)
}

impl Visits {
    /// None of so many points.
    fn new(alloc: Global, count: usize) -> Result<Self, AllocError> {
        Ok(Visits {
            seen: marks(alloc, count)?,
            stack: Vec::new(alloc),
        })
    }

    /// Adds a point, unless it was added before.
    fn add(&mut self, point: u32) -> Result<(), AllocError> {
        match self.seen.get_mut(point as usize) {
            Some(mark) if !*mark => {
                *mark = true;
                self.stack.push(point)?;
                Ok(())
            }
            _ => Ok(()),
        }
    }

    /// Adds the points that lead to a point.
    fn add_sources(&mut self, into: &[Vec<u32>], point: u32) -> Result<(), AllocError> {
        if let Some(sources) = into.get(point as usize) {
            for source in sources {
                self.add(*source)?;
            }
        }
        Ok(())
    }
}

/// A list for each of so many points.
fn lists(alloc: Global, count: u32) -> Result<Vec<Vec<u32>>, AllocError> {
    let mut lists = Vec::new(alloc);
    for _ in 0..count {
        lists.push(Vec::new(alloc))?;
    }
    Ok(lists)
}

/// Notes that a point is led to from another.
fn note_source(into: &mut Vec<Vec<u32>>, from: u32, target: Option<u32>) -> Result<(), AllocError> {
    let Some(target) = target else {
        return Ok(());
    };
    match into.get_mut(target as usize) {
        Some(sources) => {
            sources.push(from)?;
            Ok(())
        }
        None => Ok(()),
    }
}

/// An offset as what is added to an address.
fn distance(offset: i32) -> u32 {
    offset.cast_unsigned()
}

impl Scene<'_, '_, '_, '_, '_, '_, '_> {
    /// The instruction at a point, if there is one.
    pub(crate) fn instruction_at(&self, point: u32) -> Option<Instr> {
        if point < self.given.space.thread.word_count() {
            decode(self.given.space.thread.word(point))
        } else {
            None
        }
    }

    /// Where an instruction at a point leads: by a jump, and to the next one.
    pub(crate) fn leads(&self, point: u32, instr: Instr) -> [Option<u32>; 2] {
        let here = self.address(point);
        let next = self.point_at(here.wrapping_add(4));
        match instr {
            Instr::Jal { offset, .. } => [self.point_at(here.wrapping_add(distance(offset))), None],
            Instr::Branch { offset, .. } => {
                [self.point_at(here.wrapping_add(distance(offset))), next]
            }
            Instr::Jalr { .. } | Instr::Ebreak => [None, None],
            _ => [next, None],
        }
    }

    /// Notes where the instruction at a point leads.
    fn note_leads(&self, into: &mut Vec<Vec<u32>>, point: u32) -> Result<(), AllocError> {
        let Some(instr) = self.instruction_at(point) else {
            return Ok(());
        };
        let [taken, next] = self.leads(point, instr);
        note_source(into, point, taken)?;
        note_source(into, point, next)
    }

    /// From which points each point is led to.
    fn sources(&self) -> Result<Vec<Vec<u32>>, AllocError> {
        let count = self.given.space.thread.word_count();
        let mut into = lists(self.alloc, count)?;
        for point in 0..count {
            self.note_leads(&mut into, point)?;
        }
        Ok(into)
    }

    /// Whether the system call at a point writes a register.
    fn call_writes(&self, point: u32, state: &State, register: u8) -> Result<bool, AllocError> {
        match &self.called(point, state)? {
            Ok(called) => Ok(is_written(called.behind.written, register)),
            Err(_) => Ok(false),
        }
    }

    /// Whether a point writes a register.
    fn writes(&self, point: u32, instr: Instr, register: u8) -> Result<bool, AllocError> {
        if register == 0 {
            return Ok(false);
        }
        if !matches!(instr, Instr::Ecall) {
            return Ok(written_by(instr) == Some(register));
        }
        match self.state_at(point)? {
            AtPoint::Known(state) => self.call_writes(point, &state, register),
            AtPoint::Unmeasured | AtPoint::Missing => Ok(false),
        }
    }

    /// What a register holds after a point that writes it.
    fn range_after(&self, point: u32, register: u8) -> Result<Range, AllocError> {
        let AtPoint::Known(state) = self.state_at(point)? else {
            return Ok(Range::FULL);
        };
        let ways = self.ways(point, &state)?;
        match ways.first() {
            Some(way) if register < 32 => Ok(way.behind.get(model::Register(register))),
            _ => Ok(Range::FULL),
        }
    }

    /// What a register holds before a point.
    pub(crate) fn range_before(&self, point: u32, register: u8) -> Result<Range, AllocError> {
        match self.state_at(point)? {
            AtPoint::Known(state) if register < 32 => {
                Ok(state.bounds.get(model::Register(register)))
            }
            _ => Ok(Range::FULL),
        }
    }

    /// What a point writes to a register, if it does.
    fn write_at(&self, point: u32, register: u8) -> Result<Option<Write>, AllocError> {
        let Some(instr) = self.instruction_at(point) else {
            return Ok(None);
        };
        if !self.writes(point, instr, register)? {
            return Ok(None);
        }
        Ok(Some(Write {
            point,
            instr,
            range: self.range_after(point, register)?,
        }))
    }

    /// Of what is written to a register at points that are visited, that with the most values. Where a point does not write it, those
    /// that lead there are visited too.
    fn widest_of(
        &self,
        into: &[Vec<u32>],
        register: u8,
        visits: &mut Visits,
    ) -> Result<Option<Write>, AllocError> {
        let mut widest: Option<Write> = None;
        for _ in 0..into.len() {
            let Some(source) = visits.stack.pop() else {
                break;
            };
            match self.write_at(source, register)? {
                Some(write) => widest = Some(wider(widest, write)),
                None => visits.add_sources(into, source)?,
            }
        }
        Ok(widest)
    }

    /// Of what is written to a register on the ways to a point, with no other write after it, that with the most values.
    fn widest_write(
        &self,
        into: &[Vec<u32>],
        point: u32,
        register: u8,
    ) -> Result<Option<Write>, AllocError> {
        let mut visits = Visits::new(self.alloc, into.len())?;
        visits.add_sources(into, point)?;
        self.widest_of(into, register, &mut visits)
    }

    /// Of the registers of which a write is computed, that with the most values, if one has more than one.
    fn widest_operand(&self, write: &Write) -> Result<Option<u8>, AllocError> {
        let mut widest = None;
        let mut most = 0u32;
        for operand in operands(write.instr) {
            let values = width(self.range_before(write.point, operand)?);
            if operand != 0 && most < values {
                widest = Some(operand);
                most = values;
            }
        }
        Ok(widest)
    }

    /// Puts that a value comes from elsewhere, and what it can be.
    fn push_origin(&self, to: &mut String, origin: &str, write: &Write) -> Result<(), AllocError> {
        to.push_str(origin)?;
        self.push_point(to, write.point)?;
        push_can_be(to, write.range)
    }

    /// Puts where a value is computed, and returns of which register it comes, if that is still to be explained.
    fn push_computed(&self, to: &mut String, write: &Write) -> Result<Option<u8>, AllocError> {
        to.push_str("written on ")?;
        self.push_point(to, write.point)?;
        if is_step(write.instr) {
            to.push_str(", again and again: no branch before it keeps it in bounds\n")?;
            return Ok(None);
        }
        let operand = self.widest_operand(write)?;
        self.push_operand(to, write, operand)?;
        Ok(operand)
    }

    /// Puts what writes a register, and returns of which register that comes, if that is still to be explained.
    fn push_write(
        &self,
        to: &mut String,
        register: u8,
        write: &Write,
    ) -> Result<Option<u8>, AllocError> {
        write!(to, "  x{register} is ")?;
        match origin_words(write.instr) {
            Some(origin) => {
                self.push_origin(to, origin, write)?;
                Ok(None)
            }
            None => self.push_computed(to, write),
        }
    }

    /// Puts of which register a write comes.
    fn push_operand(
        &self,
        to: &mut String,
        write: &Write,
        operand: Option<u8>,
    ) -> Result<(), AllocError> {
        match operand {
            Some(operand) => {
                write!(to, ", where x{operand} is ")?;
                push_range(to, self.range_before(write.point, operand)?)?;
                to.push_str("\n")
            }
            None => push_can_be(to, write.range),
        }
    }

    /// Puts what writes a register on the ways to a point, if it can have more than one value, and returns the point of that and the
    /// register that it comes of, if that is still to be explained.
    fn push_step_back(
        &self,
        to: &mut String,
        into: &[Vec<u32>],
        point: u32,
        register: u8,
    ) -> Result<Option<(u32, u8)>, AllocError> {
        match self.widest_write(into, point, register)? {
            Some(write) if width(write.range) > 0 => {
                let operand = self.push_write(to, register, &write)?;
                match operand {
                    Some(operand) => Ok(Some((write.point, operand))),
                    None => Ok(None),
                }
            }
            _ => Ok(None),
        }
    }

    /// Puts what writes a register on the ways to a point, and what that comes from, step by step.
    fn push_steps_back(
        &self,
        to: &mut String,
        into: &[Vec<u32>],
        point: u32,
        register: u8,
    ) -> Result<(), AllocError> {
        let mut at = point;
        let mut wanted = register;
        for _ in 0..MOST_STEPS {
            let Some((before, operand)) = self.push_step_back(to, into, at, wanted)? else {
                break;
            };
            at = before;
            wanted = operand;
        }
        Ok(())
    }

    /// Puts why a register can have many values before a point: what writes it, and what that comes from.
    pub(crate) fn push_cause(
        &self,
        to: &mut String,
        point: u32,
        register: u8,
    ) -> Result<(), AllocError> {
        let into = self.sources()?;
        self.push_steps_back(to, &into, point, register)
    }

    /// Puts why a register can have any value before a point, if it can.
    pub(crate) fn push_full_cause(
        &self,
        to: &mut String,
        point: u32,
        register: u8,
    ) -> Result<(), AllocError> {
        if is_full(self.range_before(point, register)?) {
            self.push_cause(to, point, register)?;
        }
        Ok(())
    }
}

/// Of two writes that with more values; where both have as many, one that does not add to what was there.
fn wider(first: Option<Write>, second: Write) -> Write {
    match first {
        Some(first) if width(second.range) < width(first.range) => first,
        Some(first) if width(second.range) == width(first.range) && is_step(second.instr) => first,
        _ => second,
    }
}
