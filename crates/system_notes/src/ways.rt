//! The ways on from points of a program.

use crate::calls::Call;
use crate::meetings::Meetings;
use model::Instr;
use rv32_isa::decode;
use std::alloc::{AllocError, Global};

/// A program, of which some points are reached.
#[derive(Clone, Copy)]
pub(crate) struct Program<'p> {
    pub(crate) words: &'p [u32],
    /// The points that are reached, which rise.
    pub(crate) reached: &'p [u32],
    /// The system calls, in the order of their points.
    pub(crate) calls: &'p [Call],
}

/// The point so many bytes further on.
fn point_after(point: u32, offset: i32) -> u32 {
    point.wrapping_add((offset >> 2).cast_unsigned())
}

impl Program<'_> {
    /// The points that follow a point, if it is reached.
    fn after(&self, point: u32) -> [Option<u32>; 2] {
        let next = Some(point.wrapping_add(1));
        let word = match self.words.get(point as usize) {
            Some(word) => *word,
            None => return [None, None],
        };
        match decode(word) {
            Some(Instr::Jal { offset, .. }) => [Some(point_after(point, offset)), None],
            Some(Instr::Branch { offset, .. }) => [Some(point_after(point, offset)), next],
            Some(Instr::Jalr { .. } | Instr::Ebreak) | None => [None, None],
            Some(_) => [next, None],
        }
    }

    /// The system call at a point, if it is one.
    pub(crate) fn call_at(&self, point: u32) -> Option<Call> {
        let place = self
            .calls
            .binary_search_by_key(&point, |call| call.point)
            .ok()?;
        match self.calls.get(place) {
            Some(call) => Some(*call),
            None => None,
        }
    }
}

/// The points that ways lead to.
#[derive(Drop)]
pub(crate) struct Visits<'p> {
    program: Program<'p>,
    seen: Vec<bool>,
    /// Those from which the ways on are still to be followed.
    open: Vec<u32>,
}

impl<'p> Visits<'p> {
    /// None.
    pub(crate) fn new(alloc: Global, program: Program<'p>) -> Result<Self, AllocError> {
        let mut seen = Vec::new(alloc);
        seen.resize(program.words.len(), false)?;
        Ok(Visits {
            program,
            seen,
            open: Vec::new(alloc),
        })
    }

    /// A point more, if it is reached and was not there.
    fn add(&mut self, point: u32) -> Result<(), AllocError> {
        if self.program.reached.binary_search(&point).is_err() {
            return Ok(());
        }
        match self.seen.get_mut(point as usize) {
            Some(mark) if !*mark => {
                *mark = true;
                self.open.push(point)?;
                Ok(())
            }
            _ => Ok(()),
        }
    }

    /// The points that follow a point.
    pub(crate) fn add_after(&mut self, point: u32) -> Result<(), AllocError> {
        for next in self.program.after(point) {
            if let Some(next) = next {
                self.add(next)?;
            }
        }
        Ok(())
    }

    /// The next point from which the ways on are to be followed.
    pub(crate) fn next(&mut self) -> Option<u32> {
        self.open.pop()
    }

    /// Whether a way leads to a point.
    pub(crate) fn has(&self, point: u32) -> bool {
        match self.seen.get(point as usize) {
            Some(mark) => *mark,
            None => false,
        }
    }
}

impl<'p> Program<'p> {
    /// The points that ways lead to from after the waits.
    pub(crate) fn reached_from_waits(&self, alloc: Global) -> Result<Visits<'p>, AllocError> {
        let mut visits = Visits::new(alloc, *self)?;
        for call in self.calls {
            if call.waits() {
                visits.add_after(call.point)?;
            }
        }
        for _ in 0..self.words.len() {
            let Some(point) = visits.next() else {
                break;
            };
            visits.add_after(point)?;
        }
        Ok(visits)
    }

    /// A call that receives again, to which a way leads without an answer from one of those that receive calls, if there is one.
    pub(crate) fn unanswered(
        &self,
        alloc: Global,
        meetings: &Meetings,
    ) -> Result<Option<Call>, AllocError> {
        let mut visits = Visits::new(alloc, *self)?;
        for call in self.calls {
            if call.receives_calls(meetings) {
                visits.add_after(call.point)?;
            }
        }
        for _ in 0..self.words.len() {
            let Some(point) = visits.next() else {
                break;
            };
            match self.call_at(point) {
                Some(call) if call.forgets => return Ok(Some(call)),
                Some(call) if call.answers => {}
                _ => visits.add_after(point)?,
            }
        }
        Ok(None)
    }
}
