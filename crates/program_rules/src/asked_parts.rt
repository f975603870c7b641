//! The parts of the log that ways are asked for.

ghost use Rattle.std.specs.Prelude.{IfOk};
ghost use Rattle.part_roots.specs.Rooted.{AreRooted};

use crate::kept_points::KeptPoints;
use crate::places::Place;
use crate::points::Points;
use crate::programs::Program;
use model::Instr;
use part_roots::PartRoots;
use rv32_isa::decode;
use std::alloc::AllocError;
use typestate::{Part, SlotLog};

/// Marks a point, if it is one of the program's.
fn mark(marks: &mut [bool], point: u32) {
    let place = point as usize;
    if place < marks.len() {
        marks[place] = true;
    }
}

/// Whether a point is marked.
fn is_marked(marks: &[bool], point: u32) -> bool {
    let place = point as usize;
    place < marks.len() && marks[place]
}

/// How far an instruction jumps, if it may.
fn jump_of(instr: Option<Instr>) -> Option<i32> {
    match instr {
        Some(Instr::Jal { offset, .. }) => Some(offset),
        Some(Instr::Branch { offset, .. }) => Some(offset),
        _ => None,
    }
}

impl KeptPoints<'_> {
    /// The part of the state at a place, by that of the point before.
    fn part_at(&self, place: Place, before: Option<Part>) -> Option<Part> {
        match place {
            Place::Missing | Place::Unmeasured => None,
            Place::Whole(at) => Some(self.whole.get(at as usize)?.part),
            Place::Recorded(at) | Place::Clean(at) => {
                Some(self.recorded.get(at as usize)?.part.part())
            }
            Place::Plain => before,
            Place::Called(at) => Some(self.called.get(at as usize)?.part.part()),
        }
    }
}

impl Program<'_, '_> {
    /// Marks the point of an instruction that may jump, and where it may jump to.
    fn mark_jump(&self, marks: &mut [bool], point: u32) {
        if point >= self.given.space.thread.word_count() {
            return;
        }
        if let Some(offset) = jump_of(decode(self.given.space.thread.word(point))) {
            mark(marks, point);
            let target = self.address(point).wrapping_add(offset.cast_unsigned());
            if let Some(there) = self.point_at(target) {
                mark(marks, there);
            }
        }
    }

    /// Which points have ways on whose slots are compared, or are led to by them: those of jumps and branches, and of records. Memory may
    /// be refused.
    fn asked(&self) -> Result<Vec<bool>, AllocError> {
        let mut marks = Vec::new(self.alloc);
        marks.resize(self.given.space.thread.word_count() as usize, false)?;
        for point in 0..self.given.space.thread.word_count() {
            self.mark_jump(&mut marks, point);
        }
        for noted in self.given.space.thread.records() {
            let point = noted.point();
            mark(&mut marks, point);
            if point > 0 {
                mark(&mut marks, point - 1);
            }
        }
        Ok(marks)
    }

    /// Notes the root of the part of a point's state, if ways are asked for it. Memory may be refused.
    fn note_root(
        &self,
        roots: &mut PartRoots,
        log: &SlotLog,
        part: Option<Part>,
        is_asked: bool,
    ) -> Result<(), AllocError>
        ensures { IfOk result (λ _. AreRooted self.now.given.slots.now log.now roots.old → AreRooted self.now.given.slots.now log.now roots.new) }
    {
        if !is_asked {
            return Ok(());
        }
        match part {
            Some(part) => roots.note(log, self.given.slots, part),
            None => Ok(()),
        }
    }

    /// The roots of the parts that ways are asked for, in the order of their points. Memory may be refused.
    pub(crate) fn roots(&self, points: &Points<'_>) -> Result<PartRoots, AllocError>
        ensures { IfOk result (λ roots. AreRooted self.now.given.slots.now points.now.log roots) }
    {
        let marks = self.asked()?;
        let mut roots = PartRoots::new(self.alloc)?;
        let mut part = None;
        let mut point: u32 = 0;
        'places: for place in &points.kept.places {
            part = points.kept.part_at(*place, part);
            let is_asked = is_marked(&marks, point);
            self.note_root(&mut roots, &points.log, part, is_asked)?;
            point = point.saturating_add(1);
        }
        Ok(roots)
    }
}
