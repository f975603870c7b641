//! The marks of a line: before which runs of a program it was acknowledged on each way from a take on. What is found is tested apart, so nothing is
//! promised of it here.

use crate::asks::Ask;
use crate::outlines::{Outline, Run};
use std::alloc::{AllocError, Global};

/// Marks, and the runs whose ways are to be looked at.
#[derive(Drop)]
struct Marking {
    marks: Vec<bool>,
    open: Vec<usize>,
}

impl Marking {
    /// All runs of a program, with this mark.
    fn new(alloc: Global, program: &Outline, mark: bool) -> Result<Self, AllocError> {
        let mut marks = Vec::new(alloc);
        marks.resize(program.runs.len(), mark)?;
        Ok(Marking {
            marks,
            open: Vec::new(alloc),
        })
    }

    /// Gives a run this mark; where it had another one its ways are to be looked at.
    fn set(&mut self, way: Option<u32>, mark: bool) -> Result<(), AllocError> {
        let Some(place) = way else {
            return Ok(());
        };
        let place = place as usize;
        if place < self.marks.len() && self.marks[place] != mark {
            self.marks[place] = mark;
            self.open.push(place)?;
        }
        Ok(())
    }

    /// Gives the runs to which a run leads this mark.
    fn set_after(&mut self, run: &Run, mark: bool) -> Result<(), AllocError> {
        self.set(run.taken, mark)?;
        self.set(run.next, mark)
    }

    /// A run whose ways are to be looked at.
    fn next(&mut self) -> Option<usize> {
        self.open.pop()
    }

    /// The marks.
    fn finish(self) -> Vec<bool> {
        self.marks
    }
}

/// The marks of a line in a program: as many as can be kept. Each run is looked at a fixed number of times. Memory may be refused.
pub(crate) fn marks_of(
    alloc: Global,
    line: u32,
    program: &Outline,
) -> Result<Vec<bool>, AllocError> {
    let mut marking = Marking::new(alloc, program, true)?;
    for run in &program.runs {
        if let Ask::Takes(_) = run.ask {
            marking.set_after(run, false)?;
        }
    }
    for _ in 0..program.runs.len() {
        let Some(place) = marking.next() else {
            break;
        };
        if let Some(run) = program.runs.get(place) {
            if run.ask != Ask::Acknowledges(line) {
                marking.set_after(run, false)?;
            }
        }
    }
    Ok(marking.finish())
}
