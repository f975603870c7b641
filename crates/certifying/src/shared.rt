//! The changes to slots at all points of a program, and what is known of its system calls.

use crate::Fault;
use crate::bare_threads::BareThread;
use crate::looked::Looked;
use crate::prints::Differing;
use crate::stretches::{Stretch, StretchLog};
use crate::tables::are_same_entries;
use crate::ways::State;
use model::Point;
use ranges::Bounds;
use typestate::{Behind, LogEntry};

/// What a system call left in the state in which it was looked at last.
#[derive(Clone, Copy)]
pub(crate) struct Called {
    /// The ranges before it.
    before: Bounds,
    /// The changes before it.
    held: Stretch,
    /// The changes that it makes.
    made: Stretch,
    /// The registers after it.
    pub(crate) behind: Behind,
    /// The changes after it.
    pub(crate) left: Stretch,
}

/// The changes that a system call makes, and those after it.
#[derive(Clone, Copy)]
struct Stretches {
    made: Stretch,
    left: Stretch,
}

impl Called {
    /// What a system call leaves in a state, with the changes that it makes, and those after it.
    fn of(state: &State, behind: &Behind, stretches: &Stretches) -> Self {
        Called {
            before: state.bounds,
            held: state.changes,
            made: stretches.made,
            behind: *behind,
            left: stretches.left,
        }
    }
}

/// The log, and what is known of system calls.
#[derive(Drop)]
pub(crate) struct Shared<'a, 's> {
    pub(crate) log: StretchLog,
    /// The slots of the stretch that was looked at last.
    looked: Looked<'a, 's>,
    /// Those that differ from the image's, of the last stretch that was appended.
    differing: Differing<'a, 's>,
    /// Those that were looked at, each as it was last.
    calls: Vec<Called>,
    /// Which of them is at each point.
    at: Vec<Option<usize>>,
}

impl<'a, 's> Shared<'a, 's> {
    /// No changes at any of so many points.
    pub(crate) fn new(thread: BareThread<'a, 's>, count: u32) -> Result<Self, Fault> {
        let alloc = thread.alloc;
        let mut at = Vec::new(alloc);
        'points: for _ in 0..count {
            at.push(None)?;
        }
        Ok(Shared {
            log: StretchLog::new(alloc),
            looked: Looked::before(thread, Stretch::NONE)?,
            differing: Differing::none(thread)?,
            calls: Vec::new(alloc),
            at,
        })
    }

    /// What the system call at a point leaves of the registers in a state, and the slots that it changes. What the state shares with the
    /// one that was looked at last is not gone through again.
    pub(crate) fn asked(
        &mut self,
        at: Point,
        state: &State,
    ) -> Result<(Behind, Vec<LogEntry>), Fault> {
        self.looked.go_on(&self.log, state.changes)?;
        self.looked.called(at, &state.bounds)
    }

    /// The system call at a point as it was looked at last.
    fn last(&self, point: u32) -> Option<Called> {
        match self.at.get(point as usize) {
            Some(Some(number)) => self.calls.get(*number).copied(),
            _ => None,
        }
    }

    /// What the system call at a point leaves, if it was looked at last with these ranges and changes.
    pub(crate) fn called(&self, point: u32, bounds: &Bounds, held: Stretch) -> Option<Called> {
        match self.last(point) {
            Some(called) if called.held == held && is_same(&called.before, bounds) => Some(called),
            _ => None,
        }
    }

    /// What the system call at a point left, if it was looked at last with these changes before it and made the same.
    fn as_before(&self, point: u32, held: Stretch, made: &[LogEntry]) -> Option<Called> {
        match self.last(point) {
            Some(called)
                if called.held == held && are_same_entries(self.log.part(called.made), made) => {
                Some(called)
            }
            _ => None,
        }
    }

    /// The changes after a system call at a point, of which those before it and those that it makes are given.
    fn stretches(
        &mut self,
        point: u32,
        held: Stretch,
        made: &[LogEntry],
    ) -> Result<Stretches, Fault> {
        if made.is_empty() {
            return Ok(Stretches {
                made: Stretch::NONE,
                left: held,
            });
        }
        if let Some(called) = self.as_before(point, held, made) {
            return Ok(Stretches {
                made: called.made,
                left: called.left,
            });
        }
        let left = self.log.follow(held, made)?;
        let print = self.differing.go_on(&self.log, left)?;
        Ok(Stretches {
            made: left.last(made.len()),
            left: left.with_print(print),
        })
    }

    /// Puts what a system call at a point leaves in place of what it left before.
    fn put(&mut self, point: u32, called: Called) -> Result<(), Fault> {
        let number = self.calls.len();
        let place = match self.at.get_mut(point as usize) {
            Some(Some(place)) => *place,
            Some(place) => {
                *place = Some(number);
                number
            }
            None => return Ok(()),
        };
        match self.calls.get_mut(place) {
            Some(last) => *last = called,
            None => self.calls.push(called)?,
        }
        Ok(())
    }

    /// Notes what the system call at a point leaves in this state, and the changes that it makes.
    pub(crate) fn note(
        &mut self,
        point: u32,
        state: &State,
        behind: &Behind,
        made: &[LogEntry],
    ) -> Result<Called, Fault> {
        let stretches = self.stretches(point, state.changes, made)?;
        self.looked.stand(stretches.left);
        self.put(point, Called::of(state, behind, &stretches))?;
        Ok(Called::of(state, behind, &stretches))
    }
}

/// Whether ranges are the same.
fn is_same(one: &Bounds, other: &Bounds) -> bool {
    one.is_within(other) && other.is_within(one)
}
