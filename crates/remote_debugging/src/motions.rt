//! Forwards and back.

use crate::debuggers::Debugger;
use crate::parts::MEMORY_BASE;
use debugging::{Halt, back_to_stop, current, run_to_stop};
use model::{Label, Outcome};
use std::alloc::AllocError;

/// After how many events a run stops by itself, where no events are given.
const MOST_AT_ONCE: usize = 10_000_000;

/// How a motion ended.
#[derive(Clone, Copy, Debug, PartialEq, Eq)]
pub(crate) enum Motion {
    /// At a stop, or after a step.
    Stopped,
    /// No part runs.
    Idle,
    /// The events that are given are done.
    AtEnd,
    /// Nothing is before it.
    AtStart,
    /// It went on for as long as a run does by itself.
    TooLong,
}

impl Debugger<'_, '_, '_, '_> {
    /// How many events may be done at once.
    fn most(&self) -> usize {
        if self.scene.ends {
            self.run.given().saturating_sub(self.run.done())
        } else {
            MOST_AT_ONCE
        }
    }

    /// Shows the part that runs next.
    fn select_current(&mut self) {
        if let Some(thread) = current(self.run.system()) {
            if let Some(part) = self.part_of(thread) {
                self.selected = part;
                self.moving = part;
            }
        }
    }

    /// Notes which of the bytes that are watched are others than before the motion, first. The debugger counts on a report before the
    /// instruction that changes them is run, or is taken back: so the run comes to the moment that is so many events further or back.
    fn note_change(&mut self, count: usize) -> Result<(), AllocError> {
        self.hit = self.changed();
        if self.hit.is_some() {
            self.run.wind_to(count)?;
        }
        Ok(())
    }

    /// Goes on to the next stop, or by an instruction of the part that moves.
    pub(crate) fn go(&mut self, steps: bool) -> Result<Motion, AllocError> {
        self.keep_watched();
        let turn = if steps {
            self.thread_of(self.moving)
        } else {
            None
        };
        let most = self.most();
        let settles = !self.scene.ends;
        let halt = run_to_stop(&mut self.run, &self.stops, turn, most, settles);
        let before = self.run.done().saturating_sub(1);
        self.note_change(before)?;
        Ok(self.after(halt))
    }

    /// Goes back to the last stop, or to before the last instruction of the part that moves.
    pub(crate) fn go_back(&mut self, steps: bool) -> Result<Motion, AllocError> {
        self.keep_watched();
        let turn = if steps {
            self.thread_of(self.moving)
        } else {
            None
        };
        let halt = back_to_stop(&mut self.run, &self.stops, turn)?;
        self.select_current();
        let after = self.run.done().saturating_add(1);
        self.note_change(after)?;
        Ok(match halt {
            Halt::Ended => Motion::AtStart,
            _ => Motion::Stopped,
        })
    }

    /// What is shown after a run.
    fn after(&mut self, halt: Halt) -> Motion {
        match halt {
            Halt::Turned => {
                self.selected = self.moving;
                Motion::Stopped
            }
            Halt::Stopped => {
                self.select_current();
                Motion::Stopped
            }
            Halt::Idle => Motion::Idle,
            Halt::Ended if self.scene.ends => Motion::AtEnd,
            Halt::Ended => Motion::TooLong,
        }
    }

    /// Counts the instructions of a part since its last wait.
    fn count(&mut self, label: Label) {
        let Label::Ran {
            thread,
            outcome,
            ..
        } = label
        else {
            return;
        };
        let Some(part) = self.part_of(thread.wrapping_sub(MEMORY_BASE)) else {
            return;
        };
        if let Some(used) = self.used.get_mut(part) {
            *used = match outcome {
                Outcome::Waited => 0,
                _ => used.saturating_add(1),
            };
        }
    }

    /// Finds how many instructions each part has run since its last wait, by the events that are done.
    pub(crate) fn find_used(&mut self) -> Result<(), AllocError> {
        let done = self.run.done();
        if self.used_at == Some(done) {
            return Ok(());
        }
        self.used.clear();
        self.used.resize(self.scene.parts.len(), 0)?;
        self.run.wind_to(0)?;
        for _ in 0..done {
            if let Some(label) = self.run.go_on() {
                self.count(label);
            }
        }
        self.used_at = Some(done);
        Ok(())
    }
}
