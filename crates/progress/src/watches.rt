//! Reports of how far a request is.

use crate::stages::Stage;
use sinks::{Sink, put_all};
use std::alloc::Global;
use std::time::{Clock, Instant};

/// Whoever gets reports of how far a request is.
pub trait Progress {
    /// Takes notice of what a request has come to.
    fn reach(&mut self, stage: Stage);

    /// How many whole seconds have passed since the request began, if that is known.
    fn seconds(&self) -> Option<u64>;
}

/// Nobody.
#[derive(Clone, Copy, Debug, Drop)]
pub struct Quiet;

impl Progress for Quiet {
    fn reach(&mut self, _stage: Stage) {}

    fn seconds(&self) -> Option<u64> {
        None
    }
}

/// A sink that gets a line once a second has passed, and then at most one for each second.
#[derive(Drop)]
pub struct Told<'c, 'e, C: Clock, E: Sink> {
    alloc: Global,
    clock: &'c C,
    errors: &'e mut E,
    /// When the request began. Without a clock nothing is reported.
    began: Option<Instant>,
    /// How many seconds had passed at the last line.
    told: u64,
}

impl<'c, 'e, C: Clock, E: Sink> Told<'c, 'e, C, E> {
    /// Begins to count.
    pub fn new(alloc: Global, clock: &'c C, errors: &'e mut E) -> Self {
        Told {
            alloc,
            clock,
            errors,
            began: Instant::now(clock).ok(),
            told: 0,
        }
    }
}

impl<'c, 'e, C: Clock, E: Sink> Progress for Told<'c, 'e, C, E> {
    fn reach(&mut self, stage: Stage) {
        let Some(seconds) = self.seconds() else {
            return;
        };
        if seconds <= self.told {
            return;
        }
        self.told = seconds;
        if let Ok(line) = stage.line(self.alloc, seconds) {
            let _ = put_all(self.errors, line.as_bytes());
        }
    }

    fn seconds(&self) -> Option<u64> {
        let passed = self.began?.elapsed(self.clock).ok()?;
        Some(passed.as_secs())
    }
}
