//! What a trace says of a thread.

use trace_lines::Mark;

/// What a thread does while it does not run.
#[derive(Clone, Copy, Debug)]
pub(crate) enum Rest {
    /// It has not run so far, or stopped for another thread.
    Ready,
    Waits { pc: u32 },
    Faulted { pc: u32 },
}

impl Rest {
    /// How a thread rests after an instruction.
    pub(crate) fn after(mark: Mark, pc: u32) -> Self {
        match mark {
            Mark::Wait => Rest::Waits { pc },
            Mark::Faulted(_) => Rest::Faulted { pc },
            _ => Rest::Ready,
        }
    }
}

/// What a trace says of a thread.
#[derive(Clone, Copy, Debug)]
pub(crate) struct ThreadRun {
    /// How it rests where the chart begins.
    pub(crate) rest: Rest,
    /// How many instructions it ran since its last wait.
    since_wait: u64,
    /// The most instructions that it ran from one wait to the next, which is counted: also up to the first wait, and after the last.
    pub(crate) longest: u64,
}

impl ThreadRun {
    /// A thread that has not run so far.
    pub(crate) fn new() -> Self {
        ThreadRun {
            rest: Rest::Ready,
            since_wait: 0,
            longest: 0,
        }
    }

    /// One instruction more.
    pub(crate) fn count(&mut self, mark: Mark) {
        let count = self.since_wait.saturating_add(1);
        self.longest = self.longest.max(count);
        self.since_wait = match mark {
            Mark::Wait => 0,
            _ => count,
        };
    }
}
