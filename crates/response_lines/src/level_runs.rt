//! How long levels of a system run in a trace, beside their bounds.

use crate::asked::rates_in;
use crate::faults::NotTold;
use crate::telling::responses_at;
use responses::{Response, Row};
use source_texts::{SourceText, read, with_budgets};
use std::alloc::{AllocError, Global};
use trace_lines::{Happening, told_by};

/// The physical address at which memory begins.
const MEMORY: u32 = 0x8000_0000;

/// A thread, by the physical address of its TCB, as a trace names it.
#[derive(Clone, Copy)]
struct Runner {
    address: u32,
    priority: u32,
}

/// The steps on end of the threads of a priority and above.
#[derive(Clone, Copy)]
struct LevelRun {
    priority: u32,
    /// Those up to here.
    now: u64,
    longest: u64,
}

impl LevelRun {
    /// A step of a thread of this priority, or of none.
    fn count(&mut self, priority: Option<u32>) {
        self.now = match priority {
            Some(priority) if self.priority <= priority => self.now.saturating_add(1),
            _ => 0,
        };
        self.longest = self.longest.max(self.now);
    }
}

/// The physical address of an object of a system whose objects lie at these offsets.
pub(crate) fn address_of(offsets: &[u32], object: usize) -> Option<u32> {
    match offsets.get(object) {
        Some(offset) => Some(MEMORY.saturating_add(*offset)),
        None => None,
    }
}

/// The threads of a text, whose objects lie at these offsets.
fn runners_of(
    alloc: Global,
    text: &SourceText<'_>,
    offsets: &[u32],
) -> Result<Vec<Runner>, AllocError> {
    let mut runners = Vec::new(alloc);
    for thread in &text.threads {
        if let Some(address) = address_of(offsets, thread.tcb) {
            runners.push(Runner {
                address,
                priority: thread.priority,
            })?;
        }
    }
    Ok(runners)
}

/// The priority of the thread of this name in a trace, if there is one.
fn priority_of(runners: &[Runner], address: u32) -> Option<u32> {
    for runner in runners {
        if runner.address == address {
            return Some(runner.priority);
        }
    }
    None
}

/// Counts a step on each level.
fn count_step(levels: &mut Vec<LevelRun>, priority: Option<u32>) {
    for level in levels {
        level.count(priority);
    }
}

/// Counts the steps of a trace on each level.
fn count_steps(levels: &mut Vec<LevelRun>, runners: &[Runner], trace: &[u8]) {
    for line in trace.split(|byte| *byte == b'\n') {
        match told_by(line) {
            Some(Happening::Ran { thread, .. }) => {
                count_step(levels, priority_of(runners, thread));
            }
            Some(Happening::Idle) => count_step(levels, None),
            _ => {}
        }
    }
}

/// Puts how long a level runs, beside its bound.
fn push_run(to: &mut String, row: &Row, level: &LevelRun) -> Result<(), AllocError> {
    let (priority, longest) = (row.priority, level.longest);
    write!(to, "priority {priority} and above: longest {longest}")?;
    match &row.response {
        Response::Bound(bound) => {
            let steps = bound.steps;
            write!(to, " of at most {steps} instructions on end\n")
        }
        Response::NoBound(_) | Response::TooMuch => {
            to.push_str(" instructions on end, and no bound\n")
        }
    }
}

/// For how many steps on end each level of an image runs at most in a trace of it, beside its bound at the rates that the text says, from the highest
/// priority down. Nothing where it says none.
///
/// # Errors
///
/// The text is of another form; the image is refused; or memory is refused.
pub fn longest_runs(
    alloc: Global,
    image: &[u8],
    content: &str,
    trace: &[u8],
) -> Result<String, NotTold> {
    let rates = rates_in(alloc, content)?;
    let mut said = String::new(alloc);
    if rates.is_empty() {
        return Ok(said);
    }
    let whole = with_budgets(alloc, content)?;
    let text = read(alloc, whole.text.as_str())?;
    let responses = responses_at(alloc, image, rates.as_slice())?;
    let runners = runners_of(alloc, &text, responses.offsets.as_slice())?;
    let mut levels = Vec::new(alloc);
    for row in &responses.rows {
        levels.push(LevelRun {
            priority: row.priority,
            now: 0,
            longest: 0,
        })?;
    }
    count_steps(&mut levels, runners.as_slice(), trace);
    for (row, level) in responses.rows.iter().zip(levels.iter()) {
        push_run(&mut said, row, level)?;
    }
    Ok(said)
}
