//! What runs over lists of events showed of an image.

use crate::faults::ReportFault;
use crate::findings::{Answer, DoorRun, EventsFile, Level, PartRun, ResponseRow, TestRuns};
use indexmap::IndexMap;
use model::{Cap, SystemCall};
use program_rules::{PointView, ProgramView};
use source_texts::SourceText;
use std::alloc::{AllocError, Global};
use trace_lines::{Happening, Mark, told_by, without_end};

/// The physical address at which memory begins.
const MEMORY: u32 = 0x8000_0000;

/// A list of events that was run, and the lines of the trace.
#[derive(Clone, Copy)]
pub struct EventRun<'a> {
    pub file: &'a str,
    pub trace: &'a [u8],
}

/// What is counted of a thread.
#[derive(Drop)]
struct ThreadCount {
    ran: u64,
    since_wait: u64,
    longest: u64,
    /// Of each point of its program, whether it ran.
    points: Vec<bool>,
}

/// What is counted of the threads of a priority and above.
#[derive(Clone, Copy)]
struct LevelCount {
    priority: u32,
    on_end: u64,
    longest: u64,
}

/// What is counted over all runs.
#[derive(Drop)]
struct Tally<'v> {
    views: &'v [ProgramView],
    /// The numbers of the threads by the physical addresses of their control blocks.
    numbers: IndexMap<u32, usize>,
    threads: Vec<ThreadCount>,
    levels: Vec<LevelCount>,
    /// How many messages were sent to each endpoint, by its offset.
    doors: IndexMap<u32, u64>,
}

/// What is counted of the threads before any run.
fn threads_of(alloc: Global, views: &[ProgramView]) -> Result<Vec<ThreadCount>, AllocError> {
    let mut threads = Vec::new(alloc);
    for view in views {
        let mut points = Vec::new(alloc);
        points.resize(view.points.len(), false)?;
        threads.push(ThreadCount {
            ran: 0,
            since_wait: 0,
            longest: 0,
            points,
        })?;
    }
    Ok(threads)
}

/// The numbers of the threads by the physical addresses of their control blocks.
fn numbers_of(alloc: Global, views: &[ProgramView]) -> Result<IndexMap<u32, usize>, AllocError> {
    let mut numbers = IndexMap::new(alloc);
    let mut number = 0usize;
    for view in views {
        numbers.insert(view.tcb.wrapping_add(MEMORY), number)?;
        number = number.saturating_add(1);
    }
    Ok(numbers)
}

/// The levels of a report, of which nothing ran.
fn levels_of(alloc: Global, responses: &[ResponseRow<'_>]) -> Result<Vec<LevelCount>, AllocError> {
    let mut levels = Vec::new(alloc);
    for row in responses {
        levels.push(LevelCount {
            priority: row.priority,
            on_end: 0,
            longest: 0,
        })?;
    }
    Ok(levels)
}

/// The endpoint to which a point sends or calls, by its offset.
fn door_at(view: &ProgramView, point: usize) -> Option<u32> {
    let PointView::Seen(seen) = view.points.at(point) else {
        return None;
    };
    match (seen.call, seen.capability) {
        (Some(SystemCall::Sends(_)), Cap::Endpoint { offset, .. }) => Some(offset),
        _ => None,
    }
}

impl ThreadCount {
    /// One instruction more, at a point.
    fn run(&mut self, point: usize, mark: Mark) {
        self.ran = self.ran.saturating_add(1);
        let count = self.since_wait.saturating_add(1);
        self.longest = self.longest.max(count);
        self.since_wait = match mark {
            Mark::Wait => 0,
            _ => count,
        };
        if let Some(ran) = self.points.get_mut(point) {
            *ran = true;
        }
    }

    /// How many of its points ran.
    fn covered(&self) -> u64 {
        let mut covered = 0u64;
        for ran in &self.points {
            if *ran {
                covered = covered.saturating_add(1);
            }
        }
        covered
    }
}

impl LevelCount {
    /// A step of a thread of this priority, or of none.
    fn step(&mut self, priority: Option<u32>) {
        self.on_end = match priority {
            Some(priority) if priority >= self.priority => self.on_end.saturating_add(1),
            _ => 0,
        };
        self.longest = self.longest.max(self.on_end);
    }
}

impl Tally<'_> {
    /// A step of a thread of this priority, or of none.
    fn step(&mut self, priority: Option<u32>) {
        for level in self.levels.iter_mut() {
            level.step(priority);
        }
    }

    /// A message to an endpoint, by its offset.
    fn send(&mut self, door: u32) -> Result<(), AllocError> {
        if let Some(count) = self.doors.get_mut(&door) {
            *count = count.saturating_add(1);
            return Ok(());
        }
        self.doors.insert(door, 1)?;
        Ok(())
    }

    /// An instruction of a thread.
    fn run(&mut self, number: usize, pc: u32, mark: Mark) -> Result<(), AllocError> {
        let Some(view) = self.views.get(number) else {
            return Ok(());
        };
        let point = (pc.wrapping_sub(view.header.base) / 4) as usize;
        self.step(Some(view.header.priority));
        if let Some(thread) = self.threads.get_mut(number) {
            thread.run(point, mark);
        }
        match (mark, door_at(view, point)) {
            (Mark::Completed | Mark::Wait, Some(door)) => self.send(door),
            _ => Ok(()),
        }
    }

    /// A line of a trace.
    fn add(&mut self, told: Happening) -> Result<(), ReportFault> {
        match told {
            Happening::Idle => self.step(None),
            Happening::Ran { thread, pc, mark } => match self.numbers.get(&thread).copied() {
                Some(number) => self.run(number, pc, mark)?,
                None => return Err(ReportFault::Disagreement),
            },
            Happening::Tick
            | Happening::Interrupt(_)
            | Happening::Wrote { .. }
            | Happening::Showed { .. } => {}
        }
        Ok(())
    }

    /// A run begins.
    fn begin(&mut self) {
        for thread in self.threads.iter_mut() {
            thread.since_wait = 0;
        }
        for level in self.levels.iter_mut() {
            level.on_end = 0;
        }
    }

    /// Counts a run, and how many events it had.
    fn count(&mut self, trace: &[u8]) -> Result<u64, ReportFault> {
        self.begin();
        let mut events = 0u64;
        for piece in trace.split_inclusive(|byte| *byte == b'\n') {
            match told_by(without_end(piece)) {
                Some(told) => self.add(told)?,
                None => return Err(ReportFault::Disagreement),
            }
            events = events.saturating_add(1);
        }
        Ok(events)
    }
}

/// What was counted of the parts.
fn part_runs<'a>(
    alloc: Global,
    text: &SourceText<'a>,
    tally: &Tally<'_>,
) -> Result<Vec<PartRun<'a>>, AllocError> {
    let mut parts = Vec::new(alloc);
    for (thread, count) in text.threads.iter().zip(&tally.threads) {
        parts.push(PartRun {
            part: text.object_name(thread.tcb),
            ran: count.ran,
            longest: count.longest,
            budget: thread.budget,
            covered: count.covered(),
            instructions: count.points.len() as u64,
        })?;
    }
    Ok(parts)
}

/// What is promised of a level: the greater one of its two numbers.
fn bound_of(row: &ResponseRow<'_>) -> Option<u64> {
    match &row.answer {
        Answer::Bound { steps, later, .. } => {
            let (steps, later) = (*steps, *later);
            Some(steps.max(later))
        }
        Answer::NoBound { .. } => None,
    }
}

/// What was counted of the levels, beside their bounds.
fn level_runs(
    alloc: Global,
    responses: &[ResponseRow<'_>],
    tally: &Tally<'_>,
) -> Result<Vec<Level>, AllocError> {
    let mut levels = Vec::new(alloc);
    for (row, count) in responses.iter().zip(&tally.levels) {
        levels.push(Level {
            priority: count.priority,
            longest: count.longest,
            bound: bound_of(row),
        })?;
    }
    Ok(levels)
}

/// What was counted of the endpoints, in the order of the text, which are at these offsets.
fn door_runs<'a>(
    alloc: Global,
    text: &SourceText<'a>,
    offsets: &[u32],
    tally: &Tally<'_>,
) -> Result<Vec<DoorRun<'a>>, AllocError> {
    let mut doors = Vec::new(alloc);
    for (number, offset) in offsets.iter().enumerate() {
        if let Some(messages) = tally.doors.get(offset) {
            doors.push(DoorRun {
                door: text.object_name(number),
                messages: *messages,
            })?;
        }
    }
    Ok(doors)
}

/// What runs are counted against.
#[derive(Clone, Copy)]
pub(crate) struct Counted<'t, 'a> {
    pub(crate) text: &'t SourceText<'a>,
    pub(crate) views: &'t [ProgramView],
    /// The offsets of the objects, by their numbers.
    pub(crate) offsets: &'t [u32],
    pub(crate) responses: &'t [ResponseRow<'a>],
}

/// What runs showed.
pub(crate) fn measured<'a>(
    alloc: Global,
    counted: Counted<'_, 'a>,
    runs: &[EventRun<'a>],
) -> Result<TestRuns<'a>, ReportFault> {
    let mut tally = Tally {
        views: counted.views,
        numbers: numbers_of(alloc, counted.views)?,
        threads: threads_of(alloc, counted.views)?,
        levels: levels_of(alloc, counted.responses)?,
        doors: IndexMap::new(alloc),
    };
    let mut files = Vec::new(alloc);
    for run in runs {
        let events = tally.count(run.trace)?;
        files.push(EventsFile {
            file: run.file,
            events,
        })?;
    }
    Ok(TestRuns {
        files,
        parts: part_runs(alloc, counted.text, &tally)?,
        levels: level_runs(alloc, counted.responses, &tally)?,
        doors: door_runs(alloc, counted.text, counted.offsets, &tally)?,
    })
}
