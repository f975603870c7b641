//! The cells of a chart: what is shown side by side in time.

use crate::faults::DrawingFault;
use crate::threads::{Rest, ThreadRun};
use crate::words::WordRun;
use indexmap::IndexMap;
use named_traces::TextNames;
use std::alloc::{AllocFailed, Global};
use trace_lines::{Happening, Mark, told_by, without_end};

/// What a cell shows. Lanes are numbered from 0.
#[derive(Clone, Copy, Debug)]
pub(crate) enum Shape {
    /// So many steps without a thread to run.
    Idle { count: u32 },
    Tick,
    Interrupt(u8),
    /// So many instructions of one thread that have no mark.
    Run { lane: usize, count: u32 },
    /// An instruction with a mark.
    Event { lane: usize, pc: u32, mark: Mark },
    /// The world writes or reads a word. Rows of words are numbered from 0.
    World { row: usize, word: u32, writes: bool },
}

/// A cell, and the first of its lines, counted from 1.
#[derive(Clone, Copy, Debug)]
pub(crate) struct Cell {
    pub(crate) line: u64,
    pub(crate) shape: Shape,
}

/// The lines of a trace that are drawn, both included, counted from 1.
#[derive(Clone, Copy, Debug)]
pub(crate) struct Window {
    pub(crate) from: u64,
    pub(crate) to: u64,
}

/// What is drawn of a trace: the threads of the whole of it in the order in which they first run, each by the physical address of its
/// TCB; the words that the world writes or reads, each by its physical address, in the order of their first events; and the cells.
#[derive(Drop)]
pub(crate) struct Cells {
    pub(crate) threads: IndexMap<u32, ThreadRun>,
    pub(crate) words: IndexMap<u32, WordRun>,
    pub(crate) cells: Vec<Cell>,
}

impl Cells {
    /// The lane of a thread, a new one where it has none.
    fn lane(&mut self, thread: u32) -> Result<usize, AllocFailed<(u32, ThreadRun)>> {
        match self.threads.get_index_of(&thread) {
            Some(lane) => Ok(lane),
            None => {
                let lane = self.threads.len();
                self.threads.insert(thread, ThreadRun::new())?;
                Ok(lane)
            }
        }
    }

    /// What is known of the thread of a lane.
    fn thread(&mut self, lane: usize) -> Option<&mut ThreadRun> {
        self.threads.get_index_mut(lane)
    }

    /// The row of a word that has this value now, a new one where it has none.
    fn row(&mut self, address: u32, word: u32) -> Result<usize, AllocFailed<(u32, WordRun)>> {
        match self.words.get_index_of(&address) {
            Some(row) => {
                if let Some(run) = self.words.get_index_mut(row) {
                    run.note(word);
                }
                Ok(row)
            }
            None => {
                let row = self.words.len();
                self.words.insert(address, WordRun::new(word))?;
                Ok(row)
            }
        }
    }

    /// What an event of the world at a word shows.
    fn shape_of_word(
        &mut self,
        address: u32,
        word: u32,
        writes: bool,
    ) -> Result<Shape, DrawingFault> {
        let row = self.row(address, word)?;
        Ok(Shape::World { row, word, writes })
    }

    /// Whether the last cell takes in one more of this shape.
    fn grow(&mut self, shape: Shape) -> bool {
        let Some(last) = self.cells.last_mut() else {
            return false;
        };
        match (last.shape, shape) {
            (Shape::Idle { count }, Shape::Idle { .. }) => {
                last.shape = Shape::Idle {
                    count: count.saturating_add(1),
                };
                true
            }
            (Shape::Run { lane, count }, Shape::Run { lane: other, .. }) if lane == other => {
                last.shape = Shape::Run {
                    lane,
                    count: count.saturating_add(1),
                };
                true
            }
            _ => false,
        }
    }

    /// What an instruction shows.
    fn shape_of_run(&mut self, thread: u32, pc: u32, mark: Mark) -> Result<Shape, DrawingFault> {
        let lane = self.lane(thread)?;
        if let Some(thread) = self.thread(lane) {
            thread.count(mark);
        }
        Ok(match mark {
            Mark::Plain => Shape::Run { lane, count: 1 },
            mark => Shape::Event { lane, pc, mark },
        })
    }

    /// What a line shows.
    fn shape_of(&mut self, told: Happening) -> Result<Shape, DrawingFault> {
        match told {
            Happening::Idle => Ok(Shape::Idle { count: 1 }),
            Happening::Tick => Ok(Shape::Tick),
            Happening::Interrupt(number) => Ok(Shape::Interrupt(number)),
            Happening::Ran { thread, pc, mark } => self.shape_of_run(thread, pc, mark),
            Happening::Wrote { address, word } => self.shape_of_word(address, word, true),
            Happening::Showed { address, word } => self.shape_of_word(address, word, false),
        }
    }

    /// Takes notice of the value of a word before the lines that are drawn.
    fn pass_word(&mut self, row: usize, word: u32) {
        if let Some(run) = self.words.get_index_mut(row) {
            run.first = Some(word);
        }
    }

    /// Takes notice of a line before those that are drawn.
    fn pass(&mut self, shape: Shape) {
        let (lane, rest) = match shape {
            Shape::Run { lane, .. } => (lane, Rest::Ready),
            Shape::Event { lane, pc, mark } => (lane, Rest::after(mark, pc)),
            Shape::World { row, word, .. } => return self.pass_word(row, word),
            Shape::Idle { .. } | Shape::Tick | Shape::Interrupt(_) => return,
        };
        if let Some(thread) = self.thread(lane) {
            thread.rest = rest;
        }
    }

    /// Takes in a line.
    fn add(&mut self, line: u64, told: Happening, window: Window) -> Result<(), DrawingFault> {
        let shape = self.shape_of(told)?;
        if line < window.from {
            self.pass(shape);
        } else if line <= window.to && !self.grow(shape) {
            self.cells.push(Cell { line, shape })?;
        }
        Ok(())
    }
}

/// What a line of a trace says, with the names of a text if there is one.
fn told_in(names: Option<&TextNames<'_>>, line: &[u8]) -> Option<Happening> {
    match names {
        Some(names) => names.told_by(line),
        None => told_by(line),
    }
}

/// The cells of the lines of a trace that are drawn, with the names of a text if there is one.
pub(crate) fn cells_of(
    alloc: Global,
    trace: &[u8],
    names: Option<&TextNames<'_>>,
    window: Window,
) -> Result<Cells, DrawingFault> {
    let mut cells = Cells {
        threads: IndexMap::new(alloc),
        words: IndexMap::new(alloc),
        cells: Vec::new(alloc),
    };
    let mut line = 0u64;
    for piece in trace.split_inclusive(|byte| *byte == b'\n') {
        line = line.saturating_add(1);
        let Some(told) = told_in(names, without_end(piece)) else {
            return Err(DrawingFault::Malformed { line });
        };
        cells.add(line, told, window)?;
    }
    Ok(cells)
}
