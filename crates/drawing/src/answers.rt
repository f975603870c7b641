//! How soon threads deal with interrupts: a bar below the lane of each, from an interrupt to its next wait.

use crate::charts::{Canvas, WORLD};
use std::alloc::{AllocError, Global};
use trace_lines::Mark;

/// A thread that deals with the interrupts of a line.
#[derive(Clone, Copy, Debug)]
pub struct LineAnswer {
    pub line: u8,
    /// The physical address of the thread's TCB.
    pub thread: u32,
    /// Within how many instructions it does.
    pub steps: u64,
}

/// The bar of such a thread.
#[derive(Clone, Copy, Debug)]
pub(crate) struct AnswerBar {
    answer: LineAnswer,
    /// Where it begins in the band at hand, if there was an interrupt with which the thread has not dealt.
    since: Option<u32>,
    /// How many instructions there were since that one.
    steps: u64,
}

/// What is said where a bar ends, which comes above all else in its band.
#[derive(Clone, Copy, Debug)]
pub(crate) struct AnswerCount {
    x: u32,
    base: u32,
    steps: u64,
    most: u64,
}

/// How far below the top of a lane a bar is, and the foot of what is said of it.
const BELOW: u32 = 22;

const SAID_BELOW: u32 = 25;

/// No bar so far for each of these.
pub(crate) fn no_bars(alloc: Global, answers: &[LineAnswer]) -> Result<Vec<AnswerBar>, AllocError> {
    let mut bars = Vec::new(alloc);
    for answer in answers {
        bars.push(AnswerBar {
            answer: *answer,
            since: None,
            steps: 0,
        })?;
    }
    Ok(bars)
}

/// An interrupt of a line here: the bars of its threads begin that have not begun.
pub(crate) fn begin(bars: &mut Vec<AnswerBar>, line: u8, x: u32) {
    for bar in bars {
        if bar.answer.line == line && bar.since.is_none() {
            bar.since = Some(x);
            bar.steps = 0;
        }
    }
}

/// So many instructions.
pub(crate) fn count(bars: &mut Vec<AnswerBar>, steps: u32) {
    for bar in bars {
        bar.steps = bar.steps.saturating_add(u64::from(steps));
    }
}

/// The bars that have begun go on in the next band, whose lanes begin here.
pub(crate) fn carry(bars: &mut Vec<AnswerBar>, left: u32) {
    for bar in bars {
        if bar.since.is_some() {
            bar.since = Some(left);
        }
    }
}

impl Canvas<'_, '_> {
    /// A bar below a lane.
    fn push_answer(&mut self, lane: usize, since: u32, until: u32) -> Result<(), AllocError> {
        let y = self.layout.lane_top(self.band, lane).saturating_add(BELOW);
        let width = until.saturating_sub(since);
        write!(
            self.svg,
            "<rect x=\"{since}\" y=\"{y}\" width=\"{width}\" height=\"3\" fill=\"{WORLD}\"/>\n"
        )
    }

    /// Notes how many instructions a bar that ends here stands for, and how many there are at most.
    fn note_count(&mut self, lane: usize, until: u32, bar: &AnswerBar) -> Result<(), AllocError> {
        let top = self.layout.lane_top(self.band, lane);
        self.counts.push(AnswerCount {
            x: until,
            base: top.saturating_add(SAID_BELOW),
            steps: bar.steps,
            most: bar.answer.steps,
        })?;
        Ok(())
    }

    /// Puts what was noted.
    fn push_counts(&mut self) -> Result<(), AllocError> {
        for number in 0..self.counts.len() {
            if let Some(count) = self.counts.get(number).copied() {
                let (steps, most) = (count.steps, count.most);
                let said = format!(in self.alloc; "{steps} of {most}")?;
                self.push_small(&said, count.x, count.base)?;
            }
        }
        self.counts.clear();
        Ok(())
    }

    /// Ends a bar, if it is one of the thread and has begun.
    fn end_answer(
        &mut self,
        number: usize,
        lane: usize,
        thread: u32,
        until: u32,
    ) -> Result<(), AllocError> {
        let Some(bar) = self.bars.get(number).copied() else {
            return Ok(());
        };
        match bar.since {
            Some(since) if bar.answer.thread == thread => {
                self.push_answer(lane, since, until)?;
                self.note_count(lane, until, &bar)?;
                if let Some(bar) = self.bars.get_mut(number) {
                    bar.since = None;
                }
                Ok(())
            }
            _ => Ok(()),
        }
    }

    /// An instruction of the thread of a lane, up to here: a wait ends its bars.
    pub(crate) fn end_answers(
        &mut self,
        lane: usize,
        mark: Mark,
        until: u32,
    ) -> Result<(), AllocError> {
        if mark != Mark::Wait {
            return Ok(());
        }
        let Some((thread, _)) = self.cells.threads.get_index(lane) else {
            return Ok(());
        };
        let thread = *thread;
        for number in 0..self.bars.len() {
            self.end_answer(number, lane, thread, until)?;
        }
        Ok(())
    }

    /// The bars that have begun, up to here in the band at hand, and what is said of those that have ended there.
    pub(crate) fn push_answers(&mut self, until: u32) -> Result<(), AllocError> {
        for number in 0..self.bars.len() {
            let Some(bar) = self.bars.get(number).copied() else {
                continue;
            };
            let lane = self.cells.threads.get_index_of(&bar.answer.thread);
            if let (Some(since), Some(lane)) = (bar.since, lane) {
                self.push_answer(lane, since, until)?;
            }
        }
        self.push_counts()
    }
}
