//! Lines that threads are to deal with, and what is said of them.

use crate::asked::Within;
use crate::faults::NotTold;
use crate::keeping::KeptWithin;
use crate::lines::{Report, Scene};
use responses::{Bound, Response, Responses, Row};
use source_texts::{Source, SourceText, SourceThread};
use std::alloc::{AllocError, Global};

/// A line that a thread is to deal with, or none where it waits for none.
#[derive(Clone, Copy)]
pub(crate) struct Wanted<'a> {
    pub(crate) within: Within<'a>,
    /// The number of the thread.
    thread: usize,
    pub(crate) priority: u32,
    pub(crate) line: Option<u32>,
}

impl Wanted<'_> {
    /// The name of the thread.
    fn name<'t>(&self, text: &SourceText<'t>) -> &'t str {
        match text.threads.get(self.thread) {
            Some(thread) => text.object_name(thread.tcb),
            None => "?",
        }
    }

    /// Whether this is what is kept.
    fn is_kept_by(&self, kept: &KeptWithin) -> bool {
        kept.priority == self.priority
            && Some(kept.line) == self.line
            && kept.most == self.within.most
    }
}

/// The thread to which a line of a text belongs.
fn thread_at(text: &SourceText<'_>, line: u64) -> Option<usize> {
    let mut found = None;
    for (number, thread) in text.threads.iter().enumerate() {
        if thread.line < line {
            found = Some(number);
        }
    }
    found
}

/// The lines that a thread may acknowledge.
fn lines_of(
    alloc: Global,
    text: &SourceText<'_>,
    thread: &SourceThread<'_>,
) -> Result<Vec<Option<u32>>, AllocError> {
    let mut lines = Vec::new(alloc);
    for capability in &text.capabilities {
        if capability.cnode == thread.cnode {
            if let Source::Interrupt(number) = capability.source {
                if let Some(interrupt) = text.interrupts.get(number) {
                    lines.push(Some(interrupt.number))?;
                }
            }
        }
    }
    if lines.is_empty() {
        lines.push(None)?;
    }
    Ok(lines)
}

/// The lines that threads of a text are to deal with.
pub(crate) fn wanted_of<'a>(
    alloc: Global,
    text: &SourceText<'_>,
    within: &[Within<'a>],
) -> Result<Vec<Wanted<'a>>, NotTold> {
    let mut wanted = Vec::new(alloc);
    for asked in within {
        let Some(number) = thread_at(text, asked.line) else {
            return Err(NotTold::Line(asked.line));
        };
        if let Some(thread) = text.threads.get(number) {
            for line in lines_of(alloc, text, thread)? {
                wanted.push(Wanted {
                    within: *asked,
                    thread: number,
                    priority: thread.priority,
                    line,
                })?;
            }
        }
    }
    Ok(wanted)
}

/// What is said of lines that are dealt with as soon as they are to.
pub(crate) fn kept_lines(
    alloc: Global,
    text: &SourceText<'_>,
    wanted: &[Wanted<'_>],
    kept: &[KeptWithin],
) -> Result<String, AllocError> {
    let mut said = String::new(alloc);
    for one in wanted {
        if let Some(found) = kept.iter().find(|found| one.is_kept_by(*found)) {
            let (name, steps) = (one.name(text), found.steps);
            let (line, most) = (found.line, found.most);
            write!(
                &mut said,
                "{name} rests within {steps} instructions of line {line}, of {most}\n"
            )?;
        }
    }
    Ok(said)
}

impl Report<'_, '_> {
    /// Puts the place of what is asked, and who is to keep it.
    fn begin(&mut self, wanted: &Wanted<'_>) -> Result<(), AllocError> {
        let name = wanted.name(self.scene.text);
        match wanted.within.place {
            Some(place) => write!(&mut self.to, "{place}: {name} "),
            None => {
                let (file, line) = (self.scene.file, wanted.within.line);
                write!(&mut self.to, "{file}:{line}: {name} ")
            }
        }
    }

    /// Why a thread whose level has a bound does not deal with a line as soon as it is to.
    fn say_later(
        &mut self,
        row: &Row,
        bound: &Bound,
        line: u32,
        most: u64,
    ) -> Result<(), AllocError> {
        let steps = bound.later;
        for parts in &row.parts.lines {
            if parts.line == line {
                write!(
                    &mut self.to,
                    "rests within {steps} instructions of line {line}, not within {most}\n"
                )?;
                return self.say_parts(row.parts.shares.as_slice(), parts);
            }
        }
        write!(
            &mut self.to,
            "is not known to deal with each interrupt of line {line}\n"
        )
    }

    /// Why a thread does not deal with a line as soon as it is to, by its level.
    fn say_level(&mut self, row: &Row, line: u32, most: u64) -> Result<(), AllocError> {
        match &row.response {
            Response::Bound(bound) => self.say_later(row, bound, line, most),
            Response::NoBound(why) => {
                write!(&mut self.to, "rests within no bound of line {line}\n")?;
                self.say_why(*why)
            }
            Response::TooMuch => {
                write!(
                    &mut self.to,
                    "rests within no bound of line {line} at these rates\n"
                )?;
                self.say_too_much(row.priority)
            }
        }
    }

    /// Why a thread does not deal with a line as soon as it is to.
    fn say_broken(&mut self, responses: &Responses, wanted: &Wanted<'_>) -> Result<(), AllocError> {
        self.begin(wanted)?;
        let Some(line) = wanted.line else {
            return self
                .to
                .push_str("waits for no interrupt line, so `within` says nothing\n");
        };
        for row in &responses.rows {
            if row.priority == wanted.priority {
                return self.say_level(row, line, wanted.within.most);
            }
        }
        self.to.push_str("is not in the image\n")
    }
}

/// The lines on what is not kept.
pub(crate) fn broken_lines(
    alloc: Global,
    scene: &Scene<'_, '_>,
    responses: &Responses,
    costs: Option<&Responses>,
    wanted: &[Wanted<'_>],
    kept: &[KeptWithin],
) -> Result<String, AllocError> {
    let mut report = Report {
        scene: *scene,
        offsets: responses.offsets.as_slice(),
        costs,
        to: String::new(alloc),
    };
    for one in wanted {
        if !kept.iter().any(|found| one.is_kept_by(found)) {
            report.say_broken(responses, one)?;
        }
    }
    Ok(report.to)
}
