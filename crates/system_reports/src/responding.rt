//! How soon the levels of an image come to rest, in words and by names.

use crate::findings::{Answer, AskedWithin, LineBound, RateRow, ResponseRow, Share};
use crate::members::part_name;
use responses::{
    Bound, Cause, How, Parts, PlacedPoint, Rate, Reason, Response, Responses, Row, Stretch, Why,
};
use source_texts::SourceText;
use std::alloc::{AllocError, Global};

/// The rate that a word `LINE:BURST:PERIOD` says: in any stretch at most so many interrupts of the line, and one more for each period.
pub fn rate_of_word(word: &str) -> Option<Rate> {
    let (line, rest) = word.split_once(':')?;
    let (burst, period) = rest.split_once(':')?;
    Some(Rate {
        line: line.parse::<u32>().ok()?,
        burst: burst.parse::<u64>().ok()?,
        period: period.parse::<u64>().ok()?,
    })
}

/// Rates as data.
pub(crate) fn rate_rows(alloc: Global, rates: &[Rate]) -> Result<Vec<RateRow>, AllocError> {
    let mut rows = Vec::new(alloc);
    for rate in rates {
        rows.push(RateRow {
            line: rate.line,
            burst: rate.burst,
            period: rate.period,
        })?;
    }
    Ok(rows)
}

/// What is asked of parts, by lines on what is so and on what is not.
pub(crate) fn within_in<'a>(
    alloc: Global,
    kept: &'a str,
    broken: &'a str,
) -> Result<Vec<AskedWithin<'a>>, AllocError> {
    let mut all = Vec::new(alloc);
    for said in kept.lines() {
        all.push(AskedWithin { said, holds: true })?;
    }
    for said in broken.lines() {
        if !said.starts_with(' ') {
            all.push(AskedWithin { said, holds: false })?;
        }
    }
    Ok(all)
}

/// Rows that are being put into words.
#[derive(Drop)]
struct Wording<'t, 'a> {
    alloc: Global,
    text: &'t SourceText<'a>,
    /// The offsets of the objects, by their numbers.
    offsets: &'t [u32],
}

impl<'a> Wording<'_, 'a> {
    /// The name of the object at an offset.
    fn object_at(&self, offset: u32) -> &'a str {
        match self.offsets.iter().position(|other| *other == offset) {
            Some(number) => self.text.object_name(number),
            None => "?",
        }
    }

    /// The name of a thread by its number.
    fn thread(&self, number: u32) -> &'a str {
        part_name(self.text, number as usize)
    }

    /// What a share of a bound is for.
    fn reason(&self, reason: Reason) -> Result<String, AllocError> {
        match reason {
            Reason::LeftAt { object } => {
                let name = self.object_at(object);
                format!(in self.alloc; "what may be left at {name}")
            }
            Reason::Pending { line } => format!(in self.alloc;
                "an interrupt of line {line} that is pending"
            ),
            Reason::WaitsWith { thread } => {
                let name = self.thread(thread);
                format!(in self.alloc; "what {name} may wait with")
            }
            Reason::FromBelow => String::from_str(
                self.alloc,
                "what one step of a part below sets going",
            ),
            Reason::Comes { line, times } => {
                format!(in self.alloc; "{times} interrupts of line {line} that come meanwhile")
            }
        }
    }

    /// Where an instruction is.
    fn place(&self, point: PlacedPoint) -> Result<String, AllocError> {
        let name = self.thread(point.thread);
        let number = point.point;
        format!(in self.alloc; "point {number} of {name}")
    }

    /// Why a thread runs.
    fn cause(&self, cause: Cause) -> Result<String, AllocError> {
        match cause {
            Cause::Taken { object } => {
                let name = self.object_at(object);
                format!(in self.alloc; "what it takes at {name}")
            }
            Cause::SetGoing { by, how } => {
                let (verb, place) = (how_words(how), self.place(by)?);
                format!(in self.alloc; "{verb} by {place}")
            }
            Cause::GoesOn { from, .. } => {
                let place = self.place(from)?;
                format!(in self.alloc; "it goes on after {place}")
            }
            Cause::Further => String::from_str(self.alloc, "all else that is set going"),
        }
    }

    /// A stretch of a thread.
    fn stretch(&self, stretch: &Stretch) -> Result<Share, AllocError> {
        let (name, cause) = (self.thread(stretch.thread), self.cause(stretch.cause)?);
        Ok(Share {
            steps: stretch.steps,
            reason: format!(in self.alloc; "{name}: {cause}")?,
        })
    }

    /// The shares of a bound.
    fn shares(&self, parts: &Parts) -> Result<Vec<Share>, AllocError> {
        let mut shares = Vec::new(self.alloc);
        for share in &parts.shares {
            shares.push(Share {
                steps: share.steps,
                reason: self.reason(share.reason)?,
            })?;
        }
        Ok(shares)
    }

    /// The lines that are dealt with.
    fn lines(&self, parts: &Parts) -> Result<Vec<LineBound>, AllocError> {
        let mut lines = Vec::new(self.alloc);
        for line in &parts.lines {
            let mut sets_going = Vec::new(self.alloc);
            for stretch in &line.stretches {
                sets_going.push(self.stretch(stretch)?)?;
            }
            lines.push(LineBound {
                line: line.line,
                sets_going,
            })?;
        }
        Ok(lines)
    }

    /// Why there is no bound.
    fn why(&self, why: Why) -> Result<String, AllocError> {
        match why {
            Why::Rises(point) => {
                let place = self.place(point)?;
                format!(in self.alloc;
                    "from {place} on something keeps itself going, or is rung in a loop"
                )
            }
            Why::NoRate(line) => format!(in self.alloc; "no rate of line {line} is given"),
            Why::OutOfRange => String::from_str(
                self.alloc,
                "a rate has no period or no line, or numbers are too great",
            ),
        }
    }

    /// A bound.
    fn bound(&self, bound: &Bound, parts: &Parts) -> Result<Answer, AllocError> {
        Ok(Answer::Bound {
            steps: bound.steps,
            later: bound.later,
            shares: self.shares(parts)?,
            lines: self.lines(parts)?,
        })
    }

    /// The answer of a row.
    fn answer(&self, row: &Row) -> Result<Answer, AllocError> {
        match &row.response {
            Response::Bound(bound) => self.bound(bound, &row.parts),
            Response::NoBound(why) => Ok(Answer::NoBound {
                reason: self.why(*why)?,
            }),
            Response::TooMuch => Ok(Answer::NoBound {
                reason: String::from_str(self.alloc, "the rates ask for more than there is")?,
            }),
        }
    }

    /// The names of the threads of a priority and above.
    fn parts(&self, priority: u32) -> Result<Vec<&'a str>, AllocError> {
        let mut parts = Vec::new(self.alloc);
        for thread in &self.text.threads {
            if thread.priority >= priority {
                parts.push(self.text.object_name(thread.tcb))?;
            }
        }
        Ok(parts)
    }
}

/// How something is set going, in words.
fn how_words(how: How) -> &'static str {
    match how {
        How::Rung => "rung",
        How::Sent => "sent to",
        How::Called => "called",
    }
}

/// The answers for all levels of an image, by the names of its text.
pub(crate) fn responses_in<'a>(
    alloc: Global,
    text: &SourceText<'a>,
    found: &Responses,
) -> Result<Vec<ResponseRow<'a>>, AllocError> {
    let wording = Wording {
        alloc,
        text,
        offsets: found.offsets.as_slice(),
    };
    let mut rows = Vec::new(alloc);
    for row in &found.rows {
        rows.push(ResponseRow {
            priority: row.priority,
            parts: wording.parts(row.priority)?,
            answer: wording.answer(row)?,
        })?;
    }
    Ok(rows)
}
