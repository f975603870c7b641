//! Which threads deal with interrupts, and within how many instructions.

use crate::asked::rates_in;
use crate::faults::NotTold;
use crate::level_runs::address_of;
use crate::telling::responses_at;
use responses::{LineParts, Response, Responses};
use source_texts::{SourceText, read, with_budgets};
use std::alloc::{AllocError, Global};

/// A thread that deals with each interrupt of a line, once the threads of its priority and above have rested.
#[derive(Clone, Copy, Debug, PartialEq, Eq)]
pub struct Answer {
    pub line: u32,
    /// The physical address of its TCB.
    pub thread: u32,
    /// Within how many instructions.
    pub steps: u64,
}

/// The thread that an interrupt of a line sets going first, if it is of this priority.
fn answer_of(
    text: &SourceText<'_>,
    offsets: &[u32],
    priority: u32,
    parts: &LineParts,
    steps: u64,
) -> Option<Answer> {
    let first = parts.stretches.first()?;
    let thread = text.threads.get(first.thread as usize)?;
    if thread.priority != priority {
        return None;
    }
    Some(Answer {
        line: parts.line,
        thread: address_of(offsets, thread.tcb)?,
        steps,
    })
}

/// The threads that deal with interrupts, each by the number of its own level.
fn answers_of(
    alloc: Global,
    text: &SourceText<'_>,
    responses: &Responses,
) -> Result<Vec<Answer>, AllocError> {
    let mut answers = Vec::new(alloc);
    let offsets = responses.offsets.as_slice();
    for row in &responses.rows {
        if let Response::Bound(bound) = &row.response {
            for parts in &row.parts.lines {
                if let Some(answer) = answer_of(text, offsets, row.priority, parts, bound.later) {
                    answers.push(answer)?;
                }
            }
        }
    }
    Ok(answers)
}

/// Which threads of an image, whose text this is, deal with interrupts at the rates that the text says, and within how many instructions. None where it
/// says no rates.
///
/// # Errors
///
/// The text is of another form; the image is refused; or memory is refused.
pub fn answers_in(alloc: Global, image: &[u8], content: &str) -> Result<Vec<Answer>, NotTold> {
    let rates = rates_in(alloc, content)?;
    if rates.is_empty() {
        return Ok(Vec::new(alloc));
    }
    let whole = with_budgets(alloc, content)?;
    let text = read(alloc, whole.text.as_str())?;
    let responses = responses_at(alloc, image, rates.as_slice())?;
    Ok(answers_of(alloc, &text, &responses)?)
}
