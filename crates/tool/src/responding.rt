//! How soon systems deal with interrupts, and what is asked of that where they are made.

use crate::certificate_files::uncertified;
use crate::described_parts::{Whole, groups_of, whole_of};
use crate::making::image_of_text;
use crate::reports::{ToolFault, reported_name};
use crate::sources::{SystemText, read_system};
use drawing::LineAnswer;
use response_lines::{
    Answer, NotTold, answers_in, asks_responses, keep, rates_in, says_rates, tell,
};
use responses::Rate;
use sinks::{Sink, put_all};
use std::alloc::{AllocError, Global};
use std::rt::Files;
use std::time::Clock;

/// Why nothing is told of a system.
fn untold(file: &str, fault: NotTold) -> ToolFault<'_> {
    match fault {
        NotTold::Line(line) => ToolFault::Unread { file, line },
        NotTold::Image(refusal) => ToolFault::Image(refusal),
        NotTold::Wrong(said) => ToolFault::Wrong(said),
        NotTold::Broken(lines) => ToolFault::Refused(lines),
        NotTold::OutOfMemory => ToolFault::Memory,
    }
}

/// Puts how soon the levels of a system deal with interrupts, at the rates that words say, or else its description.
pub(crate) fn put_responses<'a, R: Files + Input + Clock + AllocGlobal, W: Sink, E: Sink>(
    rt: &R,
    source: &'a str,
    words: &[&'a str],
    output: &mut W,
    errors: &mut E,
) -> Result<(), ToolFault<'a>> {
    let system = read_system(rt, source)?;
    let Whole { text, image } = whole_of(rt, &system, errors)?;
    match tell(rt.alloc(), image.as_slice(), text.as_str(), words) {
        Ok(told) => Ok(put_all(output, told.lines.as_bytes())?),
        Err(fault) => Err(untold(system.name, fault)),
    }
}

/// What is said of the lines with which threads of a text deal as soon as it asks, if all of them do.
///
/// # Errors
///
/// One does not, with the lines that say so; or memory is refused.
fn kept_lines<'a>(
    alloc: Global,
    file: &'a str,
    text: &str,
    image: &[u8],
) -> Result<String, ToolFault<'a>> {
    if !asks_responses(text) {
        return Ok(String::new(alloc));
    }
    match keep(alloc, reported_name(file), image, text) {
        Ok(kept) => Ok(kept.said),
        Err(fault) => Err(untold(file, fault)),
    }
}

/// What is said of the image of a text besides budgets and notes: lines with which threads deal as soon as it asks, and groups of parts.
///
/// # Errors
///
/// Those of [`kept_lines`].
pub(crate) fn said_of<'a>(
    alloc: Global,
    system: &SystemText<'a>,
    image: &[u8],
) -> Result<String, ToolFault<'a>> {
    let mut said = kept_lines(alloc, system.name, system.text.as_str(), image)?;
    said.push_str(groups_of(alloc, system, image)?.as_str())?;
    Ok(said)
}

/// The threads of a text with certificates deal with lines as soon as it asks.
///
/// # Errors
///
/// Those of [`kept_lines`].
pub(crate) fn check_text<'a>(
    alloc: Global,
    file: &'a str,
    text: &[u8],
) -> Result<(), ToolFault<'a>> {
    let Ok(text) = std::str::from_utf8(text) else {
        return Err(ToolFault::Disagreement(file));
    };
    if !asks_responses(text) {
        return Ok(());
    }
    match image_of_text(alloc, text) {
        Ok(image) => {
            let _ = kept_lines(alloc, file, text, image.as_slice())?;
            Ok(())
        }
        Err(fault) => Err(uncertified(alloc, file, text, fault)),
    }
}

/// What is said of parts that deal with interrupts as soon as they are asked to, and of others.
#[derive(Drop)]
pub(crate) struct WithinSaid {
    pub(crate) kept: String,
    pub(crate) broken: String,
}

/// What is said of the image of a text whose parts are asked to deal with interrupts so soon.
///
/// # Errors
///
/// A line asks in another form, or memory is refused.
pub(crate) fn within_of<'a>(
    alloc: Global,
    file: &'a str,
    text: &str,
    image: &[u8],
) -> Result<WithinSaid, ToolFault<'a>> {
    match kept_lines(alloc, file, text, image) {
        Ok(kept) => Ok(WithinSaid {
            kept,
            broken: String::new(alloc),
        }),
        Err(ToolFault::Refused(broken)) => Ok(WithinSaid {
            kept: String::new(alloc),
            broken,
        }),
        Err(fault) => Err(fault),
    }
}

/// How often interrupts come, as a text says.
///
/// # Errors
///
/// A line says it in another form, or memory is refused.
pub(crate) fn rates_of_text<'a>(
    alloc: Global,
    file: &'a str,
    text: &str,
) -> Result<Vec<Rate>, ToolFault<'a>> {
    match rates_in(alloc, text) {
        Ok(rates) => Ok(rates),
        Err(fault) => Err(untold(file, fault)),
    }
}

/// What a chart shows of threads that deal with interrupts.
fn line_answers(alloc: Global, answers: &[Answer]) -> Result<Vec<LineAnswer>, AllocError> {
    let mut shown = Vec::new(alloc);
    for answer in answers {
        if let Ok(line) = u8::try_from(answer.line) {
            shown.push(LineAnswer {
                line,
                thread: answer.thread,
                steps: answer.steps,
            })?;
        }
    }
    Ok(shown)
}

/// Which threads of a system deal with interrupts, and within how many instructions: none where it says no rates, or no accepted image is made of it.
///
/// # Errors
///
/// Memory is refused.
pub(crate) fn answers_of<'a, R: Clock + AllocGlobal, E: Sink>(
    rt: &R,
    system: &SystemText<'a>,
    errors: &mut E,
) -> Result<Vec<LineAnswer>, ToolFault<'a>> {
    if !says_rates(system.text.as_str()) {
        return Ok(Vec::new(rt.alloc()));
    }
    match answered(rt, system, errors) {
        Ok(answers) => Ok(answers),
        Err(ToolFault::Memory) => Err(ToolFault::Memory),
        Err(_) => Ok(Vec::new(rt.alloc())),
    }
}

/// Which threads of a system deal with interrupts, and within how many instructions.
fn answered<'a, R: Clock + AllocGlobal, E: Sink>(
    rt: &R,
    system: &SystemText<'a>,
    errors: &mut E,
) -> Result<Vec<LineAnswer>, ToolFault<'a>> {
    let Whole { text, image } = whole_of(rt, system, errors)?;
    match answers_in(rt.alloc(), image.as_slice(), text.as_str()) {
        Ok(answers) => Ok(line_answers(rt.alloc(), answers.as_slice())?),
        Err(fault) => Err(untold(system.name, fault)),
    }
}
