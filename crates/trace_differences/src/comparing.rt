//! The first event or byte that is not as expected.

use crate::expectations::{Expectation, ExpectedByte, ExpectedEvent, expectation_of};
use crate::faults::TraceFault;
use crate::reports::{byte_report, event_report};
use named_traces::TextNames;
use std::alloc::Global;
use trace_lines::{Happening, told_by, without_end};

/// An event that came, and its number.
#[derive(Clone, Copy, Debug)]
pub(crate) struct Event {
    pub(crate) number: u64,
    pub(crate) told: Happening,
}

/// An event that is not as expected, or is missing, or superfluous.
#[derive(Clone, Copy, Debug)]
pub(crate) struct OtherEvent {
    /// The number of the event, from 1.
    pub(crate) number: u64,
    pub(crate) expected: Option<ExpectedEvent>,
    pub(crate) came: Option<Happening>,
}

/// A byte that is not as expected, or is missing, or superfluous.
#[derive(Clone, Copy, Debug)]
pub(crate) struct OtherByte {
    /// The place of the byte among the bytes, from 1.
    pub(crate) place: u64,
    pub(crate) expected: Option<ExpectedByte>,
    /// The byte that came, and the event that put it.
    pub(crate) came: Option<(u8, Event)>,
}

/// The first event that is not as expected.
fn other_event(trace: &[u8], expected: &[ExpectedEvent]) -> Result<Option<OtherEvent>, TraceFault> {
    let mut number = 0u64;
    let mut left = expected;
    for piece in trace.split_inclusive(|byte| *byte == b'\n') {
        number = number.saturating_add(1);
        let Some(told) = told_by(without_end(piece)) else {
            return Err(TraceFault::Trace { line: number });
        };
        match left {
            [next, rest @ ..] if next.told == told => left = rest,
            _ => {
                return Ok(Some(OtherEvent {
                    number,
                    expected: left.first().copied(),
                    came: Some(told),
                }));
            }
        }
    }
    Ok(missing_event(number.saturating_add(1), left))
}

/// The event that is missing at the end, if one is.
fn missing_event(number: u64, left: &[ExpectedEvent]) -> Option<OtherEvent> {
    let next = left.first()?;
    Some(OtherEvent {
        number,
        expected: Some(*next),
        came: None,
    })
}

/// The bytes that are compared: those that are left, and the place of the next one.
#[derive(Clone, Copy)]
struct BytesLeft<'e> {
    left: &'e [ExpectedByte],
    place: u64,
}

impl BytesLeft<'_> {
    /// Takes notice of a byte: whether it is not as expected.
    fn compare(&mut self, byte: u8, event: Event) -> Option<OtherByte> {
        match self.left {
            [next, rest @ ..] if next.byte == byte => {
                self.left = rest;
                self.place = self.place.saturating_add(1);
                None
            }
            _ => Some(OtherByte {
                place: self.place,
                expected: self.left.first().copied(),
                came: Some((byte, event)),
            }),
        }
    }

    /// The byte that is missing at the end, if one is.
    fn missing(&self) -> Option<OtherByte> {
        let next = self.left.first()?;
        Some(OtherByte {
            place: self.place,
            expected: Some(*next),
            came: None,
        })
    }
}

/// The first byte that is not as expected.
fn other_byte(trace: &[u8], expected: &[ExpectedByte]) -> Result<Option<OtherByte>, TraceFault> {
    let mut bytes = BytesLeft {
        left: expected,
        place: 1,
    };
    let mut number = 0u64;
    for piece in trace.split_inclusive(|byte| *byte == b'\n') {
        number = number.saturating_add(1);
        let Some(told) = told_by(without_end(piece)) else {
            return Err(TraceFault::Trace { line: number });
        };
        if let Some(byte) = told.byte() {
            let other = bytes.compare(byte, Event { number, told });
            if other.is_some() {
                return Ok(other);
            }
        }
    }
    Ok(bytes.missing())
}

/// What is reported of the first event that is not as expected.
fn reported_event(
    alloc: Global,
    names: &TextNames<'_>,
    trace: &[u8],
    expected: &[ExpectedEvent],
) -> Result<Option<String>, TraceFault> {
    match other_event(trace, expected)? {
        Some(other) => Ok(Some(event_report(alloc, names, &other)?)),
        None => Ok(None),
    }
}

/// What is reported of the first byte that is not as expected.
fn reported_byte(
    alloc: Global,
    names: &TextNames<'_>,
    trace: &[u8],
    expected: &[ExpectedByte],
) -> Result<Option<String>, TraceFault> {
    match other_byte(trace, expected)? {
        Some(other) => Ok(Some(byte_report(alloc, names, &other)?)),
        None => Ok(None),
    }
}

/// Compares a trace with what is expected of it, and reports the first difference, in lines: the number of the event, what was
/// expected, and what came, with the name of the thread and the line of the text of the image. Lines that are missing at the end, or
/// superfluous, are differences; `None` says that there is none. After a `#` a line of what is expected is a comment. If the first
/// line that says something is `byte XX`, or bytes of two hexadecimal digits each, only the bytes that are put are compared, and all
/// lines are of these two forms; else all events are compared, by lines as a trace has them, with the names of the text or without. Two
/// files take time in proportion to their lengths, and memory in proportion to what is expected.
///
/// # Errors
///
/// The first line of the text, of what is expected, or of the trace up to the difference that is malformed; or memory is refused.
pub fn first_difference(
    alloc: Global,
    text: &str,
    trace: &[u8],
    expected: &[u8],
) -> Result<Option<String>, TraceFault> {
    let names = TextNames::read(alloc, text)?;
    match expectation_of(alloc, &names, expected)? {
        Expectation::Events(events) => reported_event(alloc, &names, trace, &events),
        Expectation::Bytes(bytes) => reported_byte(alloc, &names, trace, &bytes),
    }
}
