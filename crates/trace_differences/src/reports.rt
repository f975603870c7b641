//! What is said of a difference.

use crate::comparing::{Event, OtherByte, OtherEvent};
use crate::expectations::ExpectedByte;
use named_traces::TextNames;
use std::alloc::{AllocError, Global};
use trace_lines::Happening;

/// Puts the name of a device word after this, if the text knows it.
fn push_device_word(
    to: &mut String,
    names: &TextNames<'_>,
    before: &str,
    address: u32,
) -> Result<(), AllocError> {
    match names.device_word(address) {
        Some(word) => {
            to.push_str(before)?;
            word.push(to)
        }
        None => Ok(()),
    }
}

/// Puts the thread of an instruction and where that is in the text, or the name of a device word, as far as the text knows them, after
/// this.
fn push_where(
    to: &mut String,
    names: &TextNames<'_>,
    before: &str,
    told: Happening,
) -> Result<(), AllocError> {
    match told {
        Happening::Ran { thread, pc, .. } => push_instruction(to, names, before, thread, pc),
        Happening::Wrote { address, .. } | Happening::Showed { address, .. } => {
            push_device_word(to, names, before, address)
        }
        Happening::Idle | Happening::Tick | Happening::Interrupt(_) => Ok(()),
    }
}

/// Puts the thread of an instruction and where that is in the text, as far as the text knows them, after this.
fn push_instruction(
    to: &mut String,
    names: &TextNames<'_>,
    before: &str,
    thread: u32,
    pc: u32,
) -> Result<(), AllocError> {
    let Some(thread) = names.thread(thread) else {
        return Ok(());
    };
    to.push_str(before)?;
    to.push_str(thread.name)?;
    match names.place(thread, pc) {
        Some(place) => {
            to.push_str(" at ")?;
            place.push(to)
        }
        None => Ok(()),
    }
}

/// Puts an event, and where it was.
fn push_event(
    to: &mut String,
    names: &TextNames<'_>,
    role: &str,
    told: Happening,
) -> Result<(), AllocError> {
    write!(to, "  {role} ")?;
    told.push(to)?;
    push_where(to, names, ": ", told)?;
    to.push_str("\n")
}

/// Puts how what came misses the line that is expected, if there is one.
fn push_miss(to: &mut String, line: Option<u32>, has_come: bool) -> Result<(), AllocError> {
    match line {
        None => to.push_str("nothing more is expected\n"),
        Some(line) if has_come => write!(to, "not as line {line} of what is expected says\n"),
        Some(line) => write!(to, "missing: line {line} of what is expected says more\n"),
    }
}

/// What is said of an event.
pub(crate) fn event_report(
    alloc: Global,
    names: &TextNames<'_>,
    other: &OtherEvent,
) -> Result<String, AllocError> {
    let mut said = String::new(alloc);
    let number = other.number;
    write!(said, "event {number}: ")?;
    let line = other.expected.map(|expected| expected.line);
    push_miss(&mut said, line, other.came.is_some())?;
    if let Some(expected) = other.expected {
        push_event(&mut said, names, "expected", expected.told)?;
    }
    if let Some(told) = other.came {
        push_event(&mut said, names, "came", told)?;
    }
    Ok(said)
}

/// Puts a byte that is expected.
fn push_expected(to: &mut String, expected: ExpectedByte) -> Result<(), AllocError> {
    let byte = expected.byte;
    write!(to, "  expected {byte:02x}\n")
}

/// Puts a byte that came, and the event that put it.
fn push_byte(
    to: &mut String,
    names: &TextNames<'_>,
    byte: u8,
    event: Event,
) -> Result<(), AllocError> {
    let number = event.number;
    write!(to, "  came {byte:02x}: event {number}")?;
    push_where(to, names, ", ", event.told)?;
    to.push_str("\n")
}

/// What is said of a byte.
pub(crate) fn byte_report(
    alloc: Global,
    names: &TextNames<'_>,
    other: &OtherByte,
) -> Result<String, AllocError> {
    let mut said = String::new(alloc);
    let place = other.place;
    write!(said, "byte {place}: ")?;
    let line = other.expected.map(|expected| expected.line);
    push_miss(&mut said, line, other.came.is_some())?;
    if let Some(expected) = other.expected {
        push_expected(&mut said, expected)?;
    }
    if let Some((byte, event)) = other.came {
        push_byte(&mut said, names, byte, event)?;
    }
    Ok(said)
}
