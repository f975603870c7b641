//! The command that compares the trace of a system with what is expected.

use crate::reports::{ToolFault, reported_name};
use crate::runs::{fault_of, names_of};
use crate::safe_runs::{NotRun, run_by_names};
use crate::sources::{SystemText, read_system};
use crate::systems::image_of;
use console::{DONE, REFUSED, read_all};
use response_lines::{NotTold, longest_runs, notes_on_rates};
use runner::{MemorySink, RunFault};
use sinks::{Sink, put_all};
use std::alloc::Global;
use std::rt::Files;
use std::time::Clock;
use system_notes::{NotesFault, notes_on_events};
use trace_differences::{TraceFault, first_difference};

/// The most bytes of a trace: a million events with lines of at most so many bytes.
const ROOM: usize = 100_000_000;

/// A file and its bytes: a list of events, or what is expected.
#[derive(Clone, Copy)]
pub(crate) struct FileBytes<'a, 'l> {
    pub(crate) file: &'a str,
    pub(crate) bytes: &'l [u8],
}

/// Why the trace of a system of this name was not compared with what is expected in a file.
fn not_compared<'a>(name: &'a str, expected: &'a str, fault: TraceFault) -> ToolFault<'a> {
    match fault {
        TraceFault::Text { line } => ToolFault::Unread { file: name, line },
        TraceFault::Trace { .. } => ToolFault::Disagreement(name),
        TraceFault::Expected { line } => ToolFault::Unread {
            file: reported_name(expected),
            line,
        },
        TraceFault::OutOfMemory => ToolFault::Memory,
    }
}

/// The trace of an image of a system over the events in a file.
pub(crate) fn traced<'a>(
    alloc: Global,
    system: &SystemText<'a>,
    image: &[u8],
    list: FileBytes<'a, '_>,
) -> Result<MemorySink, ToolFault<'a>> {
    let names = names_of(alloc, system)?;
    let mut trace = MemorySink::new(alloc, ROOM);
    match run_by_names(alloc, image, &names, list.bytes, &mut trace) {
        Ok(()) => Ok(trace),
        Err(NotRun::Run(RunFault::Output)) => Err(ToolFault::Memory),
        Err(fault) => Err(fault_of(alloc, list.file, fault)),
    }
}

/// The lines of the first difference between a trace of a system and what is expected.
fn compared<'a>(
    alloc: Global,
    system: &SystemText<'a>,
    trace: &MemorySink,
    expected: FileBytes<'a, '_>,
) -> Result<Option<String>, ToolFault<'a>> {
    match first_difference(alloc, system.text.as_str(), trace.bytes(), expected.bytes) {
        Ok(found) => Ok(found),
        Err(fault) => Err(not_compared(system.name, expected.file, fault)),
    }
}

/// Puts what is told, if anything can be.
fn put_told<'a, E: Sink>(
    told: Result<String, NotTold>,
    errors: &mut E,
) -> Result<(), ToolFault<'a>> {
    match told {
        Ok(lines) => Ok(put_all(errors, lines.as_bytes())?),
        Err(NotTold::OutOfMemory) => Err(ToolFault::Memory),
        Err(_) => Ok(()),
    }
}

/// Puts what is odd about a list of events for a system.
fn put_notes<'a, E: Sink>(
    alloc: Global,
    system: &SystemText<'a>,
    file: &str,
    list: &[u8],
    errors: &mut E,
) -> Result<(), ToolFault<'a>> {
    match notes_on_events(alloc, system.text.as_str(), file, list) {
        Ok(notes) => put_all(errors, notes.as_bytes())?,
        Err(NotesFault::Refused) => return Ok(()),
        Err(NotesFault::OutOfMemory) => return Err(ToolFault::Memory),
    }
    // Which interrupts come more often than the system says.
    put_told(
        notes_on_rates(alloc, system.text.as_str(), file, list),
        errors,
    )
}

/// Runs the system in a file over the events of another, puts the first difference from what is expected, and returns the exit
/// status: that of a refusal where there is one.
pub(crate) fn test_file<'a, R: Files + Input + Clock + AllocGlobal, W: Sink, E: Sink>(
    rt: &R,
    system: &'a str,
    events: &'a str,
    expected: &'a str,
    output: &mut W,
    errors: &mut E,
) -> Result<u8, ToolFault<'a>> {
    let system = read_system(rt, system)?;
    let lines = read_all(rt, events)?;
    let wanted = read_all(rt, expected)?;
    put_notes(rt.alloc(), &system, events, lines.as_slice(), errors)?;
    let image = image_of(rt, &system, errors)?;
    let list = FileBytes {
        file: events,
        bytes: lines.as_slice(),
    };
    let trace = traced(rt.alloc(), &system, image.as_slice(), list)?;
    let expected = FileBytes {
        file: expected,
        bytes: wanted.as_slice(),
    };
    let found = compared(rt.alloc(), &system, &trace, expected)?;
    // How long each level ran on end, beside its bound.
    let runs = longest_runs(
        rt.alloc(),
        image.as_slice(),
        system.text.as_str(),
        trace.bytes(),
    );
    put_told(runs, errors)?;
    match found {
        Some(lines) => {
            put_all(output, lines.as_bytes())?;
            Ok(REFUSED)
        }
        None => {
            put_all(output, b"as expected\n")?;
            Ok(DONE)
        }
    }
}
