//! Runs of systems, over a list of events or over lines as they come, with the names of the system.

use crate::certificate_files::uncertified;
use crate::making::image_as_written;
use crate::reports::{ToolFault, on_errors};
use crate::safe_runs::{NotRun, live_by_names, live_fault, run_by_names};
use crate::sources::{SystemText, read_system};
use crate::systems::image_of;
use byte_lines::ByteSink;
use console::{STANDARD, read_all};
use named_runs::{NameSink, NamedLines, PartBytes, Printers, named_events};
use named_traces::TextNames;
use runner::{RunFault, live_unverified, run_unverified};
use sinks::Sink;
use source_texts::{TextFault, has_automatic_budget};
use std::alloc::Global;
use std::io::{BufRead, BufReader};
use std::rt::Files;
use std::time::Clock;
use tool_requests::Shown;

/// Why a line of a live run has no event that is done, where its words are those of one.
const OUTSIDE: &str = "the address is that of no word of a device page";

/// Which system runs over which events, and what is put of it.
#[derive(Clone, Copy)]
pub(crate) struct Run<'a> {
    pub(crate) system: &'a str,
    /// The file of the events, or `-` for the lines of standard input as they come.
    pub(crate) events: &'a str,
    /// Whether the image runs without being verified.
    pub(crate) unverified: bool,
    pub(crate) shown: Shown<'a>,
}

/// The events of a run.
#[derive(Clone, Copy)]
struct Events<'a, 'l> {
    /// The name of their file.
    file: &'a str,
    /// The bytes of a list, unless lines are read as they come.
    list: Option<&'l [u8]>,
}

/// Why an image was not run.
pub(crate) fn not_run<'a>(fault: RunFault) -> ToolFault<'a> {
    match fault {
        RunFault::Refused(refusal) => ToolFault::Image(refusal),
        RunFault::Outside(index) => ToolFault::Outside(index),
        RunFault::Boot(fault) => ToolFault::Boot(fault),
        RunFault::Output => ToolFault::Output,
        RunFault::OutOfMemory => ToolFault::Memory,
    }
}

/// Why an image was not run over the events in a file.
pub(crate) fn fault_of(alloc: Global, file: &str, fault: NotRun) -> ToolFault<'_> {
    match fault {
        NotRun::Line {
            line,
            why: Some(why),
        } => ToolFault::Events { file, line, why },
        NotRun::Line { line, why: None } => match String::from_str(alloc, OUTSIDE) {
            Ok(why) => ToolFault::Events { file, line, why },
            Err(_) => ToolFault::Memory,
        },
        NotRun::Run(fault) => not_run(fault),
        NotRun::Input => ToolFault::Input,
        NotRun::OutOfMemory => ToolFault::Memory,
    }
}

/// The names of a system.
///
/// # Errors
///
/// Its text is not read from some line on, or memory is refused.
pub(crate) fn names_of<'a, 't>(
    alloc: Global,
    system: &'t SystemText<'a>,
) -> Result<TextNames<'t>, ToolFault<'a>> {
    match TextNames::read(alloc, system.text.as_str()) {
        Ok(names) => Ok(names),
        Err(TextFault::Line(line)) => Err(ToolFault::Unread {
            file: system.name,
            line,
        }),
        Err(TextFault::OutOfMemory) => Err(ToolFault::Memory),
    }
}

/// Whether a budget of a text is still to be found.
fn wants_budgets(text: &str) -> bool {
    for line in text.lines() {
        if has_automatic_budget(line) {
            return true;
        }
    }
    false
}

/// The image of a system that is to run: itself, or that of its text. Where it is not to be verified it is that of the text as it is, if
/// that has all of its budgets.
pub(crate) fn image_to_run<'a, R: Clock + AllocGlobal, E: Sink>(
    rt: &R,
    system: &mut SystemText<'a>,
    unverified: bool,
    errors: &mut E,
) -> Result<Vec<u8>, ToolFault<'a>> {
    if let Some(image) = system.image.take() {
        return Ok(image);
    }
    if !unverified || wants_budgets(system.text.as_str()) {
        return image_of(rt, system, errors);
    }
    match image_as_written(rt.alloc(), system.text.as_str()) {
        Ok(image) => Ok(image),
        Err(fault) => Err(uncertified(rt.alloc(), system.name, system.text.as_str(), fault)),
    }
}

/// An image that is to run, with the names of its system.
#[derive(Clone, Copy)]
struct Runnable<'i, 't> {
    image: &'i [u8],
    names: &'i TextNames<'t>,
    unverified: bool,
}

impl Runnable<'_, '_> {
    /// Runs it over a list of events.
    fn run_listed<S: Sink>(&self, alloc: Global, list: &[u8], sink: &mut S) -> Result<(), NotRun> {
        if self.unverified {
            let events = named_events(alloc, self.names, list)?;
            run_unverified(alloc, self.image, events.as_slice(), sink)?;
            Ok(())
        } else {
            run_by_names(alloc, self.image, self.names, list, sink)
        }
    }

    /// Runs it over the lines of a reader: the lines of the events of each are out before the next one is read.
    fn run_live<B: BufRead + Drop, S: Sink>(
        &self,
        alloc: Global,
        reader: B,
        sink: &mut S,
    ) -> Result<(), NotRun> {
        if self.unverified {
            live_unverified_by_names(alloc, self.image, self.names, reader, sink)
        } else {
            live_by_names(alloc, self.image, self.names, reader, sink)
        }
    }
}

/// Runs an image that is not verified over the lines of a reader.
fn live_unverified_by_names<B: BufRead + Drop, S: Sink>(
    alloc: Global,
    image: &[u8],
    names: &TextNames<'_>,
    reader: B,
    sink: &mut S,
) -> Result<(), NotRun> {
    let mut lines = NamedLines::new(alloc, names, reader);
    match live_unverified(alloc, image, &mut lines, sink) {
        Ok(()) => Ok(()),
        Err(fault) => Err(live_fault(alloc, fault, &lines)),
    }
}

/// Runs an image over the events of a request, and puts its lines into a sink.
fn run_into<'a, R: Input + AllocGlobal, S: Sink>(
    rt: &R,
    runnable: &Runnable<'_, '_>,
    events: Events<'a, '_>,
    sink: &mut S,
) -> Result<(), ToolFault<'a>> {
    let ran = match events.list {
        Some(list) => runnable.run_listed(rt.alloc(), list, sink),
        None => match BufReader::new(rt.alloc(), rt.reader()) {
            Ok(reader) => runnable.run_live(rt.alloc(), reader, sink),
            Err(_) => Err(NotRun::OutOfMemory),
        },
    };
    match ran {
        Ok(()) => Ok(()),
        Err(fault) => Err(fault_of(rt.alloc(), events.file, fault)),
    }
}

/// Runs an image, of which the bytes are put alone. The line of a refusal goes to standard error.
fn run_bytes<'a, R: Input + AllocGlobal, W: Sink>(
    rt: &R,
    runnable: &Runnable<'_, '_>,
    events: Events<'a, '_>,
    output: &mut W,
) -> Result<(), ToolFault<'a>> {
    let mut bytes = ByteSink::new(rt.alloc(), output);
    match run_into(rt, runnable, events, &mut bytes) {
        Ok(()) => Ok(()),
        Err(fault) => Err(on_errors(rt.alloc(), fault)),
    }
}

/// Why the bytes of a part of this name are not put.
fn unknown_part<'a>(alloc: Global, part: &str) -> ToolFault<'a> {
    match format!(in alloc; "error: no part of the system is called `{part}`\n") {
        Ok(text) => ToolFault::Wrong(text),
        Err(_) => ToolFault::Memory,
    }
}

/// Runs an image, of which the bytes are put by the parts that print them. The line of a refusal goes to standard error.
fn run_printed<'a, R: Input + AllocGlobal, W: Sink>(
    rt: &R,
    runnable: &Runnable<'_, '_>,
    events: Events<'a, '_>,
    printers: Printers,
    output: &mut W,
) -> Result<(), ToolFault<'a>> {
    let mut bytes = PartBytes::new(rt.alloc(), runnable.names, printers, output);
    match run_into(rt, runnable, events, &mut bytes) {
        Ok(()) => Ok(()),
        Err(fault) => Err(on_errors(rt.alloc(), fault)),
    }
}

/// Runs an image, and puts what is to be shown.
fn run_shown<'a, R: Input + AllocGlobal, W: Sink>(
    rt: &R,
    runnable: &Runnable<'_, '_>,
    events: Events<'a, '_>,
    shown: Shown<'_>,
    output: &mut W,
) -> Result<(), ToolFault<'a>> {
    match shown {
        Shown::Named => {
            let mut named = NameSink::new(rt.alloc(), runnable.names, output);
            run_into(rt, runnable, events, &mut named)
        }
        Shown::Plain => run_into(rt, runnable, events, output),
        Shown::Bytes => run_bytes(rt, runnable, events, output),
        Shown::BytesOf(part) => match runnable.names.thread_address(part) {
            Some(address) => run_printed(rt, runnable, events, Printers::One(address), output),
            None => Err(unknown_part(rt.alloc(), part)),
        },
        Shown::BytesByPart => run_printed(rt, runnable, events, Printers::Each, output),
    }
}

/// The lines of the events, unless they come one after another.
fn lines_of<'a, R: Files + Input + AllocGlobal>(
    rt: &R,
    events: &'a str,
) -> Result<Option<Vec<u8>>, ToolFault<'a>> {
    if events == STANDARD {
        Ok(None)
    } else {
        Ok(Some(read_all(rt, events)?))
    }
}

/// Runs the system in a file over events.
pub(crate) fn run_file<'a, R: Files + Input + Clock + AllocGlobal, W: Sink, E: Sink>(
    rt: &R,
    run: Run<'a>,
    output: &mut W,
    errors: &mut E,
) -> Result<(), ToolFault<'a>> {
    let mut system = read_system(rt, run.system)?;
    let lines = lines_of(rt, run.events)?;
    let image = image_to_run(rt, &mut system, run.unverified, errors)?;
    let names = names_of(rt.alloc(), &system)?;
    let runnable = Runnable {
        image: image.as_slice(),
        names: &names,
        unverified: run.unverified,
    };
    let events = Events {
        file: run.events,
        list: match &lines {
            Some(lines) => Some(lines.as_slice()),
            None => None,
        },
    };
    run_shown(rt, &runnable, events, run.shown, output)
}
