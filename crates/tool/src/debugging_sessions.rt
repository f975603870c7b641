//! The command that debugs a system.

use crate::reports::ToolFault;
use crate::runs::{fault_of, image_to_run, names_of, not_run};
use crate::safe_runs::NotRun;
use crate::sources::{SystemText, read_system};
use console::read_all;
use image_reading::{ImageRef, read};
use model::{BootFault, Event};
use named_runs::named_events;
use named_traces::TextNames;
use remote_debugging::{Debugger, Part, Scene, ServeFault, parts_of, serve};
use runner::{RunFault, first_outside};
use sinks::{Sink, put_all};
use std::alloc::Global;
use std::rt::Files;
use std::time::Clock;
use verify::verify;

/// Which system is debugged over which events.
#[derive(Clone, Copy)]
pub(crate) struct Session<'a> {
    pub(crate) system: &'a str,
    /// The file of the events, if there is one.
    pub(crate) events: Option<&'a str>,
    /// The part whose breakpoints are set.
    pub(crate) part: Option<&'a str>,
    /// Whether the image is debugged without being verified.
    pub(crate) unverified: bool,
}

/// The events that are given, by the names of the system.
fn events_of<'a, R: Files + Input + AllocGlobal>(
    rt: &R,
    session: Session<'a>,
    names: &TextNames<'_>,
) -> Result<Vec<Event>, ToolFault<'a>> {
    let Some(file) = session.events else {
        return Ok(Vec::new(rt.alloc()));
    };
    let list = read_all(rt, file)?;
    match named_events(rt.alloc(), names, list.as_slice()) {
        Ok(events) => Ok(events),
        Err(fault) => Err(fault_of(rt.alloc(), file, NotRun::from(fault))),
    }
}

/// The events keep to the device pages of the image.
fn check_places<'a>(
    alloc: Global,
    image: &ImageRef<'_>,
    events: &[Event],
) -> Result<(), ToolFault<'a>> {
    match first_outside(alloc, image, events) {
        Ok(None) => Ok(()),
        Ok(Some(index)) => Err(ToolFault::Outside(index)),
        Err(_) => Err(ToolFault::Memory),
    }
}

/// The number of the part of this name.
fn part_of<'a, R: AllocGlobal>(
    rt: &R,
    parts: &[Part<'_>],
    name: Option<&str>,
) -> Result<Option<usize>, ToolFault<'a>> {
    let Some(name) = name else {
        return Ok(None);
    };
    match parts.iter().position(|part| part.name == name) {
        Some(part) => Ok(Some(part)),
        None => match format!(in rt.alloc(); "error: no part of the system is called `{name}`\n") {
            Ok(text) => Err(ToolFault::Wrong(text)),
            Err(_) => Err(ToolFault::Memory),
        },
    }
}

/// Why an image is not debugged.
fn not_started<'a>(fault: BootFault) -> ToolFault<'a> {
    match fault {
        BootFault::OutOfMemory => ToolFault::Memory,
        fault => ToolFault::Boot(fault),
    }
}

/// Serves a debugger over a scene, from the moment after these events on.
fn serve_scene<'a, R: Files + Input + AllocGlobal, W: Sink>(
    rt: &R,
    scene: Scene<'_, '_, '_, '_>,
    events: Vec<Event>,
    output: &mut W,
) -> Result<(), ToolFault<'a>> {
    let mut debugger = match Debugger::start(rt.alloc(), scene, events) {
        Ok(debugger) => debugger,
        Err(fault) => return Err(not_started(fault)),
    };
    match serve(rt, &mut debugger, rt.reader(), output) {
        Ok(()) => Ok(()),
        Err(ServeFault::Input) => Err(ToolFault::Input),
        Err(ServeFault::Output) => Err(ToolFault::Output),
        Err(ServeFault::OutOfMemory) => Err(ToolFault::Memory),
    }
}

/// Debugs an image that was read.
fn debug<'a, R: Files + Input + AllocGlobal, W: Sink>(
    rt: &R,
    session: Session<'a>,
    system: &SystemText<'a>,
    image: &ImageRef<'_>,
    output: &mut W,
) -> Result<(), ToolFault<'a>> {
    let names = names_of(rt.alloc(), system)?;
    let events = events_of(rt, session, &names)?;
    check_places(rt.alloc(), image, events.as_slice())?;
    let parts = parts_of(rt.alloc(), system.text.as_str(), &names)?;
    let scene = Scene {
        image,
        text: system.text.as_str(),
        names: &names,
        parts: parts.as_slice(),
        only: part_of(rt, parts.as_slice(), session.part)?,
        ends: session.events.is_some(),
    };
    serve_scene(rt, scene, events, output)
}

/// What is said of an image that is not verified.
const UNVERIFIED: &[u8] =
    b"The image is not verified: its parts may fault, be refused, and run as long as they like.\n";

/// Debugs the system in a file: packets of gdb's remote serial protocol come from standard input, and answers go to standard output.
pub(crate) fn debug_file<'a, R: Files + Input + Clock + AllocGlobal, W: Sink, E: Sink>(
    rt: &R,
    session: Session<'a>,
    output: &mut W,
    errors: &mut E,
) -> Result<(), ToolFault<'a>> {
    let mut system = read_system(rt, session.system)?;
    let bytes = image_to_run(rt, &mut system, session.unverified, errors)?;
    if session.unverified {
        put_all(errors, UNVERIFIED)?;
        return match read(bytes.as_slice()) {
            Ok(image) => debug(rt, session, &system, &image, output),
            Err(refusal) => Err(ToolFault::Image(refusal)),
        };
    }
    match verify(rt.alloc(), bytes.as_slice()) {
        Ok(accepted) => debug(rt, session, &system, accepted.image(), output),
        Err(refusal) => Err(not_run(RunFault::from(refusal))),
    }
}
