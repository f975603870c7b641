//! The program: what it answers to the words of its command line.

ghost use Rattle.std.specs.Prelude.{ℕ, ◌≡◌, ◌≢◌};
ghost use Rattle.asm.specs.declared.faults.SourceFault.{SourceFault};
ghost use Rattle.command_line.specs.declared.commands.WordsFault.{WordsFault};
ghost use Rattle.runner.specs.declared.commands.Failure.{Failure};
ghost use Rattle.sinks.specs.declared.event_lists.EventsFault.{EventsFault};
ghost use Rattle.runner.specs.declared.running.RunFault.{RunFault};
ghost use Rattle.model.specs.declared.boot_faults.BootFault.{BootFault};
ghost use Rattle.model.specs.declared.refusals.Refusal.{Refusal};

use crate::building::build;
use crate::causes::{cause_at, what_else};
use crate::live_runs::{LiveFault, live, live_unverified};
use crate::running::{RunFault, run};
use crate::unverified::run_unverified;
use asm::SourceFault;
use command_line::{Request, parse};
use console::{
    DONE, FileFault, STANDARD, WordsFault, failed, read_bytes, refused, words, wrong_words,
};
use model::{BootFault, Event, Refusal};
use sinks::{EventsFault, ReaderLines, Sink, SinkFault, events, put_all};
use std::alloc::{AllocError, Global};
use std::convert::AsStr;
use std::rt::{Env, Files};
use verify::verify;

/// Why a request was not carried out.
pub enum Failure<'a> {
    /// The words are no request.
    Usage,
    /// This file cannot be read, or not be written.
    File(&'a str),
    /// Standard input cannot be read.
    Input,
    /// Standard output takes no more.
    Output,
    /// Memory was refused.
    Memory,
    /// The image is refused.
    Image(Refusal),
    /// This file is no image, but this.
    NotAnImage {
        file: &'a str,
        what: &'static str,
    },
    /// The image does not boot.
    Boot(BootFault),
    /// The list of events is refused at this line.
    Events(u64),
    /// The list of events in this file is refused at this line, for this.
    Event {
        file: &'a str,
        line: u64,
        cause: &'static str,
    },
    /// This file would be written, and is what is read.
    Overwritten(&'a str),
    /// The event of this index, from 0, is the first that is outside the device pages of the image.
    Outside(usize),
    /// The text of an image is refused.
    Source(SourceFault),
}

impl<'a> From<FileFault<'a>> for Failure<'a> {
    fn from(fault: FileFault<'a>) -> Self {
        match fault {
            FileFault::File(name) => Failure::File(name),
            FileFault::OutOfMemory => Failure::Memory,
        }
    }
}

impl From<SinkFault> for Failure<'_> {
    ghost from_gives = { λ _ failure. failure ≡ Failure.Output };

    fn from(_fault: SinkFault) -> Self {
        Failure::Output
    }
}

impl From<AllocError> for Failure<'_> {
    ghost from_gives = { λ _ failure. failure ≡ Failure.Memory };

    fn from(_fault: AllocError) -> Self {
        Failure::Memory
    }
}

impl From<WordsFault> for Failure<'_> {
    ghost from_gives = { λ fault failure. (fault ≡ WordsFault.Usage → failure ≡ Failure.Usage) × (fault ≡ WordsFault.OutOfMemory → failure ≡ Failure.Memory) };

    fn from(fault: WordsFault) -> Self {
        match fault {
            WordsFault::Usage => Failure::Usage,
            WordsFault::OutOfMemory => Failure::Memory,
        }
    }
}

impl From<EventsFault> for Failure<'_> {
    ghost from_gives = { λ fault failure. ((line : ℕ) → fault ≡ EventsFault.Line line → failure ≡ Failure.Events line)
        × (fault ≡ EventsFault.OutOfMemory → failure ≡ Failure.Memory) };

    fn from(fault: EventsFault) -> Self {
        match fault {
            EventsFault::Line(line) => Failure::Events(line),
            EventsFault::OutOfMemory => Failure::Memory,
        }
    }
}

impl From<SourceFault> for Failure<'_> {
    ghost from_gives = { λ fault failure. failure ≡ Failure.Source fault };

    fn from(fault: SourceFault) -> Self {
        Failure::Source(fault)
    }
}

impl From<Refusal> for Failure<'_> {
    ghost from_gives = { λ refusal failure. (refusal ≡ Refusal.OutOfMemory → failure ≡ Failure.Memory)
        × (refusal ≢ Refusal.OutOfMemory → failure ≡ Failure.Image refusal) };

    fn from(refusal: Refusal) -> Self {
        match refusal {
            Refusal::OutOfMemory => Failure::Memory,
            refusal => Failure::Image(refusal),
        }
    }
}

impl From<RunFault> for Failure<'_> {
    ghost from_gives = { λ fault failure. (fault ≡ RunFault.Output → failure ≡ Failure.Output) × (fault ≡ RunFault.OutOfMemory → failure ≡ Failure.Memory)
        × ((refusal : Refusal) → fault ≡ RunFault.Refused refusal → refusal ≢ Refusal.OutOfMemory → failure ≡ Failure.Image refusal)
        × ((index : ℕ) → fault ≡ RunFault.Outside index → failure ≡ Failure.Outside index)
        × ((boot : BootFault) → fault ≡ RunFault.Boot boot → failure ≡ Failure.Boot boot) };

    fn from(fault: RunFault) -> Self {
        match fault {
            RunFault::Refused(refusal) => Failure::from(refusal),
            RunFault::Outside(index) => Failure::Outside(index),
            RunFault::Boot(fault) => Failure::Boot(fault),
            RunFault::Output => Failure::Output,
            RunFault::OutOfMemory => Failure::Memory,
        }
    }
}

impl From<LiveFault> for Failure<'_> {
    fn from(fault: LiveFault) -> Self {
        match fault {
            LiveFault::Start(fault) => Failure::from(fault),
            LiveFault::Line(line) => Failure::Events(line),
            LiveFault::Input => Failure::Input,
            LiveFault::Output => Failure::Output,
        }
    }
}

/// Carries out what the words after the program's name ask for, and answers the exit status.
pub fn command<R: Files + Input + AllocGlobal, S: AsStr, W: Sink, E: Sink>(
    rt: &R,
    words: &[S],
    output: &mut W,
    errors: &mut E,
) -> u8 {
    match answer(rt, words, output) {
        Ok(()) => DONE,
        Err(failure) => report(rt.alloc(), failure, output, errors),
    }
}

/// Gathers the words of the process's command line, and carries them out.
pub fn command_line<R: Files + Env + Input + AllocGlobal, W: Sink, E: Sink>(
    rt: &R,
    output: &mut W,
    errors: &mut E,
) -> u8 {
    match words(rt) {
        Ok(words) => command(rt, words.as_slice(), output, errors),
        Err(fault) => report(rt.alloc(), Failure::from(fault), output, errors),
    }
}

/// Carries out a request up to its failure.
fn answer<'a, R: Files + Input + AllocGlobal, S: AsStr, W: Sink>(
    rt: &R,
    words: &'a [S],
    output: &mut W,
) -> Result<(), Failure<'a>> {
    match parse(rt.alloc(), words)? {
        Request::Verify { image } => verify_file(rt, image, output),
        Request::Run {
            image,
            events,
            unverified,
        } => run_file(rt, image, events, unverified, output),
        Request::Build { source, image } => build(rt, source, image),
    }
}

/// Says that the image of a file is accepted.
fn verify_file<'a, R: Files + AllocGlobal, W: Sink>(
    rt: &R,
    image: &'a str,
    output: &mut W,
) -> Result<(), Failure<'a>> {
    let bytes = read_bytes(rt, image)?;
    match put_verdict(rt.alloc(), bytes.as_slice(), output) {
        Ok(()) => Ok(()),
        Err(failure) => Err(of_file(failure, image, bytes.as_slice())),
    }
}

/// Why a file was not taken as an image: for what it is, if that is known.
fn of_file<'a>(failure: Failure<'a>, file: &'a str, bytes: &[u8]) -> Failure<'a> {
    match (failure, what_else(bytes)) {
        (Failure::Image(Refusal::Magic), Some(what)) => Failure::NotAnImage { file, what },
        (failure, _) => failure,
    }
}

/// Says that an image is accepted.
fn put_verdict<'a, W: Sink>(
    alloc: Global,
    bytes: &[u8],
    output: &mut W,
) -> Result<(), Failure<'a>> {
    drop(verify(alloc, bytes)?);
    Ok(put_all(output, b"accepted\n")?)
}

/// The events of a file.
fn events_in<'a, R: Files + AllocGlobal>(rt: &R, list: &'a str) -> Result<Vec<Event>, Failure<'a>> {
    let text = read_bytes(rt, list)?;
    match events(rt.alloc(), text.as_slice()) {
        Ok(events) => Ok(events),
        Err(EventsFault::Line(line)) => Err(Failure::Event {
            file: list,
            line,
            cause: cause_at(text.as_slice(), line),
        }),
        Err(EventsFault::OutOfMemory) => Err(Failure::Memory),
    }
}

/// Runs the image of a file over a list of events, or over the lines of standard input as they come.
fn run_file<'a, R: Files + Input + AllocGlobal, W: Sink>(
    rt: &R,
    image: &'a str,
    list: &'a str,
    unverified: bool,
    output: &mut W,
) -> Result<(), Failure<'a>> {
    let bytes = read_bytes(rt, image)?;
    if list == STANDARD {
        return run_live(rt, bytes.as_slice(), unverified, output);
    }
    let events = events_in(rt, list)?;
    let done = if unverified {
        run_unverified(rt.alloc(), bytes.as_slice(), events.as_slice(), output)
    } else {
        run(rt.alloc(), bytes.as_slice(), events.as_slice(), output)
    };
    match done {
        Ok(()) => Ok(()),
        Err(fault) => Err(of_file(Failure::from(fault), image, bytes.as_slice())),
    }
}

/// Puts more on a refusal on standard error, if there is the memory for it and the room.
fn explain<E: Sink>(line: Result<String, AllocError>, errors: &mut E) {
    if let Ok(line) = line {
        let _ = put_all(errors, line.as_bytes());
    }
}

/// Runs an image over the lines of standard input.
fn run_live<'a, R: Input + AllocGlobal, W: Sink>(
    rt: &R,
    bytes: &[u8],
    unverified: bool,
    output: &mut W,
) -> Result<(), Failure<'a>> {
    let mut lines = ReaderLines::new(rt.reader());
    if unverified {
        live_unverified(rt.alloc(), bytes, &mut lines, output)?;
    } else {
        live(rt.alloc(), bytes, &mut lines, output)?;
    }
    Ok(())
}

/// Says that a file would be written that is what is read, and answers the exit status.
fn report_overwritten<E: Sink>(alloc: Global, name: &str, errors: &mut E) -> u8 {
    match format!(in alloc; "file {name}: it is the source, which is not overwritten") {
        Ok(line) => failed(errors, line.as_bytes(), b""),
        Err(_) => failed(errors, b"memory", b""),
    }
}

/// Says why a request was not carried out, and answers the exit status.
fn report<W: Sink, E: Sink>(alloc: Global, failure: Failure, output: &mut W, errors: &mut E) -> u8 {
    match failure {
        Failure::Usage => wrong_words(errors),
        Failure::File(name) => failed(errors, b"file ", name.as_bytes()),
        Failure::Input => failed(errors, b"input", b""),
        Failure::Output => failed(errors, b"output", b""),
        Failure::Memory => failed(errors, b"memory", b""),
        Failure::Image(refusal) => refused(refusal_line(alloc, refusal), output, errors),
        Failure::Boot(fault) => refused(boot_line(alloc, fault), output, errors),
        Failure::Events(line) => refused(format!(in alloc; "events line {line}\n"), output, errors),
        Failure::Event { file, line, cause } => {
            explain(format!(in alloc; "{file}:{line}: {cause}\n"), errors);
            refused(format!(in alloc; "events line {line}\n"), output, errors)
        }
        Failure::NotAnImage { file, what } => {
            explain(format!(in alloc; "{file}: {what}\n"), errors);
            refused(refusal_line(alloc, Refusal::Magic), output, errors)
        }
        Failure::Overwritten(name) => report_overwritten(alloc, name, errors),
        Failure::Outside(index) => refused(outside_line(alloc, index), output, errors),
        Failure::Source(SourceFault { line, kind }) => {
            refused(format!(in alloc; "source {line} {kind}\n"), output, errors)
        }
    }
}

/// The line of a refusal: its number, name and items, and a refused call's error.
///
/// # Errors
///
/// Memory is refused.
pub fn refusal_line(alloc: Global, refusal: Refusal) -> Result<String, AllocError> {
    let number = refusal.number();
    let name = refusal.name();
    let (first, second) = refusal.items();
    match refusal {
        Refusal::CallRefused(_, error) => {
            let error = error.number();
            format!(in alloc; "refused {number} {name} {first} {second} {error}\n")
        }
        _ => format!(in alloc; "refused {number} {name} {first} {second}\n"),
    }
}

/// The line of an event that is outside the device pages, by its index from 0: events are counted from 1 there.
///
/// # Errors
///
/// Memory is refused.
pub fn outside_line(alloc: Global, index: usize) -> Result<String, AllocError> {
    let number = index.saturating_add(1);
    format!(in alloc; "events outside {number}\n")
}

/// The line of an image that does not boot.
///
/// # Errors
///
/// Memory is refused.
pub fn boot_line(alloc: Global, fault: BootFault) -> Result<String, AllocError> {
    match fault {
        BootFault::Kernel(call, error) => {
            let error = error.number();
            format!(in alloc; "boot error {call} {error}\n")
        }
        BootFault::Outside(item) => format!(in alloc; "boot outside {item}\n"),
        BootFault::OutOfMemory => Err(AllocError),
    }
}
