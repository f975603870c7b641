//! Why a request was not carried out, and how that is reported.

use console::{
    DONE, REFUSED, STANDARD, StreamFault, USAGE, WordsFault, failed, refused, wrong_words,
};
use drawing::DrawingFault;
use explaining::ExplainFault;
use model::{BootFault, Refusal};
use runner::{boot_line, outside_line, refusal_line};
use sinks::{Sink, SinkFault, put_all};
use std::alloc::{AllocError, Global};
use system_pictures::PictureFault;
use tool_requests::NoRequest;

/// Why a request was not carried out.
#[derive(Drop)]
pub(crate) enum ToolFault<'a> {
    /// The words are no text.
    Usage,
    /// The words ask for help or the version, which is this text.
    Shown(String),
    /// The words are wrong, as this text says.
    Wrong(String),
    /// A file or standard input is not read, or a file not written.
    Stream(StreamFault<'a>),
    /// This file would be written, and is one of those that are read.
    Overwritten(&'a str),
    /// Numbers are given for names, and what is in this file is no description.
    NoNumbers(&'a str),
    /// Standard output takes no more.
    Output,
    /// Memory was refused.
    Memory,
    /// The text is refused, and these lines say why.
    Refused(String),
    /// The image is refused.
    Image(Refusal),
    /// The image does not boot.
    Boot(BootFault),
    /// This line of events is refused, for this reason.
    Events {
        file: &'a str,
        line: u64,
        why: String,
    },
    /// Standard input cannot be read.
    Input,
    /// The event of this index, from 0, is the first that is outside the device pages of the image.
    Outside(usize),
    /// This line of a file is none of a text.
    Unread {
        file: &'a str,
        line: u64,
    },
    /// Two parts of the program disagree on a text, whose file this is.
    Disagreement(&'a str),
    /// This line is none of what is to be drawn.
    Malformed(u64),
}

impl From<SinkFault> for ToolFault<'_> {
    fn from(_fault: SinkFault) -> Self {
        ToolFault::Output
    }
}

impl From<AllocError> for ToolFault<'_> {
    fn from(_fault: AllocError) -> Self {
        ToolFault::Memory
    }
}

impl From<NoRequest> for ToolFault<'_> {
    fn from(fault: NoRequest) -> Self {
        match fault {
            NoRequest::Shown(text) => ToolFault::Shown(text),
            NoRequest::Wrong(text) => ToolFault::Wrong(text),
            NoRequest::OutOfMemory => ToolFault::Memory,
        }
    }
}

impl From<WordsFault> for ToolFault<'_> {
    fn from(fault: WordsFault) -> Self {
        match fault {
            WordsFault::Usage => ToolFault::Usage,
            WordsFault::OutOfMemory => ToolFault::Memory,
        }
    }
}

impl<'a> From<StreamFault<'a>> for ToolFault<'a> {
    fn from(fault: StreamFault<'a>) -> Self {
        match fault {
            StreamFault::OutOfMemory => ToolFault::Memory,
            fault => ToolFault::Stream(fault),
        }
    }
}

impl From<DrawingFault> for ToolFault<'_> {
    fn from(fault: DrawingFault) -> Self {
        match fault {
            DrawingFault::Malformed { line } => ToolFault::Malformed(line),
            DrawingFault::Output => ToolFault::Output,
            DrawingFault::OutOfMemory => ToolFault::Memory,
        }
    }
}

impl From<PictureFault> for ToolFault<'_> {
    fn from(fault: PictureFault) -> Self {
        match fault {
            PictureFault::Malformed { line } => ToolFault::Malformed(line),
            PictureFault::OutOfMemory => ToolFault::Memory,
        }
    }
}

/// Why a text of this file is not explained.
pub(crate) fn unexplained(fault: ExplainFault, file: &str) -> ToolFault<'_> {
    match fault {
        ExplainFault::Disagreement => ToolFault::Disagreement(file),
        ExplainFault::OutOfMemory => ToolFault::Memory,
    }
}

/// The name of a file as it is reported.
pub(crate) fn reported_name(source: &str) -> &str {
    if source == STANDARD {
        "<stdin>"
    } else {
        source
    }
}

/// The line of a file that is not read or not written, and why.
fn stream_line(alloc: Global, fault: StreamFault<'_>) -> Result<String, AllocError> {
    match fault {
        StreamFault::File { name, cause } => {
            let words = cause.words();
            format!(in alloc; "file {name}: {words}")
        }
        StreamFault::NotText { name, line } => {
            let name = reported_name(name);
            format!(in alloc; "{name}:{line}: not UTF-8: only ASCII, also in comments")
        }
        StreamFault::OutOfMemory => Err(AllocError),
    }
}

/// Puts the line of a file that is not read or not written, and returns the exit status.
fn report_stream<E: Sink>(alloc: Global, fault: StreamFault<'_>, errors: &mut E) -> u8 {
    match stream_line(alloc, fault) {
        Ok(line) => failed(errors, line.as_bytes(), b""),
        Err(_) => failed(errors, b"memory", b""),
    }
}

/// Puts the line of a file that would be overwritten, and returns the exit status.
fn report_overwritten<E: Sink>(alloc: Global, name: &str, errors: &mut E) -> u8 {
    match format!(in alloc; "file {name}: it is one of the sources, which are not overwritten") {
        Ok(line) => failed(errors, line.as_bytes(), b""),
        Err(_) => failed(errors, b"memory", b""),
    }
}

/// Puts the line of a text on which two parts of the program disagree, and returns the exit status.
fn report_disagreement<E: Sink>(alloc: Global, file: &str, errors: &mut E) -> u8 {
    let line = format!(in alloc;
        "{file}:1: Disagreement: two parts of the program disagree on this text: please report it, with the text"
    );
    match line {
        Ok(line) => failed(errors, line.as_bytes(), b""),
        Err(_) => failed(errors, b"Disagreement: please report it", b""),
    }
}

/// Puts help or the version, and returns the exit status.
fn show<W: Sink, E: Sink>(text: &str, output: &mut W, errors: &mut E) -> u8 {
    match put_all(output, text.as_bytes()) {
        Ok(()) => DONE,
        Err(_) => failed(errors, b"output", b""),
    }
}

/// Puts lines on standard error, and returns this exit status whether they are taken or not.
fn complain<E: Sink>(text: &str, status: u8, errors: &mut E) -> u8 {
    match put_all(errors, text.as_bytes()) {
        Ok(()) | Err(_) => status,
    }
}

/// Puts the line of events that is refused on standard output, and the reason on standard error, and returns the exit status.
fn report_events<W: Sink, E: Sink>(
    alloc: Global,
    file: &str,
    line: u64,
    why: &str,
    output: &mut W,
    errors: &mut E,
) -> u8 {
    let file = reported_name(file);
    let Ok(reason) = format!(in alloc; "{file}:{line}: {why}\n") else {
        return failed(errors, b"memory", b"");
    };
    let status = refused(format!(in alloc; "events line {line}\n"), output, errors);
    complain(reason.as_str(), status, errors)
}

/// Says why a request was not carried out, and returns the exit status. What is refused is reported on standard error.
pub(crate) fn report<W: Sink, E: Sink>(
    alloc: Global,
    fault: ToolFault<'_>,
    output: &mut W,
    errors: &mut E,
) -> u8 {
    match fault {
        ToolFault::Usage => wrong_words(errors),
        ToolFault::Shown(text) => show(text.as_str(), output, errors),
        ToolFault::Wrong(text) => complain(text.as_str(), USAGE, errors),
        ToolFault::Stream(fault) => report_stream(alloc, fault, errors),
        ToolFault::Overwritten(name) => report_overwritten(alloc, name, errors),
        ToolFault::NoNumbers(name) => report_no_numbers(alloc, name, errors),
        ToolFault::Input => failed(errors, b"input", b""),
        ToolFault::Output => failed(errors, b"output", b""),
        ToolFault::Memory => failed(errors, b"memory", b""),
        ToolFault::Refused(lines) => complain(lines.as_str(), REFUSED, errors),
        ToolFault::Disagreement(file) => report_disagreement(alloc, file, errors),
        ToolFault::Events { file, line, why } => {
            report_events(alloc, file, line, why.as_str(), output, errors)
        }
        fault => refused(refused_line(alloc, fault), output, errors),
    }
}

/// Puts that a text takes no numbers for names, and returns the exit status.
fn report_no_numbers<E: Sink>(alloc: Global, name: &str, errors: &mut E) -> u8 {
    match format!(in alloc;
        "{name}:1: `-D` gives numbers to the names of a description, and this is none\n"
    ) {
        Ok(line) => complain(line.as_str(), REFUSED, errors),
        Err(_) => failed(errors, b"memory", b""),
    }
}

/// What is refused, with the line of that on standard error in place of standard output.
pub(crate) fn on_errors(alloc: Global, fault: ToolFault<'_>) -> ToolFault<'_> {
    match fault {
        ToolFault::Image(_)
        | ToolFault::Boot(_)
        | ToolFault::Events { .. }
        | ToolFault::Outside(_)
        | ToolFault::Unread { .. } => match refused_line(alloc, fault) {
            Ok(line) => ToolFault::Refused(line),
            Err(_) => ToolFault::Memory,
        },
        fault => fault,
    }
}

/// The line of a file that is refused.
fn refused_line(alloc: Global, fault: ToolFault<'_>) -> Result<String, AllocError> {
    match fault {
        ToolFault::Image(refusal) => refusal_line(alloc, refusal),
        ToolFault::Boot(fault) => boot_line(alloc, fault),
        ToolFault::Events { file, line, why } => {
            let file = reported_name(file);
            format!(in alloc; "events line {line}\n{file}:{line}: {why}\n")
        }
        ToolFault::Outside(index) => outside_line(alloc, index),
        ToolFault::Unread { file, line } => format!(in alloc;
            "{file}:{line}: Malformed: not read\n"
        ),
        ToolFault::Malformed(line) => format!(in alloc; "line {line} Malformed: not read\n"),
        _ => Err(AllocError),
    }
}
