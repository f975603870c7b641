//! Texts with the certificates that are found for them, in files.

use crate::certification::{CertifiedText, NotCertified, certified};
use crate::messages::report_of;
use crate::reports::{ToolFault, reported_name, unexplained};
use crate::responding::check_text;
use crate::sources::check_target;
use console::{STANDARD, read_stream, write_file};
use explaining::{Certificates, Text};
use progress::Told;
use sinks::{Sink, SinkFault, put_all};
use std::alloc::Global;
use std::rt::Files;
use std::time::Clock;

/// A text with its certificates.
fn made_of<R: Clock + AllocGlobal, E: Sink>(
    rt: &R,
    text: &str,
    errors: &mut E,
) -> Result<CertifiedText, NotCertified> {
    let mut progress = Told::new(rt.alloc(), rt, errors);
    certified(rt.alloc(), text, &mut progress)
}

/// A text with the certificates that are found for it.
pub(crate) fn certified_text<R: Clock + AllocGlobal, E: Sink>(
    rt: &R,
    text: &str,
    errors: &mut E,
) -> Result<Vec<u8>, NotCertified> {
    Ok(made_of(rt, text, errors)?.text)
}

/// Puts a text with its certificates on standard output, and a line for each thread on standard error.
fn put_made<W: Sink, E: Sink>(
    made: &CertifiedText,
    output: &mut W,
    errors: &mut E,
) -> Result<(), SinkFault> {
    put_all(output, made.text.as_slice())?;
    put_all(errors, made.budgets.as_bytes())
}

/// Writes a text with its certificates to a file, and puts a line for each thread on standard output.
fn write_made<'a, R: Files + AllocGlobal, W: Sink>(
    rt: &R,
    target: &'a str,
    made: &CertifiedText,
    output: &mut W,
) -> Result<(), ToolFault<'a>> {
    write_file(rt, target, made.text.as_slice())?;
    Ok(put_all(output, made.budgets.as_bytes())?)
}

/// Why a text from a file gets no certificates.
pub(crate) fn uncertified<'a>(
    alloc: Global,
    source: &'a str,
    content: &str,
    fault: NotCertified,
) -> ToolFault<'a> {
    let text = Text {
        file: reported_name(source),
        content,
    };
    match report_of(alloc, &text, Certificates::Found, fault) {
        Ok(lines) => ToolFault::Refused(lines),
        Err(fault) => unexplained(fault, reported_name(source)),
    }
}

/// Puts a text with its certificates where it is wanted, if its threads deal with interrupts as soon as it asks.
fn put_checked<'a, R: Files + AllocGlobal, W: Sink, E: Sink>(
    rt: &R,
    source: &'a str,
    target: &'a str,
    made: &CertifiedText,
    output: &mut W,
    errors: &mut E,
) -> Result<(), ToolFault<'a>> {
    check_text(rt.alloc(), source, made.text.as_slice())?;
    if target == STANDARD {
        Ok(put_made(made, output, errors)?)
    } else {
        write_made(rt, target, made, output)
    }
}

/// Puts a text from a file with its certificates where it is wanted.
fn certify_text<'a, R: Files + Clock + AllocGlobal, W: Sink, E: Sink>(
    rt: &R,
    source: &'a str,
    target: &'a str,
    content: &str,
    output: &mut W,
    errors: &mut E,
) -> Result<(), ToolFault<'a>> {
    match made_of(rt, content, errors) {
        Ok(made) => put_checked(rt, source, target, &made, output, errors),
        Err(fault) => Err(uncertified(rt.alloc(), source, content, fault)),
    }
}

/// Puts the text in a file with its certificates where it is wanted, which is not touched before the verifier accepts the whole of it,
/// and a line for each thread.
pub(crate) fn certify_file<'a, R: Files + Input + Clock + AllocGlobal, W: Sink, E: Sink>(
    rt: &R,
    source: &'a str,
    target: &'a str,
    output: &mut W,
    errors: &mut E,
) -> Result<(), ToolFault<'a>> {
    check_target(rt, source, target)?;
    let content = read_stream(rt, source)?;
    certify_text(rt, source, target, content.as_str(), output, errors)
}
