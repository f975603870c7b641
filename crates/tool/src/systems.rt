//! The commands that make something of a system.

use crate::certificate_files::uncertified;
use crate::certification::NotCertified;
use crate::making::{MadeImage, image_of_text, made};
use crate::reports::ToolFault;
use crate::responding::said_of;
use crate::sources::{SystemText, expanded, read_given};
use console::{STANDARD, read_stream, write_file};
use explaining::{Text, wants_certificates};
use progress::Told;
use sinks::{Sink, SinkFault, put_all};
use std::alloc::Global;
use std::rt::Files;
use std::time::Clock;
use system_notes::{NotesFault, notes_on_threads};

/// Puts a text on standard output, and the notes on standard error.
fn put_expansion<W: Sink, E: Sink>(
    system: &SystemText<'_>,
    output: &mut W,
    errors: &mut E,
) -> Result<(), SinkFault> {
    put_all(output, system.text.as_bytes())?;
    put_all(errors, system.notes.as_bytes())
}

/// Writes a text to a file, and puts the notes on standard output.
fn write_expansion<'a, R: Files + AllocGlobal, W: Sink>(
    rt: &R,
    target: &'a str,
    system: &SystemText<'_>,
    output: &mut W,
) -> Result<(), ToolFault<'a>> {
    write_file(rt, target, system.text.as_bytes())?;
    Ok(put_all(output, system.notes.as_bytes())?)
}

/// How a system is made.
#[derive(Clone, Copy)]
pub(crate) struct Making<'g> {
    /// Numbers for names of its description, each as `NAME=NUMBER`.
    pub(crate) given: &'g [&'g str],
    /// Whether notes are refusals.
    pub(crate) is_strict: bool,
}

/// Where notes are refusals there are to be none.
fn check_notes<'a>(alloc: Global, making: Making<'_>, notes: &str) -> Result<(), ToolFault<'a>> {
    if making.is_strict && !notes.is_empty() {
        Err(ToolFault::Refused(String::from_str(alloc, notes)?))
    } else {
        Ok(())
    }
}

/// Puts the text of the description in a file where it is wanted, and the notes on it.
pub(crate) fn expand_file<'a, R: Files + Input + AllocGlobal, W: Sink, E: Sink>(
    rt: &R,
    description: &'a str,
    target: &'a str,
    making: Making<'_>,
    output: &mut W,
    errors: &mut E,
) -> Result<(), ToolFault<'a>> {
    let content = read_stream(rt, description)?;
    let system = expanded(rt, description, content.as_str(), making.given)?;
    check_notes(rt.alloc(), making, system.notes.as_str())?;
    if target == STANDARD {
        Ok(put_expansion(&system, output, errors)?)
    } else {
        system.check_target(rt, target)?;
        write_expansion(rt, target, &system, output)
    }
}

/// All notes on a system: those on its description, and those on what its threads do.
fn notes_of<'a>(alloc: Global, system: &SystemText<'a>) -> Result<String, ToolFault<'a>> {
    let text = Text {
        file: system.name,
        content: system.text.as_str(),
    };
    let mut all = String::from_str(alloc, system.notes.as_str())?;
    match notes_on_threads(alloc, &text) {
        Ok(notes) => all.push_str(notes.as_str())?,
        // Nothing is known of what its threads do.
        Err(NotesFault::Refused) => {}
        Err(NotesFault::OutOfMemory) => return Err(ToolFault::Memory),
    }
    Ok(all)
}

/// Puts an image on standard output, and budgets and notes on standard error.
fn put_image<W: Sink, E: Sink>(
    made: &MadeImage,
    notes: &str,
    output: &mut W,
    errors: &mut E,
) -> Result<(), SinkFault> {
    put_all(output, made.image.as_slice())?;
    put_all(errors, made.budgets.as_bytes())?;
    put_all(errors, notes.as_bytes())
}

/// Writes an image to a file, and puts budgets and notes on standard output.
fn write_image<'a, R: Files + AllocGlobal, W: Sink>(
    rt: &R,
    target: &'a str,
    made: &MadeImage,
    notes: &str,
    output: &mut W,
) -> Result<(), ToolFault<'a>> {
    write_file(rt, target, made.image.as_slice())?;
    put_all(output, made.budgets.as_bytes())?;
    Ok(put_all(output, notes.as_bytes())?)
}

/// The image of a text.
fn made_of<R: Clock + AllocGlobal, E: Sink>(
    rt: &R,
    text: &str,
    errors: &mut E,
) -> Result<MadeImage, NotCertified> {
    let mut progress = Told::new(rt.alloc(), rt, errors);
    made(rt.alloc(), text, &mut progress)
}

/// The image of a system, with the certificates that are found for it.
///
/// # Errors
///
/// A part is in C, or the system gets no certificates, with the lines that say why; or memory is refused.
pub(crate) fn made_image<'a, R: Clock + AllocGlobal, E: Sink>(
    rt: &R,
    system: &SystemText<'a>,
    errors: &mut E,
) -> Result<MadeImage, ToolFault<'a>> {
    system.check_programs(rt.alloc())?;
    match made_of(rt, system.text.as_str(), errors) {
        Ok(made) => Ok(made),
        Err(fault) => Err(uncertified(rt.alloc(), system.name, system.text.as_str(), fault)),
    }
}

/// The image of a text, with the certificates that are in it, or with those that are found where it wants some.
///
/// # Errors
///
/// It is refused, with the lines that say why; or memory is refused.
pub(crate) fn image_of<'a, R: Clock + AllocGlobal, E: Sink>(
    rt: &R,
    system: &SystemText<'a>,
    errors: &mut E,
) -> Result<Vec<u8>, ToolFault<'a>> {
    let text = system.text.as_str();
    if wants_certificates(rt.alloc(), text)? {
        return Ok(made_image(rt, system, errors)?.image);
    }
    match image_of_text(rt.alloc(), text) {
        Ok(image) => Ok(image),
        Err(fault) => Err(uncertified(rt.alloc(), system.name, text, fault)),
    }
}

/// Puts an accepted image of the system in a file where it is wanted, which is not touched before the verifier accepts it, with a
/// line for each thread, the notes, one for each line that a thread is to deal with soon, and for each group of parts where there are several.
pub(crate) fn make_file<'a, R: Files + Input + Clock + AllocGlobal, W: Sink, E: Sink>(
    rt: &R,
    system: &'a str,
    target: &'a str,
    making: Making<'_>,
    output: &mut W,
    errors: &mut E,
) -> Result<(), ToolFault<'a>> {
    let system = read_given(rt, system, making.given)?;
    system.check_target(rt, target)?;
    let made = made_image(rt, &system, errors)?;
    let notes = notes_of(rt.alloc(), &system)?;
    check_notes(rt.alloc(), making, notes.as_str())?;
    let mut said = notes;
    said.push_str(said_of(rt.alloc(), &system, made.image.as_slice())?.as_str())?;
    if target == STANDARD {
        Ok(put_image(&made, said.as_str(), output, errors)?)
    } else {
        write_image(rt, target, &made, said.as_str(), output)
    }
}
