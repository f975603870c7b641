//! The commands on the parts of a system: which take nothing from the others, and a part as a system of its own.

use crate::certificate_files::{certified_text, uncertified};
use crate::making::image_of_text;
use crate::reports::ToolFault;
use crate::sources::{LIST, SystemText, Unlisted, read_system, read_unlisted};
use console::{STANDARD, text_of, write_file};
use explaining::wants_certificates;
use model::Refusal;
use part_reports::{
    NoPart, alone_report, declared_in, groups_report, image_names, part_named, parts_report,
    text_alone,
};
use parts::{NotAlone, Parts, parts_of};
use sinks::{Sink, put_all};
use source_texts::{SourceText, TextFault, read, with_budgets};
use std::alloc::{AllocError, Global};
use std::rt::Files;
use std::time::Clock;
use verify::{Accepted, verify};

/// A system with its certificates: its text and its image.
#[derive(Drop)]
pub(crate) struct Whole {
    pub(crate) text: String,
    pub(crate) image: Vec<u8>,
}

/// The text and the image of a system with its certificates, which are found where it wants some.
///
/// # Errors
///
/// A part is in C, or the system gets no certificates, with the lines that say why; or memory is refused.
pub(crate) fn whole_of<'a, R: Clock + AllocGlobal, E: Sink>(
    rt: &R,
    system: &SystemText<'a>,
    errors: &mut E,
) -> Result<Whole, ToolFault<'a>> {
    let text = text_with_certificates(rt, system, errors)?;
    let image = image_with_certificates(rt.alloc(), system, text.as_str())?;
    Ok(Whole { text, image })
}

/// The text of a system with its certificates.
fn text_with_certificates<'a, R: Clock + AllocGlobal, E: Sink>(
    rt: &R,
    system: &SystemText<'a>,
    errors: &mut E,
) -> Result<String, ToolFault<'a>> {
    let text = system.text.as_str();
    if system.image.is_some() || !wants_certificates(rt.alloc(), text)? {
        return Ok(String::from_str(rt.alloc(), text)?);
    }
    system.check_programs(rt.alloc())?;
    match certified_text(rt, text, errors) {
        Ok(made) => Ok(text_of(rt.alloc(), made, system.name)?),
        Err(fault) => Err(uncertified(rt.alloc(), system.name, text, fault)),
    }
}

/// The image of a system from an image or from a text with certificates.
fn image_with_certificates<'a>(
    alloc: Global,
    system: &SystemText<'a>,
    text: &str,
) -> Result<Vec<u8>, ToolFault<'a>> {
    if let Some(image) = &system.image {
        return Ok(image.clone()?);
    }
    match image_of_text(alloc, text) {
        Ok(image) => Ok(image),
        Err(fault) => Err(uncertified(alloc, system.name, text, fault)),
    }
}

/// The image, if the verifier accepts it.
fn accepted<'i, 'a>(alloc: Global, image: &'i [u8]) -> Result<Accepted<'i>, ToolFault<'a>> {
    match verify(alloc, image) {
        Ok(accepted) => Ok(accepted),
        Err(Refusal::OutOfMemory) => Err(ToolFault::Memory),
        Err(refusal) => Err(ToolFault::Image(refusal)),
    }
}

/// The parts of an accepted image.
fn parts_in<'i, 'b, 'a>(
    alloc: Global,
    accepted: &'i Accepted<'b>,
) -> Result<Parts<'i, 'b>, ToolFault<'a>> {
    match parts_of(alloc, accepted) {
        Ok(parts) => Ok(parts),
        Err(_) => Err(ToolFault::Memory),
    }
}

/// What a text declares, by its names.
fn declared<'t, 'a>(
    alloc: Global,
    file: &'a str,
    text: &'t str,
) -> Result<SourceText<'t>, ToolFault<'a>> {
    declared_as(file, read(alloc, text))
}

/// What was declared in a file.
fn declared_as<'t, 'a>(
    file: &'a str,
    found: Result<SourceText<'t>, TextFault>,
) -> Result<SourceText<'t>, ToolFault<'a>> {
    match found {
        Ok(source) => Ok(source),
        Err(TextFault::Line(line)) => Err(ToolFault::Unread { file, line }),
        Err(TextFault::OutOfMemory) => Err(ToolFault::Memory),
    }
}

/// Puts which parts of a system may change what others take, and which groups of them take nothing from the others. An image is not listed
/// for that: its names are its numbers.
pub(crate) fn put_parts<'a, R: Files + Input + Clock + AllocGlobal, W: Sink, E: Sink>(
    rt: &R,
    source: &'a str,
    output: &mut W,
    errors: &mut E,
) -> Result<(), ToolFault<'a>> {
    match read_unlisted(rt, source, &[])? {
        Unlisted::Image(image) => put_parts_of_image(rt.alloc(), image.as_slice(), output),
        Unlisted::Text(system) => put_parts_of_text(rt, &system, output, errors),
    }
}

/// Puts the same of an image.
fn put_parts_of_image<'a, W: Sink>(
    alloc: Global,
    image: &[u8],
    output: &mut W,
) -> Result<(), ToolFault<'a>> {
    let accepted = accepted(alloc, image)?;
    let parts = parts_in(alloc, &accepted)?;
    let listed = image_names(alloc, accepted.image())?;
    let names = declared_as(LIST, declared_in(alloc, accepted.image(), listed.as_str()))?;
    let lines = parts_report(alloc, &names, accepted.image(), &parts)?;
    Ok(put_all(output, lines.as_bytes())?)
}

/// Puts the same of a text.
fn put_parts_of_text<'a, R: Clock + AllocGlobal, W: Sink, E: Sink>(
    rt: &R,
    system: &SystemText<'a>,
    output: &mut W,
    errors: &mut E,
) -> Result<(), ToolFault<'a>> {
    let Whole { text, image } = whole_of(rt, system, errors)?;
    let accepted = accepted(rt.alloc(), image.as_slice())?;
    let parts = parts_in(rt.alloc(), &accepted)?;
    let names = declared(rt.alloc(), system.name, text.as_str())?;
    let lines = parts_report(rt.alloc(), &names, accepted.image(), &parts)?;
    Ok(put_all(output, lines.as_bytes())?)
}

/// A line for each group of an accepted image of a text, where there are at least two.
///
/// # Errors
///
/// Memory may be refused.
pub(crate) fn groups_of<'a>(
    alloc: Global,
    system: &SystemText<'a>,
    image: &[u8],
) -> Result<String, ToolFault<'a>> {
    let accepted = accepted(alloc, image)?;
    let parts = parts_in(alloc, &accepted)?;
    let whole = with_budgets(alloc, system.text.as_str())?;
    let names = declared(alloc, system.name, whole.text.as_str())?;
    Ok(groups_report(alloc, &names, &parts)?)
}

/// What is written of a part, and what is said of it.
#[derive(Drop)]
struct Written {
    bytes: Vec<u8>,
    said: String,
}

/// Why there is no part of these names.
fn not_named<'a>(fault: NoPart) -> ToolFault<'a> {
    match fault {
        NoPart::Wrong(said) => ToolFault::Wrong(said),
        NoPart::OutOfMemory => ToolFault::Memory,
    }
}

/// The line that says that the verifier refuses a part alone, which was never seen.
fn refused_line(alloc: Global, refusal: Refusal) -> Result<String, AllocError> {
    let number = refusal.number();
    let name = refusal.name();
    format!(in alloc;
        "NotAccepted: the verifier refuses the part alone, by {number} {name}: please report it, with the system\n"
    )
}

/// Why there is no image of a part alone.
fn not_alone<'a>(alloc: Global, file: &'a str, fault: NotAlone) -> ToolFault<'a> {
    match fault {
        NotAlone::Unfit => ToolFault::Disagreement(file),
        NotAlone::Refused(Refusal::OutOfMemory) => ToolFault::Memory,
        NotAlone::Refused(refusal) => match refused_line(alloc, refusal) {
            Ok(line) => ToolFault::Refused(line),
            Err(_) => ToolFault::Memory,
        },
    }
}

/// Whether two images are the same, or of two versions: a part may need an earlier one than the whole.
fn are_same(one: &[u8], other: &[u8]) -> bool {
    one == other || one.get(4..8) != other.get(4..8)
}

/// The text of a part alone, whose image the verifier accepts, and is the one of the part unless it needs an earlier version.
fn alone_text<'a>(
    alloc: Global,
    system: &SystemText<'a>,
    text: &str,
    names: &SourceText<'_>,
    threads: u64,
    alone: &[u8],
) -> Result<Vec<u8>, ToolFault<'a>> {
    let kept = text_alone(alloc, text, names, threads)?;
    match image_of_text(alloc, kept.as_str()) {
        Ok(image) => {
            if are_same(image.as_slice(), alone) {
                Ok(kept.into_bytes())
            } else {
                Err(ToolFault::Disagreement(system.name))
            }
        }
        Err(fault) => Err(uncertified(alloc, system.name, kept.as_str(), fault)),
    }
}

/// A part of a system alone, in the form of the system.
fn alone_in<'a>(
    alloc: Global,
    system: &SystemText<'a>,
    text: &str,
    image: &[u8],
    named: &[&str],
) -> Result<Written, ToolFault<'a>> {
    let names = declared(alloc, system.name, text)?;
    let threads = match part_named(alloc, &names, named) {
        Ok(threads) => threads,
        Err(fault) => return Err(not_named(fault)),
    };
    let accepted = accepted(alloc, image)?;
    let parts = parts_in(alloc, &accepted)?;
    let alone = match parts.alone(alloc, threads) {
        Ok(alone) => alone,
        Err(fault) => return Err(not_alone(alloc, system.name, fault)),
    };
    let said = alone_report(alloc, &names, accepted.image(), &parts, threads)?;
    let bytes = if system.image.is_some() {
        Vec::from_slice(alloc, alone.bytes())?
    } else {
        alone_text(alloc, system, text, &names, threads, alone.bytes())?
    };
    Ok(Written { bytes, said })
}

/// The names of parts, and the file after them.
fn names_and_file<'w, 'a>(words: &'w [&'a str]) -> (&'w [&'a str], Option<&'a str>) {
    match words.split_last() {
        Some((file, names)) => (names, Some(*file)),
        None => (words, None),
    }
}

/// Writes a part of a system as a system of its own to a file, which is not touched before the verifier accepts it: the words are the
/// names of its threads, and last the file. A line for each thing that it takes and others may change is put, and whether there is one.
pub(crate) fn write_alone<'a, R: Files + Input + Clock + AllocGlobal, W: Sink, E: Sink>(
    rt: &R,
    source: &'a str,
    words: &[&'a str],
    output: &mut W,
    errors: &mut E,
) -> Result<(), ToolFault<'a>> {
    let (named, target) = names_and_file(words);
    let system = read_system(rt, source)?;
    let Whole { text, image } = whole_of(rt, &system, errors)?;
    let written = alone_in(rt.alloc(), &system, text.as_str(), image.as_slice(), named)?;
    let target = target.unwrap_or(STANDARD);
    if target == STANDARD {
        put_all(output, written.bytes.as_slice())?;
        Ok(put_all(errors, written.said.as_bytes())?)
    } else {
        system.check_target(rt, target)?;
        write_file(rt, target, written.bytes.as_slice())?;
        Ok(put_all(output, written.said.as_bytes())?)
    }
}
