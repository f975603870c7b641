//! Systems from files: a description, a text or an image, each as a text.

use crate::included::joined_with_files;
use crate::reports::{ToolFault, reported_name};
use console::{STANDARD, is_same_file, read_all, text_of};
use described_systems::{Joined, is_description};
use expansion::{Expansion, ExpansionFault, expand};
use listed_images::{ListFault, list};
use std::alloc::{AllocError, Global};
use std::rt::Files;

/// The first bytes of each image.
const MAGIC: &[u8] = b"MSYS";

/// How the names of descriptions end.
const DESCRIPTION: &str = ".sys";

/// The name by which the text of a description is reported.
const TEXT: &str = "text";

/// The name by which the text of an image is reported.
pub(crate) const LIST: &str = "list";

/// A system as a text.
#[derive(Drop)]
pub(crate) struct SystemText<'a> {
    /// The name by which lines of the text are reported.
    pub(crate) name: &'a str,
    pub(crate) text: String,
    /// Notes on the description that it is from, a line for each.
    pub(crate) notes: String,
    /// The image whose text it is, if it is that of one.
    pub(crate) image: Option<Vec<u8>>,
    /// The place of the first program in C of the description, `FILE:LINE`.
    from_c: Option<String>,
    /// The names of the files that a description names, after its own.
    files: Vec<String>,
    /// The file that the system is from.
    file: &'a str,
}

/// The line that says that a program is from C.
fn from_c_line(alloc: Global, place: &str) -> Result<String, AllocError> {
    format!(in alloc;
        "{place}: this program is C, and this program calls no compiler: the script of its name does\n"
    )
}

impl<'a> SystemText<'a> {
    /// No program is to be from C.
    ///
    /// # Errors
    ///
    /// One is, on the line that is reported, or memory is refused.
    pub(crate) fn check_programs(&self, alloc: Global) -> Result<(), ToolFault<'a>> {
        match &self.from_c {
            Some(place) => Err(ToolFault::Refused(from_c_line(alloc, place.as_str())?)),
            None => Ok(()),
        }
    }

    /// What is written is to be none of the files that were read.
    ///
    /// # Errors
    ///
    /// It is one.
    pub(crate) fn check_target<R: Files>(
        &self,
        rt: &R,
        target: &'a str,
    ) -> Result<(), ToolFault<'a>> {
        check_target(rt, self.file, target)?;
        for file in &self.files {
            if is_same_file(rt, file.as_str(), target) {
                return Err(ToolFault::Overwritten(target));
            }
        }
        Ok(())
    }

    /// A text that is no expansion.
    fn of_text(alloc: Global, name: &'a str, text: String) -> Self {
        SystemText {
            name,
            text,
            notes: String::new(alloc),
            image: None,
            from_c: None,
            files: Vec::new(alloc),
            file: name,
        }
    }
}

/// What is written is not to be what was read.
///
/// # Errors
///
/// It is.
pub(crate) fn check_target<'a, R: Files>(
    rt: &R,
    source: &str,
    target: &'a str,
) -> Result<(), ToolFault<'a>> {
    if source != STANDARD && target != STANDARD && is_same_file(rt, source, target) {
        Err(ToolFault::Overwritten(target))
    } else {
        Ok(())
    }
}

/// The names of the files that a description names, after its own.
fn files_after_first(alloc: Global, joined: &Joined) -> Result<Vec<String>, AllocError> {
    let mut files = Vec::new(alloc);
    for file in joined.files().iter().skip(1) {
        files.push(String::from_str(alloc, file.as_str())?)?;
    }
    Ok(files)
}

/// The text of a description from a file, which is reported by this name.
///
/// # Errors
///
/// It is refused, or a file that it names is not read, with the lines that say why; or memory is refused.
pub(crate) fn expanded<'a, R: Files + AllocGlobal>(
    rt: &R,
    name: &'a str,
    description: &str,
    given: &[&str],
) -> Result<SystemText<'a>, ToolFault<'a>> {
    let mut joined = joined_with_files(rt, reported_name(name), description)?;
    for said in given {
        if let Some((name, number)) = said.split_once('=') {
            joined.define(name, number)?;
        }
    }
    match expand(rt.alloc(), &joined) {
        Ok(
            Expansion {
                text,
                notes,
                from_c,
            },
        ) => Ok(SystemText {
            name: TEXT,
            text,
            notes,
            image: None,
            from_c,
            files: files_after_first(rt.alloc(), &joined)?,
            file: name,
        }),
        Err(ExpansionFault::Refused(lines)) => Err(ToolFault::Refused(lines)),
        Err(ExpansionFault::OutOfMemory) => Err(ToolFault::Memory),
    }
}

/// The text of a system that is a description or a text. A text takes no numbers for names.
fn written<'a, R: Files + AllocGlobal>(
    rt: &R,
    name: &'a str,
    content: String,
    given: &[&str],
) -> Result<SystemText<'a>, ToolFault<'a>> {
    if name.ends_with(DESCRIPTION) || is_description(content.as_str()) {
        expanded(rt, name, content.as_str(), given)
    } else if given.is_empty() {
        Ok(SystemText::of_text(rt.alloc(), reported_name(name), content))
    } else {
        Err(ToolFault::NoNumbers(reported_name(name)))
    }
}

/// The text of an image.
///
/// # Errors
///
/// It is no image, or memory is refused.
pub(crate) fn listed<'a>(alloc: Global, bytes: &[u8]) -> Result<SystemText<'a>, ToolFault<'a>> {
    match list(alloc, bytes) {
        Ok(text) => Ok(SystemText::of_text(alloc, LIST, text)),
        Err(ListFault::Refused(refusal)) => Err(ToolFault::Image(refusal)),
        Err(ListFault::OutOfMemory) => Err(ToolFault::Memory),
    }
}

/// The text of the system in a file, or of standard input where `-` is its name.
///
/// # Errors
///
/// It is not read; it is a description or an image that is refused; or memory is refused.
pub(crate) fn read_system<'a, R: Files + Input + AllocGlobal>(
    rt: &R,
    name: &'a str,
) -> Result<SystemText<'a>, ToolFault<'a>> {
    read_given(rt, name, &[])
}

/// The same of a description of which numbers are given, as `NAME=NUMBER`.
///
/// # Errors
///
/// Those of [`read_system`]; or numbers are given and the system is no description.
pub(crate) fn read_given<'a, R: Files + Input + AllocGlobal>(
    rt: &R,
    name: &'a str,
    given: &[&str],
) -> Result<SystemText<'a>, ToolFault<'a>> {
    match read_unlisted(rt, name, given)? {
        Unlisted::Image(image) => {
            let mut system = listed(rt.alloc(), image.as_slice())?;
            system.file = name;
            system.image = Some(image);
            Ok(system)
        }
        Unlisted::Text(system) => Ok(system),
    }
}

/// What is in the file of a system.
#[derive(Drop)]
pub(crate) enum Unlisted<'a> {
    /// Bytes that begin as an image.
    Image(Vec<u8>),
    /// A text, or that of a description.
    Text(SystemText<'a>),
}

/// The same without a text of an image.
///
/// # Errors
///
/// Those of [`read_given`] but for an image that is refused.
pub(crate) fn read_unlisted<'a, R: Files + Input + AllocGlobal>(
    rt: &R,
    name: &'a str,
    given: &[&str],
) -> Result<Unlisted<'a>, ToolFault<'a>> {
    let bytes = read_all(rt, name)?;
    if bytes.as_slice().starts_with(MAGIC) {
        return Ok(Unlisted::Image(bytes));
    }
    let content = text_of(rt.alloc(), bytes, name)?;
    Ok(Unlisted::Text(written(rt, name, content, given)?))
}
