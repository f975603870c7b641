//! The files that a description names, read and put in their places.

use crate::reports::ToolFault;
use console::{FileCause, StreamFault, read_file, text_of};
use described_systems::{Joined, Named, named_on};
use std::alloc::{AllocError, Global};
use std::rt::Files;

/// How many files a description has at most with all that it includes.
const MOST_FILES: usize = 64;

/// A line that names a file: its number in the whole text, and the path of the file.
#[derive(Drop)]
struct NamingLine {
    line: u64,
    path: String,
}

/// Which of the files that are named is looked for.
#[derive(Clone, Copy, PartialEq, Eq)]
enum Wanted {
    Lines,
    Bytes,
}

/// The path of a file that a line of another file names: from the folder of that one.
fn path_beside(alloc: Global, file: &str, named: &str) -> Result<String, AllocError> {
    match file.rsplit_once('/') {
        Some((folder, _)) if !named.starts_with('/') => format!(in alloc; "{folder}/{named}"),
        _ => String::from_str(alloc, named),
    }
}

/// The file that a line names, if it is one of those that are looked for.
fn wanted_on(alloc: Global, line: &str, wanted: Wanted) -> Result<Option<&str>, AllocError> {
    Ok(match named_on(alloc, line)? {
        Some(Named::Lines(file)) if wanted == Wanted::Lines => Some(file),
        Some(Named::Bytes(file)) if wanted == Wanted::Bytes => Some(file),
        _ => None,
    })
}

/// The lines that name files which are looked for.
fn naming_lines(
    alloc: Global,
    joined: &Joined,
    wanted: Wanted,
) -> Result<Vec<NamingLine>, AllocError> {
    let mut lines = Vec::new(alloc);
    let mut number = 0u64;
    for line in joined.text().lines() {
        number = number.saturating_add(1);
        if let Some(file) = wanted_on(alloc, line, wanted)? {
            lines.push(NamingLine {
                line: number,
                path: path_beside(alloc, joined.place(number).file, file)?,
            })?;
        }
    }
    Ok(lines)
}

/// What is said of a file that a line names and that is not read.
fn unread(
    alloc: Global,
    joined: &Joined,
    naming: &NamingLine,
    fault: StreamFault<'_>,
) -> ToolFault<'static> {
    let path = naming.path.as_str();
    let said = match fault {
        StreamFault::File { cause, .. } => {
            let words = cause.words();
            format!(in alloc; "{path}: {words}\n")
        }
        StreamFault::NotText { line, .. } => {
            format!(in alloc; "{path}:{line}: not UTF-8: only ASCII, also in comments\n")
        }
        StreamFault::OutOfMemory => return ToolFault::Memory,
    };
    match at_place(alloc, joined, naming.line, said) {
        Ok(lines) => ToolFault::Refused(lines),
        Err(_) => ToolFault::Memory,
    }
}

/// What is said of a line, after its place.
fn at_place(
    alloc: Global,
    joined: &Joined,
    line: u64,
    said: Result<String, AllocError>,
) -> Result<String, AllocError> {
    let mut report = String::new(alloc);
    joined.push_place(&mut report, line)?;
    report.push_str(": ")?;
    report.push_str(said?.as_str())?;
    Ok(report)
}

/// The bytes of the file that a line names.
fn bytes_of<R: Files + AllocGlobal>(
    rt: &R,
    joined: &Joined,
    naming: &NamingLine,
) -> Result<Vec<u8>, ToolFault<'static>> {
    match read_file(rt, naming.path.as_str()) {
        Ok(bytes) => Ok(bytes),
        Err(fault) => Err(unread(rt.alloc(), joined, naming, fault)),
    }
}

/// The description with the lines of the file that a line names in its place.
fn with_lines<R: Files + AllocGlobal>(
    rt: &R,
    joined: &Joined,
    naming: &NamingLine,
) -> Result<Joined, ToolFault<'static>> {
    let path = naming.path.as_str();
    let bytes = bytes_of(rt, joined, naming)?;
    match text_of(rt.alloc(), bytes, path) {
        Ok(text) => Ok(joined.include(naming.line, path, text.as_str())?),
        Err(fault) => Err(unread(rt.alloc(), joined, naming, fault)),
    }
}

/// A description from a file of this name with all files that it names.
///
/// # Errors
///
/// One of them is not read, on the line that is reported, or memory is refused.
pub(crate) fn joined_with_files<R: Files + AllocGlobal>(
    rt: &R,
    file: &str,
    description: &str,
) -> Result<Joined, ToolFault<'static>> {
    let mut joined = Joined::of(rt.alloc(), file, description)?;
    for _ in 0..MOST_FILES {
        let lines = naming_lines(rt.alloc(), &joined, Wanted::Lines)?;
        match lines.first() {
            Some(naming) => joined = with_lines(rt, &joined, naming)?,
            None => break,
        }
    }
    for naming in naming_lines(rt.alloc(), &joined, Wanted::Bytes)? {
        let bytes = bytes_of(rt, &joined, &naming)?;
        joined.put_bytes(naming.line, naming.path.as_str(), bytes)?;
    }
    Ok(joined)
}
