//! Texts from files or from standard input, and why a file is not read or written.

use std::alloc::Global;
use std::io::Read;
use std::rt::Files;
use std::{fs, io};

/// The word for standard input or output in place of a file's name.
pub const STANDARD: &str = "-";

/// Why the system does not read or write a file.
#[derive(Clone, Copy, Debug, PartialEq, Eq)]
pub enum FileCause {
    /// There is no such file, or no such folder around it.
    Missing,
    /// It is a folder.
    Folder,
    /// The system does not allow it.
    Forbidden,
    /// Another reason.
    Other,
}

/// Why a stream is not read or written.
#[derive(Clone, Copy)]
pub enum StreamFault<'a> {
    /// The system does not read or write this file, and why.
    File { name: &'a str, cause: FileCause },
    /// What is read is not UTF-8 from this line on, counted from 1.
    NotText { name: &'a str, line: u64 },
    /// Memory was refused.
    OutOfMemory,
}

impl FileCause {
    /// The reason in words.
    pub fn words(self) -> &'static str {
        match self {
            FileCause::Missing => "missing: there is no such file",
            FileCause::Folder => "a folder, and no file",
            FileCause::Forbidden => "no permission",
            FileCause::Other => "the system refuses it",
        }
    }
}

/// What an error says of a file.
fn fault_of(error: io::Error, name: &str) -> StreamFault<'_> {
    let cause = match error.kind() {
        io::ErrorKind::OutOfMemory => return StreamFault::OutOfMemory,
        io::ErrorKind::NotFound | io::ErrorKind::NotADirectory => FileCause::Missing,
        io::ErrorKind::IsADirectory => FileCause::Folder,
        io::ErrorKind::PermissionDenied | io::ErrorKind::ReadOnlyFilesystem => {
            FileCause::Forbidden
        }
        _ => FileCause::Other,
    };
    StreamFault::File { name, cause }
}

/// All bytes of standard input.
fn read_input<R: Input + AllocGlobal>(rt: &R) -> io::Result<Vec<u8>> {
    let mut bytes = Vec::new(rt.alloc());
    let mut reader = rt.reader();
    reader.read_to_end(&mut bytes)?;
    Ok(bytes)
}

/// The line on which bytes stop being UTF-8, counted from 1.
fn line_behind(bytes: &[u8], valid: usize) -> u64 {
    let mut line = 1u64;
    let (before, _) = bytes.split_at(valid.min(bytes.len()));
    for byte in before {
        if *byte == b'\n' {
            line = line.saturating_add(1);
        }
    }
    line
}

/// The text that the bytes of a file are.
///
/// # Errors
///
/// They are not UTF-8, and from which line on; or memory is refused.
pub fn text_of(alloc: Global, bytes: Vec<u8>, name: &str) -> Result<String, StreamFault<'_>> {
    let mut text = String::new(alloc);
    match std::str::from_utf8(bytes.as_slice()) {
        Ok(read) => match text.push_str(read) {
            Ok(()) => Ok(text),
            Err(_) => Err(StreamFault::OutOfMemory),
        },
        Err(error) => Err(StreamFault::NotText {
            name,
            line: line_behind(bytes.as_slice(), error.valid_up_to()),
        }),
    }
}

/// All bytes of a file, or of standard input where `-` is its name.
///
/// # Errors
///
/// It cannot be read, and why; or memory is refused.
pub fn read_all<'a, R: Files + Input + AllocGlobal>(
    rt: &R,
    name: &'a str,
) -> Result<Vec<u8>, StreamFault<'a>> {
    let read = if name == STANDARD {
        read_input(rt)
    } else {
        fs::read(rt, name)
    };
    match read {
        Ok(bytes) => Ok(bytes),
        Err(error) => Err(fault_of(error, name)),
    }
}

/// The text of a file, or of standard input where `-` is its name.
///
/// # Errors
///
/// It cannot be read, and why; it is not UTF-8, and from which line on; or memory is refused.
pub fn read_stream<'a, R: Files + Input + AllocGlobal>(
    rt: &R,
    name: &'a str,
) -> Result<String, StreamFault<'a>> {
    let bytes = read_all(rt, name)?;
    text_of(rt.alloc(), bytes, name)
}

/// All bytes of a file.
///
/// # Errors
///
/// It cannot be read, and why; or memory is refused.
pub fn read_file<'a, R: Files + AllocGlobal>(
    rt: &R,
    name: &'a str,
) -> Result<Vec<u8>, StreamFault<'a>> {
    match fs::read(rt, name) {
        Ok(bytes) => Ok(bytes),
        Err(error) => Err(fault_of(error, name)),
    }
}

/// Writes a file anew.
///
/// # Errors
///
/// It cannot be written, and why; or memory is refused.
pub fn write_file<'a, R: Files + AllocGlobal>(
    rt: &R,
    name: &'a str,
    bytes: &[u8],
) -> Result<(), StreamFault<'a>> {
    match fs::write(rt, name, bytes) {
        Ok(()) => Ok(()),
        Err(error) => Err(fault_of(error, name)),
    }
}
