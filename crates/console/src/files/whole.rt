//! Whole files.

use std::rt::Files;
use std::{fs, io};

/// Why a file is not read or written.
#[derive(Clone, Copy)]
pub enum FileFault<'a> {
    /// This file cannot be read, is no text in UTF-8, or cannot be written.
    File(&'a str),
    /// Memory was refused.
    OutOfMemory,
}

impl<'a> FileFault<'a> {
    /// What an error says of a file.
    fn of(error: io::Error, name: &'a str) -> Self {
        match error.kind() {
            io::ErrorKind::OutOfMemory => FileFault::OutOfMemory,
            _ => FileFault::File(name),
        }
    }
}

/// All bytes of a file.
///
/// # Errors
///
/// The file cannot be read, and why; or memory is refused.
pub fn read_bytes<'a, R: Files + AllocGlobal>(
    rt: &R,
    name: &'a str,
) -> Result<Vec<u8>, FileFault<'a>> {
    match fs::read(rt, name) {
        Ok(bytes) => Ok(bytes),
        Err(error) => Err(FileFault::of(error, name)),
    }
}

/// The text of a file.
///
/// # Errors
///
/// The file cannot be read or is not UTF-8, and why; or memory is refused.
pub fn read_text<'a, R: Files + AllocGlobal>(
    rt: &R,
    name: &'a str,
) -> Result<String, FileFault<'a>> {
    match fs::read_to_string(rt, name) {
        Ok(text) => Ok(text),
        Err(error) => Err(FileFault::of(error, name)),
    }
}

/// Writes a file anew.
///
/// # Errors
///
/// The file cannot be written, and why.
pub fn write_bytes<'a, R: Files + AllocGlobal>(
    rt: &R,
    name: &'a str,
    bytes: &[u8],
) -> Result<(), FileFault<'a>> {
    match fs::write(rt, name, bytes) {
        Ok(()) => Ok(()),
        Err(error) => Err(FileFault::of(error, name)),
    }
}
