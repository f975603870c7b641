//! What is expected of a trace.

use crate::faults::TraceFault;
use named_traces::TextNames;
use std::alloc::Global;
use trace_lines::{Happening, hex_byte};

/// An event that is expected, and the line that says so.
#[derive(Clone, Copy, Debug)]
pub(crate) struct ExpectedEvent {
    pub(crate) line: u32,
    pub(crate) told: Happening,
}

/// A byte that is expected, and the line that says so.
#[derive(Clone, Copy, Debug)]
pub(crate) struct ExpectedByte {
    pub(crate) line: u32,
    pub(crate) byte: u8,
}

/// What is expected.
#[derive(Drop)]
pub(crate) enum Expectation {
    /// All events.
    Events(Vec<ExpectedEvent>),
    /// The bytes that are put; of other events nothing is expected.
    Bytes(Vec<ExpectedByte>),
}

/// What a line says: what is before its comment, without the blanks around.
fn said_on(line: &[u8]) -> &[u8] {
    match line.split(|byte| *byte == b'#').next() {
        Some(said) => said.trim_ascii(),
        None => line,
    }
}

/// The byte that a word of two hexadecimal digits spells.
fn byte_in(word: &[u8]) -> Option<u8> {
    match word {
        [high, low] => hex_byte(high.to_ascii_lowercase(), low.to_ascii_lowercase()),
        _ => None,
    }
}

/// Whether a byte parts words.
fn parts_words(byte: u8) -> bool {
    byte == b' ' || byte == b'\t'
}

/// Whether a line says bytes: `byte XX`, or words of two hexadecimal digits.
fn is_of_bytes(said: &[u8]) -> bool {
    match said.strip_prefix(b"byte ") {
        Some(word) => byte_in(word.trim_ascii()).is_some(),
        None => are_bytes(said),
    }
}

/// Whether all words of a line are of two hexadecimal digits. The first one alone may be the name of a thread.
fn are_bytes(said: &[u8]) -> bool {
    for word in said.split(|byte| parts_words(*byte)) {
        if !word.is_empty() && byte_in(word).is_none() {
            return false;
        }
    }
    true
}

/// Whether the first line that says something says bytes.
fn begins_with_bytes(expected: &[u8]) -> bool {
    for line in expected.split_inclusive(|byte| *byte == b'\n') {
        let said = said_on(line);
        if !said.is_empty() {
            return is_of_bytes(said);
        }
    }
    false
}

/// The events that are expected, with the names of a text or without.
fn events_in(
    alloc: Global,
    names: &TextNames<'_>,
    expected: &[u8],
) -> Result<Vec<ExpectedEvent>, TraceFault> {
    let mut events = Vec::new(alloc);
    let mut line = 0u32;
    for piece in expected.split_inclusive(|byte| *byte == b'\n') {
        line = line.saturating_add(1);
        let said = said_on(piece);
        if said.is_empty() {
            continue;
        }
        match names.told_by(said) {
            Some(told) => events.push(ExpectedEvent { line, told })?,
            None => return Err(fault_on(line)),
        }
    }
    Ok(events)
}

/// That a line is not of the form of the first one.
fn fault_on(line: u32) -> TraceFault {
    TraceFault::Expected {
        line: u64::from(line),
    }
}

/// The bytes that are expected, and the line at hand.
#[derive(Drop)]
struct ByteReader {
    bytes: Vec<ExpectedByte>,
    line: u32,
}

impl ByteReader {
    /// One word of the line more.
    fn add_word(&mut self, word: &[u8]) -> Result<(), TraceFault> {
        match byte_in(word) {
            Some(byte) => Ok(
                self.bytes.push(ExpectedByte {
                    line: self.line,
                    byte,
                })?,
            ),
            None => Err(fault_on(self.line)),
        }
    }

    /// The words of a line.
    fn add_words(&mut self, said: &[u8]) -> Result<(), TraceFault> {
        for word in said.split(|byte| parts_words(*byte)) {
            if !word.is_empty() {
                self.add_word(word)?;
            }
        }
        Ok(())
    }

    /// The next line.
    fn add_line(&mut self, said: &[u8]) -> Result<(), TraceFault> {
        self.line = self.line.saturating_add(1);
        match said.strip_prefix(b"byte ") {
            Some(word) => self.add_word(word.trim_ascii()),
            None => self.add_words(said),
        }
    }
}

/// The bytes that are expected.
fn bytes_in(alloc: Global, expected: &[u8]) -> Result<Vec<ExpectedByte>, TraceFault> {
    let mut reader = ByteReader {
        bytes: Vec::new(alloc),
        line: 0,
    };
    for piece in expected.split_inclusive(|byte| *byte == b'\n') {
        reader.add_line(said_on(piece))?;
    }
    Ok(reader.bytes)
}

/// What is expected: by the first line that says something, bytes alone or all events.
pub(crate) fn expectation_of(
    alloc: Global,
    names: &TextNames<'_>,
    expected: &[u8],
) -> Result<Expectation, TraceFault> {
    if begins_with_bytes(expected) {
        Ok(Expectation::Bytes(bytes_in(alloc, expected)?))
    } else {
        Ok(Expectation::Events(events_in(alloc, names, expected)?))
    }
}
