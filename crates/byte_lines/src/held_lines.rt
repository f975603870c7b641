//! A line that comes in pieces.

use std::alloc::{AllocError, Global};
use trace_lines::{Happening, Mark, told_by, without_end};

/// How many bytes are kept of a line: many more than a line of a trace has.
const MOST_KEPT: usize = 1024;

/// How many bytes the line of a plain instruction has in front of the last digit of its address. Those of the instructions beside it
/// have the same.
const FRONT: usize = 16;

/// What follows that digit.
const PLAIN_END: &[u8] = b" plain\n";

/// How many bytes the line of a plain instruction has.
const PLAIN_LINE: usize = 24;

/// The line at hand, and the first line that was none of a trace.
#[derive(Drop)]
pub(crate) struct HeldLines {
    /// The line at hand, as far as it came.
    line: Vec<u8>,
    /// The front of the last line of a plain instruction: lines with the same one put nothing, and are not read.
    front: Vec<u8>,
    /// The first line that was none of a trace, without its end.
    rest: Option<Vec<u8>>,
    /// The bytes that lines put, until they are handed on.
    pub(crate) bytes: Vec<u8>,
}

/// The front of some bytes, of which so many more are kept.
fn kept(bytes: &[u8], room: usize) -> &[u8] {
    match bytes.get(..room) {
        Some(front) => front,
        None => bytes,
    }
}

/// Bytes parted in two, the second part from a place on.
fn parted(bytes: &[u8], place: usize) -> (&[u8], &[u8]) {
    match (bytes.get(..place), bytes.get(place..)) {
        (Some(first), Some(second)) => (first, second),
        _ => (bytes, &[]),
    }
}

/// Whether a line of so many bytes as that of a plain instruction is one, where its front is that of one.
fn ends_plain(line: &[u8]) -> bool {
    match line.get(FRONT) {
        Some(b'0'..=b'9' | b'a'..=b'f') => line.ends_with(PLAIN_END),
        _ => false,
    }
}

impl HeldLines {
    /// No line.
    pub(crate) fn new(alloc: Global) -> Self {
        HeldLines {
            line: Vec::new(alloc),
            front: Vec::new(alloc),
            rest: None,
            bytes: Vec::new(alloc),
        }
    }

    /// What is left of a piece after the lines of plain instructions that it begins with, as far as they have the front of the last one.
    fn after_plain<'p>(&self, piece: &'p [u8]) -> &'p [u8] {
        let mut left = piece;
        if self.front.len() != FRONT {
            return left;
        }
        'lines: for _ in 0..piece.len() {
            let (line, rest) = parted(left, PLAIN_LINE);
            if line.len() != PLAIN_LINE || !line.starts_with(&self.front) || !ends_plain(line) {
                break;
            }
            left = rest;
        }
        left
    }

    /// Takes a piece, and keeps the bytes that its lines put.
    pub(crate) fn add(&mut self, alloc: Global, piece: &[u8]) -> Result<(), AllocError> {
        let mut left = piece;
        'parts: for _ in 0..piece.len() {
            if self.line.is_empty() {
                left = self.after_plain(left);
            }
            if left.is_empty() {
                break;
            }
            let end = match left.iter().position(|byte| *byte == b'\n') {
                Some(place) => place.saturating_add(1),
                None => left.len(),
            };
            let (part, rest) = parted(left, end);
            self.add_part(alloc, part)?;
            left = rest;
        }
        Ok(())
    }

    /// Takes a line or a part of one.
    fn add_part(&mut self, alloc: Global, part: &[u8]) -> Result<(), AllocError> {
        if self.line.is_empty() && part.ends_with(b"\n") {
            return self.end_line(alloc, part);
        }
        let room = MOST_KEPT.saturating_sub(self.line.len());
        self.line.extend_from_slice(kept(part, room))?;
        if part.ends_with(b"\n") {
            let line = std::mem::replace(&mut self.line, Vec::new(alloc));
            self.end_line(alloc, &line)?;
        }
        Ok(())
    }

    /// Takes a whole line.
    fn end_line(&mut self, alloc: Global, line: &[u8]) -> Result<(), AllocError> {
        match told_by(without_end(line)) {
            Some(told) => self.note(told, line),
            None => self.keep(alloc, line),
        }
    }

    /// Notes the byte that a line puts, or the front of one that puts none.
    fn note(&mut self, told: Happening, line: &[u8]) -> Result<(), AllocError> {
        if let Some(byte) = told.byte() {
            self.bytes.push(byte)?;
        }
        if let Happening::Ran {
            mark: Mark::Plain,
            ..
        } = told
        {
            self.front.clear();
            self.front.extend_from_slice(kept(line, FRONT))?;
        }
        Ok(())
    }

    /// Keeps a line, which is none of a trace, if it is the first and not empty.
    fn keep(&mut self, alloc: Global, line: &[u8]) -> Result<(), AllocError> {
        let line = kept(without_end(line), MOST_KEPT);
        if self.rest.is_none() && !line.is_empty() {
            self.rest = Some(Vec::from_slice(alloc, line)?);
        }
        Ok(())
    }

    /// The first line that was none of a trace, or else the line at hand.
    pub(crate) fn rest(&self) -> &[u8] {
        match &self.rest {
            Some(rest) => rest.as_slice(),
            None => self.line.as_slice(),
        }
    }
}
