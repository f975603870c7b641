//! Lines of events that come one after another, as from standard input.

ghost use Rattle.std.specs.Prelude.{List, None, Option, Some, drop};
ghost use Rattle.sinks.specs.LineInputs.{Gives};
ghost use Rattle.sinks.specs.declared.event_lines.EventLine.{EventLine};

use crate::event_lines::{EventLine, event_line, without_end};
use std::io::Read;

/// How many bytes a line has at most, without its line feed.
const LONGEST_LINE: usize = 64;

/// How many bytes are read at once at most.
const PIECE: usize = 4096;

/// Why there is no next line.
#[derive(Clone, Copy, Debug, PartialEq, Eq)]
pub enum LineFault {
    /// The line is malformed, or has more than 64 bytes.
    Malformed,
    /// The input cannot be read.
    Unreadable,
}

/// Gives lines of events, one after another.
pub trait EventLines {
    /// The lines that are to come, where they are known.
    ghost left: { Self → Option (List EventLine) };

    /// The next line, or none at the end.
    ///
    /// # Errors
    ///
    /// There is a line, and it is none of a list of events; or the input cannot be read.
    fn next_line(&mut self) -> Result<Option<EventLine>, LineFault>
        ensures { Gives (left self.old) (left self.new) result };
}

/// The lines of a list in memory.
#[derive(Drop)]
pub struct ListedLines<'a> {
    lines: &'a [EventLine],
    done: usize,
}

impl<'a> ListedLines<'a> {
    /// These lines, none of which was given yet.
    pub fn new(lines: &'a [EventLine]) -> Self {
        ListedLines { lines, done: 0 }
    }
}

impl EventLines for ListedLines<'_> {
    ghost left = { λ listed. Some (drop listed.done listed.lines.now) };

    fn next_line(&mut self) -> Result<Option<EventLine>, LineFault> {
        match self.lines.get(self.done) {
            Some(line) => {
                self.done += 1;
                Ok(Some(*line))
            }
            None => Ok(None),
        }
    }
}

/// The lines of a reader. What has come is given before more is waited for, and no more than a line is kept of what is not a line yet.
#[derive(Drop)]
pub struct ReaderLines<R: Read + Drop> {
    reader: R,
    bytes: [u8; PIECE],
    from: usize,
    to: usize,
}

impl<R: Read + Drop> ReaderLines<R> {
    /// The lines of this reader.
    pub fn new(reader: R) -> Self {
        ReaderLines {
            reader,
            bytes: [0; PIECE],
            from: 0,
            to: 0,
        }
    }

    /// The bytes that were read, and are in no line yet.
    fn held(&self) -> &[u8] {
        self.bytes.get(self.from..self.to).unwrap_or(&[])
    }

    /// What the first line says of what is held, if the whole of it was read. It is taken away.
    fn held_line(&mut self) -> Option<Result<EventLine, LineFault>> {
        let end = self.held().iter().position(|byte| *byte == b'\n')?;
        let line = self.line_to(end.saturating_add(1));
        self.from = self.from.saturating_add(end).saturating_add(1);
        Some(line)
    }

    /// What a line says that has so many bytes, with its line feed if it has one.
    fn line_to(&self, length: usize) -> Result<EventLine, LineFault> {
        let piece = self.held().get(..length).unwrap_or(&[]);
        let text = match piece {
            [text @ .., b'\n'] => text,
            text => text,
        };
        if text.len() > LONGEST_LINE {
            return Err(LineFault::Malformed);
        }
        event_line(without_end(piece)).ok_or(LineFault::Malformed)
    }

    /// Reads more, after what is held. The answer is whether there was more.
    fn read_more(&mut self) -> Result<bool, LineFault> {
        let to = self.to.min(PIECE);
        let from = self.from.min(to);
        let held = to - from;
        self.bytes.copy_within(from..to, 0);
        self.from = 0;
        self.to = held;
        let Some(free) = self.bytes.get_mut(held..) else {
            return Ok(false);
        };
        match self.reader.read(free) {
            Ok(count) => {
                self.to = held.saturating_add(count);
                Ok(count > 0)
            }
            Err(_) => Err(LineFault::Unreadable),
        }
    }

    /// What is held at the end of the input, a line without its line feed, if there is something.
    fn last_line(&mut self) -> Result<Option<EventLine>, LineFault> {
        let length = self.held().len();
        if length == 0 {
            return Ok(None);
        }
        let line = self.line_to(length)?;
        self.from = self.to;
        Ok(Some(line))
    }
}

impl<R: Read + Drop> EventLines for ReaderLines<R> {
    ghost left = { λ _. None };

    fn next_line(&mut self) -> Result<Option<EventLine>, LineFault> {
        'reads: for _ in 0..=LONGEST_LINE + 1 {
            if let Some(line) = self.held_line() {
                return Ok(Some(line?));
            }
            if self.held().len() > LONGEST_LINE {
                return Err(LineFault::Malformed);
            }
            if !self.read_more()? {
                return self.last_line();
            }
        }
        Err(LineFault::Malformed)
    }
}
