//! Lines of events with names that come one after another, as from standard input.

ghost use Rattle.std.specs.Prelude.{None};

use crate::line_faults::Unread;
use crate::reading::line_by_names;
use named_traces::TextNames;
use sinks::{EventLine, EventLines, LineFault};
use std::alloc::Global;
use std::io::{BufRead, Read};
use trace_lines::without_end;

/// How many bytes a line has at most, with its line feed.
const LONGEST_LINE: u64 = 1024;

/// The lines of a reader, whose words may be names. What has come is given before more is waited for, and no more than a line is kept.
#[derive(Drop)]
pub struct NamedLines<'n, 't, R: BufRead + Drop> {
    alloc: Global,
    names: &'n TextNames<'t>,
    reader: R,
    /// The line at hand.
    line: Vec<u8>,
    /// Why the last line has no event, if it has none.
    why: Option<String>,
}

impl<'n, 't, R: BufRead + Drop> NamedLines<'n, 't, R> {
    /// The lines of this reader, with the names of a text.
    pub fn new(alloc: Global, names: &'n TextNames<'t>, reader: R) -> Self {
        NamedLines {
            alloc,
            names,
            reader,
            line: Vec::new(alloc),
            why: None,
        }
    }

    /// Why the last line has no event, if it has none: nothing is said where memory for that was refused.
    pub fn why(&self) -> Option<&str> {
        match &self.why {
            Some(why) => Some(why.as_str()),
            None => None,
        }
    }

    /// What the line at hand says, or why it has no event.
    fn said(&self) -> Result<EventLine, Unread<'_>> {
        if self.line.len() as u64 >= LONGEST_LINE && !self.line.ends_with(b"\n") {
            return Err(Unread::TooLong);
        }
        line_by_names(self.names, without_end(&self.line))
    }

    /// What the line at hand says.
    fn read_line(&mut self) -> Result<EventLine, LineFault> {
        let mut why = String::new(self.alloc);
        match self.said() {
            Ok(said) => return Ok(said),
            Err(unread) => {
                if unread.push(&mut why, self.names).is_err() {
                    why.clear();
                }
            }
        }
        self.why = Some(why);
        Err(LineFault::Malformed)
    }
}

impl<R: BufRead + Drop> EventLines for NamedLines<'_, '_, R> {
    ghost left = { λ _. None };

    fn next_line(&mut self) -> Result<Option<EventLine>, LineFault> {
        self.line.clear();
        self.why = None;
        let mut front = self.reader.by_ref().take(LONGEST_LINE);
        match front.read_until(b'\n', &mut self.line) {
            Ok(0) => Ok(None),
            Ok(_) => Ok(Some(self.read_line()?)),
            Err(_) => Err(LineFault::Unreadable),
        }
    }
}
