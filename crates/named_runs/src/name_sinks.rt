//! A sink for the lines of a trace, which hands them on with names.

ghost use Rattle.std.specs.Prelude.{None};

use named_traces::TextNames;
use sinks::{Sink, SinkFault, put_all};
use std::alloc::{AllocError, Global};
use trace_lines::{told_by, without_end};

/// How many bytes are kept of a line: many more than a line of a trace has.
const MOST_KEPT: usize = 1024;

/// Takes the lines of a trace, in pieces of any size, and hands on each whole line with the names of a text. A line that is none of a
/// trace is handed on as it is.
#[derive(Drop)]
pub struct NameSink<'a, 't, S: Sink> {
    names: &'a TextNames<'t>,
    output: &'a mut S,
    lines: HeldLines,
    failures: u64,
}

/// The line at hand, and those that are not handed on yet.
#[derive(Drop)]
struct HeldLines {
    /// The line at hand, as far as it came.
    line: Vec<u8>,
    /// The line with names.
    named: String,
    /// Lines that are not handed on.
    ended: Vec<u8>,
}

impl HeldLines {
    /// Takes a piece: the lines that end in it get their names.
    fn add(&mut self, names: &TextNames<'_>, piece: &[u8]) -> Result<(), AllocError> {
        for part in piece.split_inclusive(|byte| *byte == b'\n') {
            self.line.extend_from_slice(part)?;
            if part.ends_with(b"\n") {
                self.end_line(names)?;
            } else if self.line.len() > MOST_KEPT {
                self.ended.extend_from_slice(&self.line)?;
                self.line.clear();
            }
        }
        Ok(())
    }

    /// Ends the line at hand.
    fn end_line(&mut self, names: &TextNames<'_>) -> Result<(), AllocError> {
        match told_by(without_end(&self.line)) {
            Some(told) => {
                names.push_line(&mut self.named, told)?;
                self.named.push('\n')?;
                self.ended.extend_from_slice(self.named.as_bytes())?;
                self.named.clear();
            }
            None => self.ended.extend_from_slice(&self.line)?,
        }
        self.line.clear();
        Ok(())
    }
}

impl<'a, 't, S: Sink> NameSink<'a, 't, S> {
    /// A sink over one for the lines with names.
    pub fn new(alloc: Global, names: &'a TextNames<'t>, output: &'a mut S) -> Self {
        NameSink {
            names,
            output,
            lines: HeldLines {
                line: Vec::new(alloc),
                named: String::new(alloc),
                ended: Vec::new(alloc),
            },
            failures: 0,
        }
    }
}

/// Hands on the lines that end in a piece.
fn hand_on<S: Sink>(
    names: &TextNames<'_>,
    lines: &mut HeldLines,
    piece: &[u8],
    output: &mut S,
) -> Result<(), SinkFault> {
    if lines.add(names, piece).is_err() {
        return Err(SinkFault);
    }
    put_all(output, &lines.ended)?;
    lines.ended.clear();
    Ok(())
}

impl<S: Sink> Sink for NameSink<'_, '_, S> {
    ghost contents = { λ _. None };

    ghost failures = { λ sink. sink.failures };

    /// Takes a whole piece.
    ///
    /// # Errors
    ///
    /// The sink below takes no more, or memory is refused. Some of the lines may have been put.
    fn put(&mut self, piece: &[u8]) -> Result<usize, SinkFault> {
        match hand_on(self.names, &mut self.lines, piece, self.output) {
            Ok(()) => Ok(piece.len()),
            Err(fault) => {
                self.failures = self.failures.saturating_add(1);
                Err(fault)
            }
        }
    }

    fn failures(&self) -> u64 {
        self.failures
    }
}
