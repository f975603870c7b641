//! Sinks for the lines of a trace that hand on the bytes that threads print: those of one, or those of all by lines with their names.

ghost use Rattle.std.specs.Prelude.{None};

use named_traces::TextNames;
use sinks::{Sink, SinkFault, put_all};
use std::alloc::{AllocError, Global};
use trace_lines::{Happening, Mark, told_by, without_end};

/// How many bytes are kept of a line: many more than a line of a trace has.
const MOST_KEPT: usize = 1024;

/// Whose bytes are handed on.
#[derive(Clone, Copy, Debug, PartialEq, Eq)]
pub enum Printers {
    /// Those of the thread whose TCB is at this physical address, as they are.
    One(u32),
    /// Those of all threads: each line of them begins with the name of its thread, and ends where another thread prints.
    Each,
}

/// Takes the lines of a trace, in pieces of any size, and hands on the bytes that they put.
#[derive(Drop)]
pub struct PartBytes<'a, 't, S: Sink> {
    names: &'a TextNames<'t>,
    output: &'a mut S,
    printed: Printed,
    failures: u64,
}

/// The line at hand, and the bytes that are not handed on yet.
#[derive(Drop)]
struct Printed {
    printers: Printers,
    /// The line at hand, as far as it came, up to so many bytes as are kept.
    line: Vec<u8>,
    /// The thread whose line of bytes has no end yet.
    writer: Option<u32>,
    /// Bytes that are not handed on.
    bytes: Vec<u8>,
}

impl Printed {
    /// Takes a piece, and the bytes that the lines put that end in it.
    fn add(&mut self, names: &TextNames<'_>, piece: &[u8]) -> Result<(), AllocError> {
        for part in piece.split_inclusive(|byte| *byte == b'\n') {
            if self.line.len() <= MOST_KEPT {
                self.line.extend_from_slice(part)?;
            }
            if part.ends_with(b"\n") {
                self.end_line(names)?;
            }
        }
        Ok(())
    }

    /// Ends the line at hand.
    fn end_line(&mut self, names: &TextNames<'_>) -> Result<(), AllocError> {
        let told = told_by(without_end(&self.line));
        self.line.clear();
        if let Some(
            Happening::Ran {
                thread,
                mark: Mark::Put(byte),
                ..
            },
        ) = told
        {
            self.print(names, thread, byte)?;
        }
        Ok(())
    }

    /// Takes a byte that a thread prints.
    fn print(&mut self, names: &TextNames<'_>, thread: u32, byte: u8) -> Result<(), AllocError> {
        match self.printers {
            Printers::One(printer) if printer != thread => Ok(()),
            Printers::One(_) => {
                self.bytes.push(byte)?;
                Ok(())
            }
            Printers::Each => self.print_by_name(names, thread, byte),
        }
    }

    /// Takes a byte of a thread whose lines begin with its name.
    fn print_by_name(
        &mut self,
        names: &TextNames<'_>,
        thread: u32,
        byte: u8,
    ) -> Result<(), AllocError> {
        if self.writer != Some(thread) {
            self.end_bytes()?;
            let name = match names.thread(thread) {
                Some(named) => named.name,
                None => "?",
            };
            self.bytes.extend_from_slice(name.as_bytes())?;
            self.bytes.extend_from_slice(b": ")?;
        }
        self.bytes.push(byte)?;
        self.writer = if byte == b'\n' { None } else { Some(thread) };
        Ok(())
    }

    /// Ends the line of bytes at hand, if there is one.
    fn end_bytes(&mut self) -> Result<(), AllocError> {
        if self.writer.is_some() {
            self.bytes.push(b'\n')?;
            self.writer = None;
        }
        Ok(())
    }
}

impl<'a, 't, S: Sink> PartBytes<'a, 't, S> {
    /// A sink over one for the bytes.
    pub fn new(
        alloc: Global,
        names: &'a TextNames<'t>,
        printers: Printers,
        output: &'a mut S,
    ) -> Self {
        PartBytes {
            names,
            output,
            printed: Printed {
                printers,
                line: Vec::new(alloc),
                writer: None,
                bytes: Vec::new(alloc),
            },
            failures: 0,
        }
    }
}

/// Hands on the bytes that the lines put that end in a piece.
fn hand_on<S: Sink>(
    names: &TextNames<'_>,
    printed: &mut Printed,
    piece: &[u8],
    output: &mut S,
) -> Result<(), SinkFault> {
    if printed.add(names, piece).is_err() {
        return Err(SinkFault);
    }
    put_all(output, &printed.bytes)?;
    printed.bytes.clear();
    Ok(())
}

impl<S: Sink> Sink for PartBytes<'_, '_, S> {
    ghost contents = { λ _. None };

    ghost failures = { λ sink. sink.failures };

    /// Takes a whole piece.
    ///
    /// # Errors
    ///
    /// The sink below takes no more, or memory is refused. Some of the bytes may have been put.
    fn put(&mut self, piece: &[u8]) -> Result<usize, SinkFault> {
        match hand_on(self.names, &mut self.printed, piece, self.output) {
            Ok(()) => Ok(piece.len()),
            Err(fault) => {
                self.failures = self.failures.saturating_add(1);
                Err(fault)
            }
        }
    }

    fn failures(&self) -> u64 {
        self.failures
    }
}
