//! A sink for the lines of a trace, over one for bytes.

ghost use Rattle.std.specs.Prelude.{None};

use crate::held_lines::HeldLines;
use sinks::{Sink, SinkFault, put_all};
use std::alloc::Global;

/// Takes the lines of a trace, in pieces of any size, and hands on the bytes that lines `.. byte XX` put, and nothing else.
#[derive(Drop)]
pub struct ByteSink<'a, S: Sink> {
    alloc: Global,
    output: &'a mut S,
    lines: HeldLines,
    failures: u64,
}

impl<'a, S: Sink> ByteSink<'a, S> {
    /// A sink over one for the bytes.
    pub fn new(alloc: Global, output: &'a mut S) -> Self {
        ByteSink {
            alloc,
            output,
            lines: HeldLines::new(alloc),
            failures: 0,
        }
    }

    /// The first line that is none of a trace, as a refusal, without its end; empty where there was none. Of a line longer than 1024
    /// bytes, the first 1024.
    pub fn rest(&self) -> &str {
        std::str::from_utf8(self.lines.rest()).unwrap_or("")
    }
}

/// Hands on the bytes that the lines of a piece put.
fn hand_on<S: Sink>(
    alloc: Global,
    lines: &mut HeldLines,
    piece: &[u8],
    output: &mut S,
) -> Result<(), SinkFault> {
    if lines.add(alloc, piece).is_err() {
        return Err(SinkFault);
    }
    put_all(output, &lines.bytes)?;
    lines.bytes.clear();
    Ok(())
}

impl<S: Sink> Sink for ByteSink<'_, S> {
    ghost contents = { λ _. None };

    ghost failures = { λ sink. sink.failures };

    /// Takes a whole piece.
    ///
    /// # Errors
    ///
    /// The sink for the bytes takes no more, or memory is refused. Some of the bytes may have been put.
    fn put(&mut self, piece: &[u8]) -> Result<usize, SinkFault> {
        match hand_on(self.alloc, &mut self.lines, piece, self.output) {
            Ok(()) => Ok(piece.len()),
            Err(fault) => {
                self.failures = self.failures.saturating_add(1);
                Err(fault)
            }
        }
    }

    fn failures(&self) -> u64 {
        self.failures
    }
}
