//! Where the program's output goes.

ghost use Rattle.std.specs.Prelude.{◌≡◌, ℕ, List, [], Option, OnErr, OnOk, Some, if◌then◌else◌, is_ok};
ghost use Rattle.sinks.specs.Sinks.{Grows, GrowsByBeginning, TakesSome, failures_after, one_more};

use std::alloc::Global;
use std::io::Write;
use std::marker::Model;

/// A piece of output that was not taken.
#[derive(Clone, Copy, Debug, PartialEq, Eq)]
pub struct SinkFault;

/// Takes output, a piece at a time, and counts the pieces of which it took nothing.
pub trait Sink {
    /// All bytes that it took, where they are known.
    ghost contents: { Self → Option (List ℕ) };

    /// How many pieces it refused, or took nothing of though they were not empty. At 2^64 - 1 the
    /// count stays.
    ghost failures: { Self → ℕ };

    /// Takes some bytes from the front of a piece, and answers how many.
    ///
    /// # Errors
    ///
    /// It takes nothing.
    fn put(&mut self, piece: &[u8]) -> Result<usize, SinkFault>
        ensures taken { TakesSome (contents self.old) (contents self.new) piece.now result }
        ensures counted { failures self.new ≡ failures_after piece.now result (failures self.old) };

    /// How many pieces failed so far.
    fn failures(&self) -> u64
        ensures { result ≡ failures self.now };
}

/// A sink in memory, with room for so many bytes.
#[derive(Drop)]
pub struct MemorySink {
    bytes: Vec<u8>,
    room: usize,
    failures: u64,
}

impl MemorySink {
    /// An empty sink with room for so many bytes.
    pub fn new(alloc: Global, room: usize) -> Self
        ensures bytes { result.bytes.items ≡ [] }
        ensures room { result.room ≡ room }
        ensures failures { result.failures ≡ 0 }
    {
        MemorySink {
            bytes: Vec::new(alloc),
            room,
            failures: 0,
        }
    }

    /// The bytes that it took.
    pub fn bytes(&self) -> &[u8]
        ensures { result.now ≡ self.now.bytes.items }
    {
        self.bytes.as_slice()
    }
}

impl Sink for MemorySink {
    ghost contents = { λ sink. Some sink.bytes.items };

    ghost failures = { λ sink. sink.failures };

    fn put(&mut self, piece: &[u8]) -> Result<usize, SinkFault> {
        let count = piece.len().min(self.room);
        if count == 0 && !piece.is_empty() {
            self.failures = self.failures.saturating_add(1);
            return Err(SinkFault);
        }
        if self.bytes.extend_from_slice(&piece[..count]).is_err() {
            self.failures = self.failures.saturating_add(1);
            return Err(SinkFault);
        }
        self.room -= count;
        Ok(count)
    }

    fn failures(&self) -> u64 {
        self.failures
    }
}

/// A sink over a writer, as standard output.
#[derive(Drop)]
pub struct WriterSink<W: Write + Drop> {
    writer: W,
    failures: u64,
}

impl<W: Write + Drop> WriterSink<W> {
    /// A sink over this writer.
    pub fn new(writer: W) -> Self
        ensures writer { result.writer ≡ writer }
        ensures failures { result.failures ≡ 0 }
    {
        WriterSink {
            writer,
            failures: 0,
        }
    }
}

impl<W: Write + Drop> Sink for WriterSink<W> {
    ghost contents = { λ sink. W.contents sink.writer };

    ghost failures = { λ sink. sink.failures };

    fn put(&mut self, piece: &[u8]) -> Result<usize, SinkFault> {
        match self.writer.write(piece) {
            Ok(count) => {
                if count == 0 && !piece.is_empty() {
                    self.failures = self.failures.saturating_add(1);
                }
                Ok(count)
            }
            Err(_) => {
                self.failures = self.failures.saturating_add(1);
                Err(SinkFault)
            }
        }
    }

    fn failures(&self) -> u64 {
        self.failures
    }
}

/// Puts all of the bytes, in as many pieces as the sink wants.
///
/// # Errors
///
/// A piece of which it took nothing; what it took before is a beginning of the bytes.
pub fn put_all<S: Sink>(sink: &mut S, bytes: &[u8]) -> Result<(), SinkFault>
    ensures ok { OnOk result (Grows (S.contents sink.old) (S.contents sink.new) bytes.now) }
    ensures err { OnErr result (GrowsByBeginning (S.contents sink.old) (S.contents sink.new) bytes.now) }
    ensures counted { S.failures sink.new ≡ (if is_ok result then S.failures sink.old else one_more (S.failures sink.old)) }
{
    let mut done = 0;
    while done < bytes.len() {
        let count = sink.put(&bytes[done..])?;
        if count == 0 {
            return Err(SinkFault);
        }
        done += count;
    }
    Ok(())
}
