//! A session: packets come from a reader, and answers go to a sink.

use crate::actions::Reply;
use crate::debuggers::Debugger;
use remote_packets::{Arrived, Packets, push_bytes, push_frame};
use sinks::{Sink, SinkFault, put_all};
use std::alloc::{AllocError, Global};
use std::io::Read;
use std::rt::Files;

/// How many bytes are read at once at most.
const PIECE: usize = 4096;

/// How many bytes of what is said are in one packet at most.
const MOST_SAID: usize = 1024;

/// Why a session ended before the end of its input.
#[derive(Clone, Copy, Debug, PartialEq, Eq)]
pub enum ServeFault {
    /// The input cannot be read.
    Input,
    /// The output takes no more.
    Output,
    /// Memory was refused.
    OutOfMemory,
}

impl From<SinkFault> for ServeFault {
    fn from(_fault: SinkFault) -> ServeFault {
        ServeFault::Output
    }
}

impl From<AllocError> for ServeFault {
    fn from(_fault: AllocError) -> ServeFault {
        ServeFault::OutOfMemory
    }
}

/// What is kept of a session beside the run: the packet that comes, and what is answered.
#[derive(Drop)]
struct Exchange {
    packets: Packets,
    reply: Reply,
    /// The last answer, in case that it is not understood.
    frame: Vec<u8>,
}

/// Appends a packet that says a piece of a text to the debugger's user.
fn push_said(alloc: Global, piece: &[u8], to: &mut Vec<u8>) -> Result<(), AllocError> {
    let mut payload = Vec::new(alloc);
    payload.push(b'O')?;
    push_bytes(&mut payload, piece)?;
    push_frame(to, payload.as_slice())
}

impl Exchange {
    /// Makes the packets of what is said, and of the answer.
    fn make_frame(&mut self, alloc: Global) -> Result<(), AllocError> {
        self.frame.clear();
        for piece in self.reply.said.as_bytes().chunks(MOST_SAID) {
            push_said(alloc, piece, &mut self.frame)?;
        }
        push_frame(&mut self.frame, self.reply.answer.as_slice())
    }

    /// Puts what is said, in packets of its own, and the answer.
    fn put_reply<S: Sink>(&mut self, alloc: Global, sink: &mut S) -> Result<(), ServeFault> {
        self.make_frame(alloc)?;
        put_all(sink, self.frame.as_slice())?;
        Ok(())
    }
}

impl Debugger<'_, '_, '_, '_> {
    /// Answers what has come. The result is whether the session goes on.
    fn answer<R: Files + Input + AllocGlobal, S: Sink>(
        &mut self,
        rt: &R,
        arrived: Arrived,
        exchange: &mut Exchange,
        sink: &mut S,
    ) -> Result<bool, ServeFault> {
        exchange.reply.said.clear();
        exchange.reply.answer.clear();
        match arrived {
            Arrived::Packet => {
                put_all(sink, b"+")?;
                self.act(rt, exchange.packets.payload(), &mut exchange.reply)?;
                exchange.put_reply(self.alloc, sink)?;
            }
            Arrived::TooLong => {
                put_all(sink, b"+")?;
                exchange.reply.answer.extend_from_slice(b"E06")?;
                exchange.put_reply(self.alloc, sink)?;
            }
            Arrived::WrongSum => put_all(sink, b"-")?,
            Arrived::Refused => put_all(sink, exchange.frame.as_slice())?,
            // A run has ended by itself before this is read.
            Arrived::Interrupt => {}
        }
        Ok(!exchange.reply.ends)
    }
}

/// Answers the packets of a reader, up to its end or to the packet that ends the session. Any bytes may come.
///
/// # Errors
///
/// The input cannot be read, the output takes no more, or memory is refused.
pub fn serve<R: Files + Input + AllocGlobal, B: Read + Drop, S: Sink>(
    rt: &R,
    debugger: &mut Debugger<'_, '_, '_, '_>,
    mut reader: B,
    sink: &mut S,
) -> Result<(), ServeFault> {
    let alloc = rt.alloc();
    let mut exchange = Exchange {
        packets: Packets::new(),
        reply: Reply {
            said: String::new(alloc),
            answer: Vec::new(alloc),
            ends: false,
        },
        frame: Vec::new(alloc),
    };
    let mut piece = [0u8; PIECE];
    'pieces: for _ in 0..u64::MAX {
        let count = match reader.read(&mut piece) {
            Ok(0) => return Ok(()),
            Ok(count) => count,
            Err(_) => return Err(ServeFault::Input),
        };
        for byte in piece.get(..count).unwrap_or(&[]) {
            if let Some(arrived) = exchange.packets.take(*byte) {
                if !debugger.answer(rt, arrived, &mut exchange, sink)? {
                    return Ok(());
                }
            }
        }
    }
    Ok(())
}
