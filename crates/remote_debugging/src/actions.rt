//! What packets ask for.

use crate::debuggers::{Debugger, Watched};
use crate::motions::Motion;
use remote_packets::split_number;
use std::alloc::AllocError;
use std::rt::Files;

/// What is answered where registers or memory are to be written.
const NOT_WRITTEN: &[u8] =
    b"E.registers and memory are not written: events are all that changes a run";

/// What is answered to a packet.
#[derive(Drop)]
pub(crate) struct Reply {
    /// What the debugger's user reads.
    pub(crate) said: String,
    /// The payload of the answer.
    pub(crate) answer: Vec<u8>,
    /// Whether the session ends with it, without an answer where that is empty.
    pub(crate) ends: bool,
}

/// The numbers of a packet `ADDRESS,LENGTH`.
fn numbers_of(text: &[u8]) -> Option<(u32, u32)> {
    match split_number(text)? {
        (address, [b',', rest @ ..]) => Some((address, split_number(rest)?.0)),
        _ => None,
    }
}

/// The text that digits spell, two for each byte.
fn text_of(digits: &[u8], to: &mut Vec<u8>) -> Result<(), AllocError> {
    for pair in digits.chunks(2) {
        if let Some((byte, _)) = split_number(pair) {
            to.push((byte % 256) as u8)?;
        }
    }
    Ok(())
}

impl Debugger<'_, '_, '_, '_> {
    /// Answers how a motion ended.
    fn answer_motion(&self, motion: Motion, reply: &mut Reply) -> Result<(), AllocError> {
        self.push_said(motion, &mut reply.said)?;
        self.push_stop(motion, &mut reply.answer)
    }

    /// Goes on.
    fn go_on(&mut self, steps: bool, reply: &mut Reply) -> Result<(), AllocError> {
        let motion = self.go(steps)?;
        self.answer_motion(motion, reply)
    }

    /// Goes back.
    fn go_backwards(&mut self, steps: bool, reply: &mut Reply) -> Result<(), AllocError> {
        let motion = self.go_back(steps)?;
        self.answer_motion(motion, reply)
    }

    /// Goes on as actions say, of the form `;ACTION[:THREAD]..`: by a step of the first thread that steps, or to the next stop.
    fn act_by_threads(&mut self, actions: &[u8], reply: &mut Reply) -> Result<(), AllocError> {
        for action in actions.split(|byte| *byte == b';') {
            if let [b's' | b'S', rest @ ..] = action {
                let mut words = rest.split(|byte| *byte == b':');
                let _ = words.next();
                if let Some(part) = words.next().and_then(|word| self.part_named(word)) {
                    self.moving = part;
                }
                return self.go_on(true, reply);
            }
        }
        self.go_on(false, reply)
    }

    /// Chooses the part that is shown, or that moves. Numbers below 1 mean any part, and change nothing.
    fn choose_thread(&mut self, text: &[u8], reply: &mut Reply) -> Result<(), AllocError> {
        let (is_shown, number) = match text {
            [b'g', number @ ..] => (true, number),
            [_, number @ ..] => (false, number),
            [] => (false, text),
        };
        match self.part_named(number) {
            Some(part) => {
                self.moving = part;
                if is_shown {
                    self.selected = part;
                }
                reply.answer.extend_from_slice(b"OK")
            }
            None if matches!(number, b"0" | b"-1") => reply.answer.extend_from_slice(b"OK"),
            None => reply.answer.extend_from_slice(b"E02"),
        }
    }

    /// Sets or clears a breakpoint or a watch, of the form `TYPE,ADDRESS,LENGTH`.
    fn change_stop(
        &mut self,
        sets: bool,
        text: &[u8],
        reply: &mut Reply,
    ) -> Result<(), AllocError> {
        let (is_watch, numbers) = match text {
            [b'0' | b'1', b',', rest @ ..] => (false, rest),
            [b'2', b',', rest @ ..] => (true, rest),
            _ => return Ok(()),
        };
        let Some((address, length)) = numbers_of(numbers) else {
            return reply.answer.extend_from_slice(b"E04");
        };
        let watched = Watched { address, length };
        let done = match (is_watch, sets) {
            (false, true) => self.set_breakpoint(address)?,
            (true, true) => self.set_watch(watched)?,
            (false, false) => {
                self.clear_breakpoint(address);
                true
            }
            (true, false) => {
                self.clear_watch(watched);
                true
            }
        };
        reply
            .answer
            .extend_from_slice(if done { b"OK" } else { b"E05" })
    }

    /// Answers with memory, of the form `ADDRESS,LENGTH`.
    fn show_memory(&self, text: &[u8], reply: &mut Reply) -> Result<(), AllocError> {
        match numbers_of(text) {
            Some((address, length)) => self.push_memory(address, length, &mut reply.answer),
            None => reply.answer.extend_from_slice(b"E04"),
        }
    }

    /// Answers with a register, by its number.
    fn show_register(&self, text: &[u8], reply: &mut Reply) -> Result<(), AllocError> {
        match split_number(text) {
            Some((number, [])) => self.push_register(number, &mut reply.answer),
            _ => reply.answer.extend_from_slice(b"E04"),
        }
    }

    /// Answers what `monitor` asks, whose text is spelled by digits.
    fn answer_monitor<R: Files + Input + AllocGlobal>(
        &mut self,
        rt: &R,
        digits: &[u8],
        reply: &mut Reply,
    ) -> Result<(), AllocError> {
        let mut line = Vec::new(self.alloc);
        text_of(digits, &mut line)?;
        match std::str::from_utf8(line.as_slice()) {
            Ok(line) => self.monitor(rt, line, &mut reply.said)?,
            Err(_) => reply.said.push_str("no text\n")?,
        }
        reply.answer.extend_from_slice(b"OK")
    }

    /// Answers a packet that moves, `c`, `s`, `bc`, `bs` and `vCont`, and says whether it was one.
    fn move_by(&mut self, packet: &[u8], reply: &mut Reply) -> Result<bool, AllocError> {
        match packet {
            b"c" => self.go_on(false, reply)?,
            b"s" => self.go_on(true, reply)?,
            b"bc" => self.go_backwards(false, reply)?,
            b"bs" => self.go_backwards(true, reply)?,
            b"vCont?" => reply.answer.extend_from_slice(b"vCont;c;C;s;S")?,
            [b'v', b'C', b'o', b'n', b't', b';', actions @ ..] => {
                self.act_by_threads(actions, reply)?
            }
            _ => return Ok(false),
        }
        Ok(true)
    }

    /// Answers a packet that ends the session.
    fn end_by(&mut self, packet: &[u8], reply: &mut Reply) -> Result<(), AllocError> {
        match packet {
            [b'D', ..] | [b'v', b'K', b'i', b'l', b'l', ..] => {
                reply.ends = true;
                reply.answer.extend_from_slice(b"OK")
            }
            b"k" => {
                reply.ends = true;
                Ok(())
            }
            _ => Ok(()),
        }
    }

    /// Answers a packet. One that is not known has an empty answer.
    pub(crate) fn act<R: Files + Input + AllocGlobal>(
        &mut self,
        rt: &R,
        packet: &[u8],
        reply: &mut Reply,
    ) -> Result<(), AllocError> {
        if self.move_by(packet, reply)? {
            return Ok(());
        }
        match packet {
            b"?" => self.push_stop(Motion::Stopped, &mut reply.answer),
            b"g" => self.push_registers(&mut reply.answer),
            [b'p', number @ ..] => self.show_register(number, reply),
            [b'm', numbers @ ..] => self.show_memory(numbers, reply),
            [b'G' | b'P' | b'M' | b'X', ..] => reply.answer.extend_from_slice(NOT_WRITTEN),
            [b'H', rest @ ..] => self.choose_thread(rest, reply),
            [b'T', thread @ ..] => reply.answer.extend_from_slice(if self
                .part_named(thread)
                .is_some()
            {
                b"OK"
            } else {
                b"E02"
            }),
            [b'Z', rest @ ..] => self.change_stop(true, rest, reply),
            [b'z', rest @ ..] => self.change_stop(false, rest, reply),
            [b'q', b'R', b'c', b'm', b'd', b',', digits @ ..] => {
                self.answer_monitor(rt, digits, reply)
            }
            [b'q', query @ ..] => self.answer_query(query, &mut reply.answer),
            packet => self.end_by(packet, reply),
        }
    }
}
