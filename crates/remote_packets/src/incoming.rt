//! Packets as they come, a byte at a time.

use crate::hexadecimal::byte_of;

/// How many bytes the payload of a packet has at most.
pub const LONGEST: usize = 4096;

/// What sits between packets and asks for an interrupt.
const INTERRUPT: u8 = 3;

/// What has come.
#[derive(Clone, Copy, Debug, PartialEq, Eq)]
pub enum Arrived {
    /// A packet whose sum is right.
    Packet,
    /// A packet whose sum is wrong.
    WrongSum,
    /// A packet whose payload is too long, and is not kept.
    TooLong,
    /// The other side asks for an interrupt.
    Interrupt,
    /// The other side has not understood the last packet.
    Refused,
}

/// Where in a packet the next byte is.
#[derive(Clone, Copy, Debug, PartialEq, Eq)]
enum Stage {
    Between,
    Payload,
    FirstDigit,
    SecondDigit(u8),
}

/// Takes bytes, and gives packets. What is kept is one payload, of at most 4096 bytes.
#[derive(Drop)]
pub struct Packets {
    bytes: [u8; LONGEST],
    /// How many bytes of the payload have come, also of one that is too long.
    length: usize,
    /// The sum of the payload's bytes.
    sum: u8,
    stage: Stage,
}

impl Packets {
    /// Nothing has come.
    pub fn new() -> Self {
        Packets {
            bytes: [0; LONGEST],
            length: 0,
            sum: 0,
            stage: Stage::Between,
        }
    }

    /// The payload of the packet that came last.
    pub fn payload(&self) -> &[u8] {
        self.bytes.get(..self.length).unwrap_or(&[])
    }

    /// A packet begins.
    fn begin(&mut self) {
        self.length = 0;
        self.sum = 0;
        self.stage = Stage::Payload;
    }

    /// One more byte of the payload.
    fn add(&mut self, byte: u8) {
        if let Some(at) = self.bytes.get_mut(self.length) {
            *at = byte;
        }
        self.length = self.length.saturating_add(1);
        self.sum = self.sum.wrapping_add(byte);
    }

    /// A packet ends, with the digits of its sum.
    fn end(&mut self, high: u8, low: u8) -> Arrived {
        self.stage = Stage::Between;
        if self.length > LONGEST {
            Arrived::TooLong
        } else if byte_of(high, low) == Some(self.sum) {
            Arrived::Packet
        } else {
            Arrived::WrongSum
        }
    }

    /// A byte outside of a packet.
    fn between(&mut self, byte: u8) -> Option<Arrived> {
        match byte {
            b'$' => {
                self.begin();
                None
            }
            INTERRUPT => Some(Arrived::Interrupt),
            b'-' => Some(Arrived::Refused),
            _ => None,
        }
    }

    /// Takes the next byte. Any byte may come at any time: what is no packet is passed over.
    pub fn take(&mut self, byte: u8) -> Option<Arrived> {
        match self.stage {
            Stage::Between => return self.between(byte),
            Stage::Payload => match byte {
                b'$' => self.begin(),
                b'#' => self.stage = Stage::FirstDigit,
                byte => self.add(byte),
            },
            Stage::FirstDigit => self.stage = Stage::SecondDigit(byte),
            Stage::SecondDigit(high) => return Some(self.end(high, byte)),
        }
        None
    }
}
