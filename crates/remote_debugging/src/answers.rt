//! What is answered to queries.

use crate::debuggers::Debugger;
use crate::descriptions::{push_piece, target_description};
use remote_packets::{push_bytes, split_number};
use std::alloc::AllocError;

/// What this side of the protocol does.
const FEATURES: &[u8] =
    b"PacketSize=1000;qXfer:features:read+;swbreak+;ReverseStep+;ReverseContinue+;vContSupported+";

impl Debugger<'_, '_, '_, '_> {
    /// The part that a thread's number means.
    pub(crate) fn part_named(&self, text: &[u8]) -> Option<usize> {
        let (number, _) = split_number(text)?;
        let part = (number as usize).checked_sub(1)?;
        if part < self.scene.parts.len() {
            Some(part)
        } else {
            None
        }
    }

    /// Appends the numbers of all parts.
    fn push_parts(&self, to: &mut Vec<u8>) -> Result<(), AllocError> {
        to.push(b'm')?;
        for number in 0..self.scene.parts.len() {
            if number > 0 {
                to.push(b',')?;
            }
            let next = number.saturating_add(1);
            let text = format!(in self.alloc; "{next:x}")?;
            to.extend_from_slice(text.as_bytes())?;
        }
        Ok(())
    }

    /// Appends what is said of a part beside its number.
    fn push_extra(&mut self, thread: &[u8], to: &mut Vec<u8>) -> Result<(), AllocError> {
        let Some(part) = self.part_named(thread) else {
            return to.extend_from_slice(b"E02");
        };
        self.find_used()?;
        let mut text = String::new(self.alloc);
        self.push_part(part, &mut text)?;
        push_bytes(to, text.as_bytes())
    }

    /// Appends a piece of the description of the machine, of the form `FROM,LENGTH`.
    fn push_description(&self, piece: &[u8], to: &mut Vec<u8>) -> Result<(), AllocError> {
        let Some((from, [b',', rest @ ..])) = split_number(piece) else {
            return to.extend_from_slice(b"E04");
        };
        let Some((length, _)) = split_number(rest) else {
            return to.extend_from_slice(b"E04");
        };
        let text = target_description(self.alloc)?;
        push_piece(text.as_bytes(), from, length.min(2048), to)
    }

    /// Answers a query, of which the first byte, `q`, was taken. One that is not known has an empty answer.
    pub(crate) fn answer_query(
        &mut self,
        query: &[u8],
        to: &mut Vec<u8>,
    ) -> Result<(), AllocError> {
        if query.starts_with(b"Supported") {
            return to.extend_from_slice(FEATURES);
        }
        if let Some(piece) = query.strip_prefix(b"Xfer:features:read:target.xml:") {
            return self.push_description(piece, to);
        }
        if let Some(thread) = query.strip_prefix(b"ThreadExtraInfo,") {
            return self.push_extra(thread, to);
        }
        match query {
            b"fThreadInfo" => self.push_parts(to),
            b"sThreadInfo" => Ok(to.push(b'l')?),
            b"C" => {
                let thread = self.selected.saturating_add(1);
                let text = format!(in self.alloc; "QC{thread:x}")?;
                to.extend_from_slice(text.as_bytes())
            }
            b"Attached" => Ok(to.push(b'1')?),
            b"Symbol::" => to.extend_from_slice(b"OK"),
            _ => Ok(()),
        }
    }
}
