//! What a line says.

use crate::happenings::{Happening, Mark};

/// The value of a hexadecimal digit.
fn hex_digit(byte: u8) -> Option<u8> {
    match byte {
        b'0'..=b'9' => Some(byte - b'0'),
        b'a'..=b'f' => Some(byte - b'a' + 10),
        _ => None,
    }
}

/// The number below 2^32 that hexadecimal digits spell.
pub fn hex_word(digits: &[u8]) -> Option<u32> {
    let mut value = 0u32;
    for byte in digits {
        let digit = hex_digit(*byte)?;
        value = value.checked_mul(16)?.checked_add(u32::from(digit))?;
    }
    Some(value)
}

/// The number below 256 that decimal digits spell.
fn small_number(digits: &[u8]) -> Option<u8> {
    if digits.is_empty() {
        return None;
    }
    let mut value = 0u8;
    for byte in digits {
        if !byte.is_ascii_digit() {
            return None;
        }
        value = value.checked_mul(10)?.checked_add(*byte - b'0')?;
    }
    Some(value)
}

/// That a call is refused with the error of a number.
fn refused_by(digits: &[u8]) -> Option<Mark> {
    Some(Mark::Refused(small_number(digits)?))
}

/// That a fault of a number comes.
fn faulted_by(digits: &[u8]) -> Option<Mark> {
    Some(Mark::Faulted(small_number(digits)?))
}

/// The byte that two hexadecimal digits spell.
pub fn hex_byte(high: u8, low: u8) -> Option<u8> {
    let high = hex_digit(high)?;
    Some(high.saturating_mul(16).saturating_add(hex_digit(low)?))
}

/// That a byte of two hexadecimal digits is put.
fn put_by(high: u8, low: u8) -> Option<Mark> {
    Some(Mark::Put(hex_byte(high, low)?))
}

/// What came of an instruction, as a line's end says.
fn mark_of(text: &[u8]) -> Option<Mark> {
    match text {
        b"plain" => Some(Mark::Plain),
        b"wait" => Some(Mark::Wait),
        b"ok" => Some(Mark::Completed),
        [b'e', b'r', b'r', b'o', b'r', b' ', digits @ ..] => refused_by(digits),
        [b'f', b'a', b'u', b'l', b't', b' ', digits @ ..] => faulted_by(digits),
        [b'b', b'y', b't', b'e', b' ', high, low] => put_by(*high, *low),
        _ => None,
    }
}

/// What a thread did, by the address of its instruction and what came of it.
pub fn ran_by(thread: u32, text: &[u8]) -> Option<Happening> {
    if text.len() < 10 || text[8] != b' ' {
        return None;
    }
    Some(Happening::Ran {
        thread,
        pc: hex_word(&text[..8])?,
        mark: mark_of(&text[9..])?,
    })
}

/// An instruction that a thread ran.
fn ran(line: &[u8]) -> Option<Happening> {
    if line.len() < 9 || line[8] != b' ' {
        return None;
    }
    ran_by(hex_word(&line[..8])?, &line[9..])
}

/// An address and a word, each of eight hexadecimal digits.
fn address_and_word(text: &[u8]) -> Option<(u32, u32)> {
    if text.len() != 17 || text[8] != b' ' {
        return None;
    }
    Some((hex_word(&text[..8])?, hex_word(&text[9..])?))
}

/// That the world writes a word.
fn wrote(text: &[u8]) -> Option<Happening> {
    let (address, word) = address_and_word(text)?;
    Some(Happening::Wrote { address, word })
}

/// That the world reads a word.
fn showed(text: &[u8]) -> Option<Happening> {
    let (address, word) = address_and_word(text)?;
    Some(Happening::Showed { address, word })
}

/// A line without its line feed, and without a carriage return before it.
pub fn without_end(piece: &[u8]) -> &[u8] {
    match piece {
        [line @ .., b'\r', b'\n'] => line,
        [line @ .., b'\n'] => line,
        line => line,
    }
}

/// What a line of a trace says, without its line feed.
pub fn told_by(line: &[u8]) -> Option<Happening> {
    match line {
        b"idle" => Some(Happening::Idle),
        b"tick" => Some(Happening::Tick),
        [b'i', b'r', b'q', b' ', digits @ ..] => Some(Happening::Interrupt(small_number(digits)?)),
        [b'w', b'r', b'i', b't', b'e', b' ', rest @ ..] => wrote(rest),
        [b'r', b'e', b'a', b'd', b' ', rest @ ..] => showed(rest),
        line => ran(line),
    }
}
