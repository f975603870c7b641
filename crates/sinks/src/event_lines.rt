//! One line of a list of events.

ghost use Rattle.std.specs.Prelude.{◌≤◌, IfSome};

use model::Event;

/// The greatest number of steps that a line may hold.
const GREATEST_NUMBER: u32 = 1_000_000;

/// The greatest interrupt line.
const GREATEST_LINE: u32 = 63;

/// What one line says.
#[derive(Clone, Copy, Debug, PartialEq, Eq)]
pub enum EventLine {
    /// Nothing: it is empty, or a comment.
    Blank,
    /// The same event so many times.
    Events(Event, u32),
    /// Steps until no thread runs, at most so many.
    Settle(u32),
}

/// A line without its line feed, and without a carriage return before it.
pub(crate) fn without_end(piece: &[u8]) -> &[u8] {
    match piece {
        [line @ .., b'\r', b'\n'] => line,
        [line @ .., b'\n'] => line,
        line => line,
    }
}

/// What a line without its line feed says, if it is well formed: `step`, `step N`, `settle N`, `tick`, `irq N`, `write ADDRESS WORD` or
/// `read ADDRESS`, nothing, or a comment.
pub fn event_line(line: &[u8]) -> Option<EventLine> {
    match line {
        [] | [b'#', ..] => Some(EventLine::Blank),
        b"step" => Some(EventLine::Events(Event::Step, 1)),
        b"tick" => Some(EventLine::Events(Event::Tick, 1)),
        [b's', b't', b'e', b'p', b' ', digits @ ..] => match number_of(digits)? {
            0 => None,
            count => Some(EventLine::Events(Event::Step, count)),
        },
        [b's', b'e', b't', b't', b'l', b'e', b' ', digits @ ..] => match number_of(digits)? {
            0 => None,
            most => Some(EventLine::Settle(most)),
        },
        [b'i', b'r', b'q', b' ', digits @ ..] => match number_of(digits)? {
            line @ 0..=GREATEST_LINE => Some(EventLine::Events(Event::Irq(line as u8), 1)),
            _ => None,
        },
        [b'w', b'r', b'i', b't', b'e', b' ', words @ ..] => {
            let (address, word) = split_at_space(words)?;
            let address = address_of(address)?;
            let word = word_of(word)?;
            Some(EventLine::Events(Event::Write { address, word }, 1))
        }
        [b'r', b'e', b'a', b'd', b' ', word @ ..] => {
            let address = address_of(word)?;
            Some(EventLine::Events(Event::Read { address }, 1))
        }
        _ => None,
    }
}

/// What stands before and after the first space.
fn split_at_space(words: &[u8]) -> Option<(&[u8], &[u8])> {
    let at = words.iter().position(|byte| *byte == b' ')?;
    let (first, rest) = words.split_at(at);
    Some((first, rest.get(1..)?))
}

/// The address of a word: a number that 4 divides.
fn address_of(word: &[u8]) -> Option<u32> {
    let address = word_of(word)?;
    if address % 4 == 0 {
        Some(address)
    } else {
        None
    }
}

/// The number below 2^32 that decimal digits spell, or hexadecimal ones behind `0x`.
fn word_of(word: &[u8]) -> Option<u32> {
    match word {
        [b'0', b'x', digits @ ..] => digits_in(digits, 16),
        digits => digits_in(digits, 10),
    }
}

/// The number below 2^32 that digits spell in a base.
fn digits_in(digits: &[u8], base: u32) -> Option<u32> {
    if digits.is_empty() {
        return None;
    }
    let mut number = 0u32;
    for byte in digits {
        let digit = match *byte {
            byte @ b'0'..=b'9' => u32::from(byte - b'0'),
            byte @ b'a'..=b'f' => u32::from(byte - b'a') + 10,
            byte @ b'A'..=b'F' => u32::from(byte - b'A') + 10,
            _ => return None,
        };
        if digit >= base {
            return None;
        }
        number = number.checked_mul(base)?.checked_add(digit)?;
    }
    Some(number)
}

/// The number that decimal digits spell, if there is one and it is not too great.
fn number_of(digits: &[u8]) -> Option<u32>
    ensures greatest { IfSome result (λ number. number ≤ 1000000) }
{
    if digits.is_empty() {
        return None;
    }
    let mut number = 0;
    for digit in digits {
        if !digit.is_ascii_digit() {
            return None;
        }
        number = number * 10 + u32::from(digit - b'0');
        if number > GREATEST_NUMBER {
            return None;
        }
    }
    Some(number)
}
