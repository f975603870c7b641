//! Numbers in hexadecimal digits.

ghost use Rattle.std.specs.Prelude.{◌≡◌, ◌++◌, ◌/◌, ◌%◌, ◌∷◌, [], OnOk};
ghost use Rattle.remote_packets.specs.Frames.{digit, digits};

use std::alloc::AllocError;

/// The digit of a number below 16.
fn digit(number: u8) -> u8
    ensures { result ≡ digit (number % 16) }
{
    let low = number % 16;
    if low < 10 {
        b'0' + low
    } else {
        b'a' + (low - 10)
    }
}

/// The number that a digit means.
fn number_of(byte: u8) -> Option<u8> {
    match byte {
        b'0'..=b'9' => Some(byte - b'0'),
        b'a'..=b'f' => Some(byte - b'a' + 10),
        b'A'..=b'F' => Some(byte - b'A' + 10),
        _ => None,
    }
}

/// The number that two digits mean.
pub(crate) fn byte_of(high: u8, low: u8) -> Option<u8> {
    let high = number_of(high)?;
    Some(high.wrapping_mul(16).wrapping_add(number_of(low)?))
}

/// Appends the two digits of a byte.
///
/// # Errors
///
/// Memory is refused.
pub fn push_byte(to: &mut Vec<u8>, byte: u8) -> Result<(), AllocError>
    ensures { OnOk result (to.new.items ≡ to.old.items ++ digits byte) }
{
    to.push(digit(byte / 16))?;
    to.push(digit(byte))?;
    Ok(())
}

/// Appends the digits of bytes, one after another.
///
/// # Errors
///
/// Memory is refused.
pub fn push_bytes(to: &mut Vec<u8>, bytes: &[u8]) -> Result<(), AllocError> {
    for byte in bytes {
        push_byte(to, *byte)?;
    }
    Ok(())
}

/// Appends a word as registers and memory have it: its lowest byte first.
///
/// # Errors
///
/// Memory is refused.
pub fn push_word(to: &mut Vec<u8>, word: u32) -> Result<(), AllocError> {
    push_bytes(to, &word.to_le_bytes())
}

/// The number below 2^32 that the digits at the beginning mean, the highest first, and what comes after them.
pub fn split_number(text: &[u8]) -> Option<(u32, &[u8])> {
    let count = text
        .iter()
        .position(|byte| number_of(*byte).is_none())
        .unwrap_or(text.len());
    let (digits, rest) = text.split_at(count);
    Some((number_in(digits)?, rest))
}

/// The number below 2^32 that digits mean, if there are any.
fn number_in(digits: &[u8]) -> Option<u32> {
    if digits.is_empty() {
        return None;
    }
    let mut number = 0u32;
    for byte in digits {
        number = number
            .checked_mul(16)?
            .checked_add(u32::from(number_of(*byte)?))?;
    }
    Some(number)
}
