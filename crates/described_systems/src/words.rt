//! The words of a line, and what they are by themselves.

use crate::faults::{DescriptionFault, Mistake, fault};
use std::alloc::{AllocError, Global};

/// Addresses of pages are multiples of this.
const PAGE_BYTES: u32 = 4096;

/// The greatest address that a part can have.
const GREATEST_ADDRESS: u32 = 0x7FFF_FFFF;

/// Whether a character parts words.
fn parts_words(character: char) -> bool {
    character == ' ' || character == '\t' || character == ','
}

/// What a line says, without its comment.
fn said_on(line: &str) -> &str {
    match line.split_once('#') {
        Some((said, _)) => said,
        None => line,
    }
}

/// The words of a line.
pub(crate) fn words_of<'a>(alloc: Global, line: &'a str) -> Result<Vec<&'a str>, AllocError> {
    let mut words = Vec::new(alloc);
    for word in said_on(line).split(parts_words) {
        if !word.is_empty() {
            words.push(word)?;
        }
    }
    Ok(words)
}

/// These words once more.
pub(crate) fn listed<'a>(alloc: Global, words: &[&'a str]) -> Result<Vec<&'a str>, AllocError> {
    let mut list = Vec::new(alloc);
    for word in words {
        list.push(*word)?;
    }
    Ok(list)
}

/// Whether a byte may begin a name.
fn begins_names(byte: u8) -> bool {
    byte.is_ascii_lowercase() || byte == b'_'
}

/// Whether a byte may be in a name.
fn is_of_names(byte: u8) -> bool {
    begins_names(byte) || byte.is_ascii_digit()
}

/// Whether a word is a name: a lower-case letter or `_`, and then those and digits.
pub(crate) fn is_name(word: &str) -> bool {
    match word.as_bytes().first() {
        Some(first) => begins_names(*first)
            && word.as_bytes().iter().all(|byte| is_of_names(*byte)),
        None => false,
    }
}

/// Whether all bytes are digits, of which there is one at least.
pub(crate) fn are_digits(word: &str) -> bool {
    !word.is_empty() && word.as_bytes().iter().all(|byte| byte.is_ascii_digit())
}

/// Whether a word is `x` and a number, as registers are.
pub(crate) fn is_register(word: &str) -> bool {
    match word.strip_prefix("x") {
        Some(digits) => are_digits(digits),
        None => false,
    }
}

/// Whether all bytes are hexadecimal digits, of which there is one at least.
fn are_hexadecimal(word: &str) -> bool {
    !word.is_empty() && word.as_bytes().iter().all(|byte| byte.is_ascii_hexdigit())
}

/// The number of 32 bits that a word is: decimal, or hexadecimal after `0x`.
fn number_in(word: &str) -> Option<u32> {
    match word.strip_prefix("0x") {
        Some(digits) if are_hexadecimal(digits) => u32::from_str_radix(digits, 16).ok(),
        None if are_digits(word) => word.parse::<u32>().ok(),
        _ => None,
    }
}

/// Whether a word is a number of 32 bits, or one with `-` before it.
pub(crate) fn is_number(word: &str) -> bool {
    number_in(word.strip_prefix("-").unwrap_or(word)).is_some()
}

/// The number in a range that a word of a line is.
pub(crate) fn number(
    line: u64,
    word: &str,
    low: u32,
    high: u32,
) -> Result<u32, DescriptionFault<'_>> {
    match number_in(word) {
        Some(number) if low <= number && number <= high => Ok(number),
        _ => Err(fault(line, Mistake::NotANumber { word, low, high })),
    }
}

/// The address below 2^31 that a word of a line is.
pub(crate) fn address(line: u64, word: &str) -> Result<u32, DescriptionFault<'_>> {
    number(line, word, 0, GREATEST_ADDRESS)
}

/// The address of a page that a word of a line is.
pub(crate) fn page_address(line: u64, word: &str) -> Result<u32, DescriptionFault<'_>> {
    match number_in(word) {
        Some(address) if address % PAGE_BYTES == 0 && address <= GREATEST_ADDRESS => Ok(address),
        _ => Err(fault(line, Mistake::NotAPlace { word })),
    }
}
