//! One line of a list of events whose words may be names.

use crate::line_faults::Unread;
use model::Event;
use named_traces::TextNames;
use sinks::{EventLine, event_line};
use std::str;

/// Whether all bytes are digits, of which there is one at least.
fn are_digits(word: &str) -> bool {
    !word.is_empty() && word.as_bytes().iter().all(|byte| byte.is_ascii_digit())
}

/// Whether all bytes are hexadecimal digits, of which there is one at least.
fn are_hexadecimal(word: &str) -> bool {
    !word.is_empty() && word.as_bytes().iter().all(|byte| byte.is_ascii_hexdigit())
}

/// The number below 2^32 that a word is: decimal, or hexadecimal after `0x`.
fn number_in(word: &str) -> Option<u32> {
    match word.strip_prefix("0x") {
        Some(digits) if are_hexadecimal(digits) => u32::from_str_radix(digits, 16).ok(),
        None if are_digits(word) => word.parse::<u32>().ok(),
        _ => None,
    }
}

/// Whether a word begins as numbers do.
fn begins_as_number(word: &str) -> bool {
    match word.as_bytes().first() {
        Some(byte) => byte.is_ascii_digit(),
        None => false,
    }
}

/// One event.
fn once<'l>(event: Event) -> Result<EventLine, Unread<'l>> {
    Ok(EventLine::Events(event, 1))
}

/// The address of a word of a device page.
fn address_of<'l>(names: &TextNames<'_>, page: &'l str, index: &'l str) -> Result<u32, Unread<'l>> {
    let Some(page) = names.device_page(page) else {
        return Err(Unread::Page(page));
    };
    match number_in(index) {
        Some(number) => page.word(number).ok_or(Unread::Index(index)),
        None => Err(Unread::Index(index)),
    }
}

/// Why a line is none of an address, of what follows its first word.
fn unread_address<'l>(line: &'l str, address: &'l str) -> Unread<'l> {
    match number_in(address) {
        Some(number) if number % 4 == 0 => Unread::NoEvent(line),
        _ if begins_as_number(address) => Unread::Address(address),
        _ => Unread::NoEvent(line),
    }
}

/// What `write PAGE INDEX WORD` says.
fn written<'l>(
    names: &TextNames<'_>,
    line: &'l str,
    rest: &'l str,
) -> Result<EventLine, Unread<'l>> {
    let Some((page, rest)) = rest.split_once(' ') else {
        return Err(Unread::NoEvent(line));
    };
    if begins_as_number(page) {
        return match number_in(page) {
            Some(number) if number % 4 == 0 => Err(Unread::Word(rest)),
            _ => Err(Unread::Address(page)),
        };
    }
    let Some((index, word)) = rest.split_once(' ') else {
        return Err(Unread::NoEvent(line));
    };
    let address = address_of(names, page, index)?;
    match number_in(word) {
        Some(word) => once(Event::Write { address, word }),
        None => Err(Unread::Word(word)),
    }
}

/// What `read PAGE INDEX` says.
fn looked_at<'l>(
    names: &TextNames<'_>,
    line: &'l str,
    rest: &'l str,
) -> Result<EventLine, Unread<'l>> {
    match rest.split_once(' ') {
        Some((page, index)) => {
            let address = address_of(names, page, index)?;
            once(Event::Read { address })
        }
        None => Err(unread_address(line, rest)),
    }
}

/// What `irq NAME` says.
fn rung<'l>(names: &TextNames<'_>, name: &'l str) -> Result<EventLine, Unread<'l>> {
    match names.interrupt(name) {
        Some(number) => once(Event::Irq(number)),
        None => Err(Unread::Interrupt(name)),
    }
}

/// What a line with names says.
fn named_line<'l>(names: &TextNames<'_>, line: &'l str) -> Result<EventLine, Unread<'l>> {
    if line.contains("  ") || line.ends_with(" ") {
        return Err(Unread::NoEvent(line));
    }
    let Some((first, rest)) = line.split_once(' ') else {
        return Err(Unread::NoEvent(line));
    };
    match first {
        "write" => written(names, line, rest),
        "read" => looked_at(names, line, rest),
        "irq" => rung(names, rest),
        "step" | "settle" => Err(Unread::Count(rest)),
        _ => Err(Unread::NoEvent(line)),
    }
}

/// What a line without its line feed says: any line of a plain list, or one with names, `write PAGE INDEX WORD`, `read PAGE INDEX` or
/// `irq NAME`.
pub(crate) fn line_by_names<'l>(
    names: &TextNames<'_>,
    line: &'l [u8],
) -> Result<EventLine, Unread<'l>> {
    match event_line(line) {
        Some(said) => Ok(said),
        None => match str::from_utf8(line) {
            Ok(line) => named_line(names, line),
            Err(_) => Err(Unread::NotText),
        },
    }
}
