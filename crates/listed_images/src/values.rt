//! Numbers and names as they are in a text.

use std::alloc::AllocError;

/// The least number that is written in hexadecimal.
const HEXADECIMAL_FROM: u32 = 1024;

/// Puts a space and a number: a small one in decimal.
pub(crate) fn put_value(text: &mut String, value: u32) -> Result<(), AllocError> {
    if value < HEXADECIMAL_FROM {
        write!(text, " {value}")
    } else {
        write!(text, " {value:#x}")
    }
}

/// Puts the name of what a capability is made from, of an image with so many objects.
pub(crate) fn put_source(text: &mut String, objects: u32, source: u32) -> Result<(), AllocError> {
    match source.checked_sub(objects) {
        Some(interrupt) => write!(text, "i{interrupt}"),
        None => write!(text, "o{source}"),
    }
}

/// The word of a text for a kind of object.
pub(crate) fn kind_word(kind: u32) -> &'static str {
    match kind {
        1 => "untyped",
        2 => "tcb",
        3 => "endpoint",
        4 => "notification",
        5 => "cnode",
        6 => "frame",
        7 => "table",
        _ => "root",
    }
}
