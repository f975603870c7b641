//! Exit statuses, and lines of why a request was not carried out.

use sinks::{Sink, put_all};
use std::alloc::AllocError;

/// The exit status of a request that was carried out.
pub const DONE: u8 = 0;
/// .. that was refused, with the reason on standard output.
pub const REFUSED: u8 = 1;
/// .. that the words do not make.
pub const USAGE: u8 = 2;
/// .. that failed for a file, the output or memory, with the reason on standard error.
const FAILED: u8 = 3;

/// Puts the line of words that make no request on standard error, and answers the exit status.
pub fn wrong_words<E: Sink>(errors: &mut E) -> u8 {
    let _ = put_all(errors, b"usage\n");
    USAGE
}

/// Puts the line of a failure on standard error, with the name of a file if it is for one, and answers the exit status.
pub fn failed<E: Sink>(errors: &mut E, text: &[u8], name: &[u8]) -> u8 {
    for piece in [text, name, b"\n"] {
        if put_all(errors, piece).is_err() {
            return FAILED;
        }
    }
    FAILED
}

/// Puts the line of a refusal on standard output, and answers the exit status. Without the memory for it, or where the output takes no
/// more, the request failed.
pub fn refused<W: Sink, E: Sink>(
    line: Result<String, AllocError>,
    output: &mut W,
    errors: &mut E,
) -> u8 {
    match line {
        Ok(line) => match put_all(output, line.as_bytes()) {
            Ok(()) => REFUSED,
            Err(_) => failed(errors, b"output", b""),
        },
        Err(_) => failed(errors, b"memory", b""),
    }
}
