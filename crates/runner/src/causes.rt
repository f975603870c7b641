//! Why a file is not what is wanted, in words.

use sinks::{EventLine, event_line};
use source_words::{SourceKind, kind_of};

/// What is said of an event by its first word: its form, or which events there are.
fn form_of(line: &[u8]) -> &'static str {
    let count = line
        .iter()
        .position(|byte| *byte == b' ')
        .unwrap_or(line.len());
    match line.split_at(count).0 {
        b"step" => "the form is `step` or `step N`, with N from 1 to 1000000",
        b"tick" => "the form is `tick`, alone",
        b"irq" => "the form is `irq N`, with N from 0 to 63",
        b"write" => {
            "the form is `write ADDRESS WORD`, with a multiple of 4 and a number, below 2^32, decimal or after `0x`"
        }
        b"read" => {
            "the form is `read ADDRESS`, with a multiple of 4 below 2^32, decimal or after `0x`"
        }
        b"settle" => "`settle` is for runs over standard input",
        b"" => "no blank is before an event, and one between two words",
        _ => {
            "no event: they are `step`, `step N`, `tick`, `irq N`, `write ADDRESS WORD` and `read ADDRESS`"
        }
    }
}

/// Whether a line is a number of steps that a list may have.
fn is_well_formed(line: &[u8]) -> bool {
    matches!(event_line(line), Some(EventLine::Events(_, _)))
}

/// Why a list of events is refused at a line, counted from 1.
pub(crate) fn cause_at(list: &[u8], line: u64) -> &'static str {
    let mut number = 0u64;
    for piece in list.split(|byte| *byte == b'\n') {
        number = number.saturating_add(1);
        if number == line {
            let said = match piece {
                [said @ .., b'\r'] => said,
                said => said,
            };
            return if is_well_formed(said) {
                "more than 1000000 events"
            } else {
                form_of(said)
            };
        }
    }
    "no such line"
}

/// What a file is that is given as an image, and which word takes it.
pub(crate) fn what_else(bytes: &[u8]) -> Option<&'static str> {
    match kind_of(bytes)? {
        SourceKind::Text => Some(
            "the text of an image, and no image: `microsys build` makes one of it, and `microsys_tool explain` says whether it is accepted",
        ),
        SourceKind::Description => Some(
            "the description of a system, and no image: `microsys_tool make` makes one of it",
        ),
    }
}
