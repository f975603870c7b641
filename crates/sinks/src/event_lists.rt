//! Lists of events as text.

ghost use Rattle.std.specs.Prelude.{◌≡◌, ◌≤◌, IfOk, length};
ghost use Rattle.sinks.specs.declared.event_lists.EventsFault.{EventsFault};

use crate::event_lines::{EventLine, event_line, without_end};
use model::Event;
use std::alloc::{AllocError, Global};

/// The most events that one list may have.
const MOST_EVENTS: usize = 1_000_000;

/// Why a list of events is refused.
#[derive(Clone, Copy, Debug, PartialEq, Eq)]
pub enum EventsFault {
    /// This line, counted from 1, is malformed, or passes the limit of events.
    Line(u64),
    /// Memory was refused.
    OutOfMemory,
}

impl From<AllocError> for EventsFault {
    ghost from_gives = { λ _ fault. fault ≡ EventsFault.OutOfMemory };

    fn from(_fault: AllocError) -> EventsFault {
        EventsFault::OutOfMemory
    }
}

/// The events of a list: lines `step`, `step N`, `tick`, `irq N`, `write ADDRESS WORD` and `read ADDRESS`, empty lines and comments.
///
/// # Errors
///
/// The first line that is none of these, or memory is refused.
pub fn events(alloc: Global, bytes: &[u8]) -> Result<Vec<Event>, EventsFault>
    ensures most { IfOk result (λ events. length events.items ≤ 1000000) }
{
    let mut events = Vec::new(alloc);
    let mut number = 0u64;
    'lines: for piece in bytes.split_inclusive(|byte| *byte == b'\n') {
        number = number.saturating_add(1);
        let (event, count) = match event_line(without_end(piece)) {
            Some(EventLine::Events(event, count)) => (event, count),
            Some(EventLine::Blank) => continue,
            Some(EventLine::Settle(_)) | None => return Err(EventsFault::Line(number)),
        };
        let before = events.len();
        if MOST_EVENTS.saturating_sub(before) < count as usize {
            return Err(EventsFault::Line(number));
        }
        events.resize(before + count as usize, event)?;
    }
    Ok(events)
}
