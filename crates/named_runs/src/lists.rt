//! Lists of events whose words may be names.

ghost use Rattle.std.specs.Prelude.{◌≤◌, ◌+◌, IfOk, IfSome, length};

use crate::line_faults::Unread;
use crate::reading::line_by_names;
use model::Event;
use named_traces::TextNames;
use sinks::EventLine;
use std::alloc::{AllocError, Global};
use trace_lines::without_end;

/// The most events that one list may have.
const MOST_EVENTS: usize = 1_000_000;

/// Why a list of events is refused.
#[derive(Drop)]
pub enum ListFault {
    /// This line, counted from 1, has no event, or passes the limit of events, for this reason.
    Line { line: u64, why: String },
    /// Memory was refused.
    OutOfMemory,
}

impl From<AllocError> for ListFault {
    fn from(_refused: AllocError) -> ListFault {
        ListFault::OutOfMemory
    }
}

/// Why a line is refused.
fn fault_on(alloc: Global, names: &TextNames<'_>, line: u64, unread: Unread<'_>) -> ListFault {
    let mut why = String::new(alloc);
    match unread.push(&mut why, names) {
        Ok(()) => ListFault::Line { line, why },
        Err(_) => ListFault::OutOfMemory,
    }
}

/// The events of a line of a list that has so many already.
fn events_on<'l>(
    names: &TextNames<'_>,
    line: &'l [u8],
    before: usize,
) -> Result<Option<(Event, u32)>, Unread<'l>>
    ensures room { IfOk result (λ found. IfSome found (λ events. before ≤ 1000000 → before + events.1 ≤ 1000000)) }
{
    match line_by_names(names, line)? {
        EventLine::Blank => Ok(None),
        EventLine::Settle(_) => Err(Unread::Settle),
        EventLine::Events(event, count) => {
            if MOST_EVENTS.saturating_sub(before) < count as usize {
                Err(Unread::TooMany)
            } else {
                Ok(Some((event, count)))
            }
        }
    }
}

/// The events of a list: lines of a plain list, and with the names of a text `write PAGE INDEX WORD`, `read PAGE INDEX` and `irq NAME`.
///
/// # Errors
///
/// The first line that is none of these, with the reason in words, or memory is refused.
pub fn named_events(
    alloc: Global,
    names: &TextNames<'_>,
    bytes: &[u8],
) -> Result<Vec<Event>, ListFault>
    ensures most { IfOk result (λ events. length events.items ≤ 1000000) }
{
    let mut events = Vec::new(alloc);
    let mut number = 0u64;
    'lines: for piece in bytes.split_inclusive(|byte| *byte == b'\n') {
        number = number.saturating_add(1);
        let before = events.len();
        let (event, count) = match events_on(names, without_end(piece), before) {
            Ok(Some(found)) => found,
            Ok(None) => continue,
            Err(unread) => return Err(fault_on(alloc, names, number, unread)),
        };
        events.resize(before + count as usize, event)?;
    }
    Ok(events)
}
