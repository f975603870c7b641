//! Lists of events as text.

use model::Event;
use runner::{EventsFault, events};
use std::alloc::Global;
use std::test::Fail;

/// What a list is read as: its events, `S`, `T` or `I` with the line of an interrupt, or the number of the first line
/// at fault. After `|` is the list, in which `/` is the end of a line, `~` a carriage return and `^` the byte 0xFF.
const ROWS: &str = "
    |
    |///
    |# a comment ^~/
    |#
    S|step
    S|step/
    S|~/step 1/~/
    ST|step~/tick~/
    SSSI7|step 0003/irq 007/
    I0I63|irq 0/irq 63
    SS|step 000000000000000000000000000000002/
    1|step 0/
    1|step 1000001/
    1|step 99999999999999999999999999/
    1|irq 64/
    1|irq/
    1|irq /
    1|step /
    1|step  1/
    1| step/
    1|step 1 /
    1|tick 1/
    1|tick /
    1|Step/
    1|step -1/
    1|step +1/
    1|step 0x1/
    1|step~
    1|step~~/
    3|tick//stop/stop/
    3|# fine/tick/irq 100
    1|~
    1| /
    2|step 1000000/tick/
    2|tick/step 1000000/
    2|step 999999/step 2/
";

/// The bytes of a list.
fn bytes_of(alloc: Global, list: &str) -> Result<Vec<u8>, Fail> {
    let mut bytes = Vec::new(alloc);
    for byte in list.bytes() {
        bytes.push(match byte {
            b'/' => b'\n',
            b'~' => b'\r',
            b'^' => 0xFF,
            other => other,
        })?;
    }
    Ok(bytes)
}

/// What a list is read as, in the words of the rows.
fn told(alloc: Global, read: Result<Vec<Event>, EventsFault>) -> Result<String, Fail> {
    let events = match read {
        Ok(events) => events,
        Err(EventsFault::Line(line)) => return Ok(format!(in alloc; "{line}")?),
        Err(_) => return Err(Fail::new("memory")),
    };
    let mut told = String::new(alloc);
    for event in &events {
        match event {
            Event::Step => told.push('S')?,
            Event::Tick => told.push('T')?,
            Event::Irq(line) => told.push_str(format!(in alloc; "I{line}")?.as_str())?,
            Event::Write { address, word } => told.push_str(format!(in alloc;
                "W{address},{word}"
            )?.as_str())?,
            Event::Read { address } => told.push_str(format!(in alloc; "R{address}")?.as_str())?,
        }
    }
    Ok(told)
}

#[test]
fn lists_are_read_up_to_the_first_line_at_fault(rt: HostRuntime) -> Result<(), Fail> {
    for row in ROWS.trim().lines() {
        let (want, list) = row.split_once('|').ok_or(row)?;
        let list = bytes_of(rt.alloc(), list)?;
        let found = told(rt.alloc(), events(rt.alloc(), list.as_slice()))?;
        assert_eq!(rt; found.as_str(), want.trim_start(), "{row}");
    }
    Ok(())
}

#[test]
fn a_million_events_are_the_most(rt: HostRuntime) -> Result<(), Fail> {
    let all = events(rt.alloc(), b"step 1000000\n")
        .ok()
        .ok_or("a million are allowed")?;
    assert_eq!(rt; all.len(), 1_000_000);
    Ok(())
}
