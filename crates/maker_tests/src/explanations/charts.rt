//! What is in charts of traces whose texts are there.

use crate::explanations::pictures::has_all;
use drawing::{ChartRequest, DrawingFault, LineAnswer, chart};
use sinks::MemorySink;
use std::alloc::Global;
use std::process::Abort;
use std::test::Fail;
use test_sessions::{SOLO, with_line};

/// The chart of some events of a trace.
fn drawn(
    alloc: Global,
    trace: &str,
    text: &str,
    from: Option<u64>,
    to: Option<u64>,
) -> Result<MemorySink, DrawingFault> {
    let mut sink = MemorySink::new(alloc, 100_000);
    let request = ChartRequest {
        text: Some(text),
        from,
        to,
        answers: &[],
    };
    chart(alloc, trace.as_bytes(), &request, &mut sink)?;
    Ok(sink)
}

/// None of the pieces is in what was put.
fn has_none(rt: &impl Abort, put: &[u8], pieces: &[&str]) {
    let said = std::str::from_utf8(put).unwrap_or("");
    for piece in pieces {
        let stands = said.contains(*piece);
        assert!(rt; !stands, "{piece}");
    }
}

/// The thread of [`SOLO`] waits on line 27, below its label `again`, after 4 instructions; 14 ticks are wide enough for that to be said,
/// and 6 for the line alone. Then it faults at its label `loop`, on line 21.
const TRACE: &str =
    "8000c000 00001000 plain\n8000c000 0000100c plain\n8000c000 00001010 plain\n8000c000 00001014 wait\n\
    tick\ntick\ntick\ntick\ntick\ntick\ntick\ntick\ntick\ntick\ntick\ntick\ntick\ntick\n8000c000 00001014 wait\n\
    tick\ntick\ntick\ntick\ntick\ntick\n8000c000 00001018 plain\n8000c000 00001004 fault 4\n\
    tick\ntick\ntick\ntick\ntick\ntick\ntick\ntick\ntick\ntick\ntick\ntick\ntick\ntick\n";

#[test]
fn threads_and_places_are_named(rt: HostRuntime) -> Result<(), Fail> {
    let put = drawn(rt.alloc(), TRACE, SOLO, None, None)?;
    has_all(
        &rt,
        put.bytes(),
        &[
            ">main</text>",
            ">longest 4 of 24</text>",
            ">waits at again, line 27</text>",
            ">line 27</text>",
            ">fault at loop, line 21</text>",
        ],
    );
    has_none(&rt, put.bytes(), &["8000c000", "0x1014"]);
    Ok(())
}

#[test]
fn places_of_other_files_are_told(rt: HostRuntime) -> Result<(), Fail> {
    let thread = "thread main cs 28 vs 100 auto 0 start 0x1000";
    let text = with_line(rt.alloc(), SOLO, 16, thread)?;
    let described = with_line(rt.alloc(), &text, 27, "ecall # solo.sys:9")?;
    let put = drawn(rt.alloc(), TRACE, &described, None, None)?;
    let said = [
        ">longest 4 of auto</text>",
        ">waits at again, solo.sys:9</text>",
        ">solo.sys:9</text>",
    ];
    has_all(&rt, put.bytes(), &said);
    let from_c = with_line(rt.alloc(), &text, 27, "ecall # a&b.c:9")?;
    let put = drawn(rt.alloc(), TRACE, &from_c, None, None)?;
    has_all(&rt, put.bytes(), &[">waits at a&amp;b.c:9</text>"]);
    Ok(())
}

#[test]
fn events_between_two_are_drawn(rt: HostRuntime) -> Result<(), Fail> {
    let trace =
        "8000c000 00001000 byte 51\n8000c000 00001004 byte 52\n8000c000 00001014 wait\n8000c000 00001018 byte 53\n8000c200 00001000 byte 54\n";
    let put = drawn(rt.alloc(), trace, SOLO, Some(2), Some(4))?;
    has_all(
        &rt,
        put.bytes(),
        &[
            ">2</text>",
            ">R</text>",
            ">S</text>",
            ">8000c200</text>",
            ">longest 1</text>",
        ],
    );
    has_none(&rt, put.bytes(), &[">1</text>", ">Q</text>", ">T</text>"]);
    let waits = drawn(rt.alloc(), TRACE, SOLO, Some(5), Some(18))?;
    has_all(&rt, waits.bytes(), &[">waits at again, line 27</text>"]);
    Ok(())
}

/// The world writes 215 and then 2048 at 0x80010000, and reads 7 four bytes on.
#[test]
fn words_of_device_pages_have_rows(rt: HostRuntime) -> Result<(), Fail> {
    let text = "memory 17 4\nuntyped u 0x10000 16\nobject sensor u frame 1\n";
    let trace =
        "write 80010000 000000d7\ntick\nread 80010004 00000007\nwrite 80010000 00000800\nidle\n";
    let put = drawn(rt.alloc(), trace, text, None, None)?;
    let said = [
        ">sensor 0</text>",
        ">215 to 0x800</text>",
        ">sensor 1</text>",
        ">7 to 7</text>",
        ">215</text>",
        ">0x800</text>",
        ">7</text>",
        "the world writes a word",
    ];
    has_all(&rt, put.bytes(), &said);
    let last = drawn(rt.alloc(), trace, text, Some(5), Some(5))?;
    has_all(&rt, last.bytes(), &[">sensor 0</text>", "class=\"v\""]);
    has_none(&rt, last.bytes(), &[">0x800</text>"]);
    Ok(())
}

#[test]
fn a_text_at_fault_is_told(rt: HostRuntime) -> Result<(), Fail> {
    let put = drawn(
        rt.alloc(),
        TRACE,
        "memory 16 4\nmap vs 0x1000 code 4\n",
        None,
        None,
    );
    let fault = put.err();
    assert_eq!(rt; fault, Some(DrawingFault::Malformed { line: 2 }));
    Ok(())
}

/// Two interrupts of line 3, and one of a line with which nobody deals.
const RUNG: &str =
    "8000c000 00001000 wait\nidle\nirq 3\nidle\n8000c000 00001004 plain\n8000c000 00001000 wait\nirq 5\nirq 3\nidle\n8000c000 00001004 plain\n";

/// The first is dealt with after a step of nobody and two of the thread; the second one not up to the end.
#[test]
fn bars_show_how_soon_interrupts_are_dealt_with(rt: HostRuntime) -> Result<(), Fail> {
    let answers = [LineAnswer {
        line: 3,
        thread: 0x8000_c000,
        steps: 60,
    }];
    let mut sink = MemorySink::new(rt.alloc(), 100_000);
    let request = ChartRequest {
        text: None,
        from: None,
        to: None,
        answers: &answers,
    };
    let is_drawn = chart(rt.alloc(), RUNG.as_bytes(), &request, &mut sink).is_ok();
    assert!(rt; is_drawn);
    has_all(
        &rt,
        sink.bytes(),
        &[">3 of 60</text>", "from an interrupt until its part"],
    );
    let said = std::str::from_utf8(sink.bytes()).unwrap_or("");
    assert_eq!(rt; said.matches("height=\"3\" fill=\"#8d3b70\"").count(), 3);
    Ok(())
}
