//! Where traces differ, and what is said of it.

use std::process::Abort;
use std::test::Fail;
use test_sessions::SOLO;
use trace_differences::{TraceFault, first_difference};

/// A trace of the thread of [`SOLO`], whose instructions at 0x1000 and 0x1014 are on lines 18 and 27, and of one that its text has not.
const TRACE: &str =
    "8000c000 00001000 byte 61\n8000c000 0000100c plain\n8000c200 00002000 byte 62\n8000c000 00001014 wait\nidle\n";

/// What is said of a difference is this.
fn says<R: Abort + AllocGlobal>(rt: &R, expected: &str, said: &str) {
    says_of(rt, (SOLO, TRACE), expected, said);
}

/// What is said of a difference of the trace of a text is this.
fn says_of<R: Abort + AllocGlobal>(
    rt: &R,
    (text, trace): (&str, &str),
    expected: &str,
    said: &str,
) {
    let found = first_difference(rt.alloc(), text, trace.as_bytes(), expected.as_bytes());
    match found {
        Ok(Some(found)) => assert_eq!(rt; found.as_str(), said),
        Ok(None) => assert!(rt; said.is_empty(), "no difference: {said}"),
        Err(_) => assert!(rt; false, "a fault: {expected}"),
    }
}

#[test]
fn other_events_are_told(rt: HostRuntime) {
    says(&rt, TRACE, "");
    says(
        &rt,
        "# the first\n8000c000 00001000 byte 61\n\n8000c000 00001014 wait # not so\n",
        "event 2: not as line 4 of what is expected says\n  expected 8000c000 00001014 wait: main at again, line 27\n  \
        came 8000c000 0000100c plain: main at again, line 25\n",
    );
    says(
        &rt,
        "8000c000 00001000 byte 61\n8000c000 0000100c plain\nirq 3\n",
        "event 3: not as line 3 of what is expected says\n  expected irq 3\n  came 8000c200 00002000 byte 62\n",
    );
}

/// The world writes words of the page at 0x80010000, and reads one of a page that the text has not.
#[test]
fn words_of_device_pages_are_named(rt: HostRuntime) {
    let text = "memory 17 4\nuntyped u 0x10000 16\nobject sensor u frame 1\n";
    let trace = "write 80010000 000000d7\nwrite 80010008 00000001\nread 80011000 00000000\n";
    says_of(
        &rt,
        (text, trace),
        "write 80010000 000000d7\nwrite 80010008 00000002\n",
        "event 2: not as line 2 of what is expected says\n  expected write 80010008 00000002: sensor 2\n  \
        came write 80010008 00000001: sensor 2\n",
    );
    says_of(
        &rt,
        (text, trace),
        "write 80010000 000000d7\nwrite 80010008 00000001\n",
        "event 3: nothing more is expected\n  came read 80011000 00000000\n",
    );
    says_of(&rt, (text, trace), trace, "");
}

#[test]
fn missing_and_superfluous_events_are_told(rt: HostRuntime) {
    says(
        &rt,
        "8000c000 00001000 byte 61\n8000c000 0000100c plain\n8000c200 00002000 byte 62\n8000c000 00001014 wait\n",
        "event 5: nothing more is expected\n  came idle\n",
    );
    says(
        &rt,
        "8000c000 00001000 byte 61\n8000c000 0000100c plain\n8000c200 00002000 byte 62\n8000c000 00001014 wait\nidle\n# then\ntick\n",
        "event 6: missing: line 7 of what is expected says more\n  expected tick\n",
    );
}

#[test]
fn bytes_alone_are_compared(rt: HostRuntime) {
    says(&rt, "# two bytes\n61\n62\n", "");
    says(&rt, "byte 61\n62 # the second\n", "");
    says(
        &rt,
        "6f\n62\n",
        "byte 1: not as line 1 of what is expected says\n  expected 6f\n  came 61: event 1, main at start, line 18\n",
    );
    says(
        &rt,
        "61\n",
        "byte 2: nothing more is expected\n  came 62: event 3\n",
    );
    says(
        &rt,
        "61 62\n\n63\n",
        "byte 3: missing: line 3 of what is expected says more\n  expected 63\n",
    );
}

#[test]
fn lines_at_fault_are_told(rt: HostRuntime) -> Result<(), Fail> {
    let alloc = rt.alloc();
    let refused = first_difference(alloc, SOLO, b"refused 18 RangeNotKept 0 0\n", b"61\n").err();
    assert_eq!(rt; refused, Some(TraceFault::Trace { line: 1 }));
    let odd = first_difference(alloc, SOLO, TRACE.as_bytes(), b"61\n# so\nidle\n").err();
    assert_eq!(rt; odd, Some(TraceFault::Expected { line: 3 }));
    let text = first_difference(alloc, "memory 16 4\nend\n", TRACE.as_bytes(), b"61\n").err();
    assert_eq!(rt; text, Some(TraceFault::Text { line: 2 }));
    Ok(())
}
