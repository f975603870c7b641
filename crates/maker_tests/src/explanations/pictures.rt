//! What is in pictures.

use drawing::{ChartRequest, DrawingFault, chart, draw};
use sinks::{MemorySink, Sink};
use std::process::Abort;

/// A client that calls a server, which has a message buffer, and a line that the server listens to; both map one frame. The client's
/// budget is still to be found.
const TEXT: &str =
    "memory 17 5\nuntyped u 0x10000 16\nobject code u frame\nobject vs u root\nobject pt u table\nobject code2 u frame\n\
    object vs2 u root\nobject pt2 u table\nobject both u frame\nobject words u frame\nobject client u tcb\nobject server u tcb\nobject cs u cnode 4\n\
    object cs2 u cnode 4\nobject ep u endpoint\nobject bell u notification\nirq line 3 bell 5\ncap cs 1 ep 9 7\ncap cs2 1 ep 2 0\n\
    cap cs2 2 bell 2 0\ncap cs2 3 line 0 0\ntable vs 0 pt\ntable vs2 0 pt2\nmap vs 0x1000 code 4\nmap vs 0x2000 both 3\n\
    map vs2 0x1000 code2 4\nmap vs2 0x3000 both 2\n\
    thread client cs 28 vs 100 auto 0 again 0x1000\nagain: jal x0 again\nend\n\
    thread server cs2 28 vs2 101 6 0 start 0x1000\nbuffer words\nstart: jal x0 start\nend\n";

/// All events, without a text.
const WHOLE: ChartRequest<'_> = ChartRequest {
    text: None,
    from: None,
    to: None,
    answers: &[],
};

/// Each piece is in what was put.
pub(crate) fn has_all(rt: &impl Abort, put: &[u8], pieces: &[&str]) {
    let said = std::str::from_utf8(put).unwrap_or("");
    for piece in pieces {
        let stands = said.contains(*piece);
        assert!(rt; stands, "{piece}");
    }
}

#[test]
fn systems_are_drawn(rt: HostRuntime) {
    let mut sink = MemorySink::new(rt.alloc(), 100_000);
    assert_eq!(rt; draw(rt.alloc(), TEXT, &mut sink), Ok(()));
    has_all(
        &rt,
        sink.bytes(),
        &[
            "digraph",
            "<B>client</B><BR/>priority 100, budget auto<BR/>",
            "<B>server</B><BR/>priority 101, budget 6<BR/>",
            ">acknowledges interrupt 3</FONT>",
            "\"client\" -> \"ep\" [label=\"call, badge 7\"",
            "\"ep\" -> \"server\" [label=\"receive\"",
            "\"line\" -> \"bell\" [label=\"signal, badge 5\"",
            "\"bell\" -> \"server\" [label=\"wait\"",
            "\"both\" -> \"client\" [label=\"0x2000 read, write\", color=\"#b0612b\", dir=both]",
            "\"words\" [shape=note",
            "\"words\" -> \"server\" [label=\"message buffer\"",
            "\"both\" -> \"server\" [label=\"0x3000 read\", color=\"#b0612b\", dir=forward]",
        ],
    );
}

#[test]
fn systems_with_programs_of_files_are_drawn(rt: HostRuntime) {
    let text =
        "memory 16 4\nuntyped u 0x8000 15\nobject code u frame\nobject vs u root\nobject pt u table\nobject main u tcb\nobject cs u cnode 4\n\
        table vs 0 pt\nmap vs 0x1000 code 4\nthread main cs 28 vs 100 auto 0 main 0x1000\nprogram main.c stack 0x3000\nend\n";
    let mut sink = MemorySink::new(rt.alloc(), 100_000);
    assert_eq!(rt; draw(rt.alloc(), text, &mut sink), Ok(()));
    has_all(
        &rt,
        sink.bytes(),
        &["<B>main</B><BR/>priority 100, budget auto<BR/>"],
    );
}

#[test]
fn device_pages_are_drawn_apart(rt: HostRuntime) {
    let text =
        "memory 16 4\nuntyped u 0x8000 15\nobject code u frame\nobject sensor u frame 1\nobject vs u root\nobject pt u table\n\
        object main u tcb\nobject cs u cnode 4\ntable vs 0 pt\nmap vs 0x1000 code 4\nmap vs 0x2000 sensor 2\n\
        thread main cs 28 vs 100 auto 0 again 0x1000\nagain: jal x0 again\nend\n";
    let mut sink = MemorySink::new(rt.alloc(), 100_000);
    assert_eq!(rt; draw(rt.alloc(), text, &mut sink), Ok(()));
    has_all(
        &rt,
        sink.bytes(),
        &[
            "\"sensor\" [shape=note",
            "device page",
            "\"sensor\" -> \"main\" [label=\"0x2000 read\"",
        ],
    );
}

#[test]
fn traces_are_drawn(rt: HostRuntime) {
    let trace =
        b"8000c000 00001000 plain\n8000c000 00001004 byte 41\n8000c000 00001008 wait\nidle\ntick\nirq 3\n\
        8000c200 00002000 error 3\n8000c000 0000100c fault 4\n";
    let mut sink = MemorySink::new(rt.alloc(), 100_000);
    assert_eq!(rt;
        chart(rt.alloc(), trace.as_slice(), &WHOLE, &mut sink),
        Ok(())
    );
    let said = std::str::from_utf8(sink.bytes()).unwrap_or("");
    let has_words = said.contains("the world writes");
    assert!(&rt; !has_words);
    has_all(
        &rt,
        sink.bytes(),
        &[
            "<svg",
            "8000c000</text>",
            "8000c200</text>",
            ">A</text>",
            ">irq 3</text>",
            ">e3</text>",
            ">f4</text>",
            "</svg>",
        ],
    );
}

#[test]
fn faults_of_pictures_are_told(rt: HostRuntime) {
    let mut sink = MemorySink::new(rt.alloc(), 100_000);
    let unknown = draw(rt.alloc(), "memory 16 4\nmap vs 0x1000 code 4\n", &mut sink);
    assert_eq!(rt; unknown, Err(DrawingFault::Malformed { line: 2 }));
    let odd = chart(
        rt.alloc(),
        b"idle\ntick\nidel\n".as_slice(),
        &WHOLE,
        &mut sink,
    );
    assert_eq!(rt; odd, Err(DrawingFault::Malformed { line: 3 }));
    assert_eq!(rt; sink.bytes().len(), 0);
    let mut small = MemorySink::new(rt.alloc(), 100);
    assert_eq!(rt;
        chart(rt.alloc(), b"idle\n".as_slice(), &WHOLE, &mut small),
        Err(DrawingFault::Output)
    );
}
