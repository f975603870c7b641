//! The bytes of a trace, alone.

use byte_lines::ByteSink;
use sinks::{MemorySink, Sink, SinkFault, put_all};
use std::process::Abort;

/// After these pieces the first line that is none of a trace is this.
fn puts_into<R: Abort + AllocGlobal>(rt: &R, output: &mut MemorySink, pieces: &[&str], rest: &str) {
    let mut sink = ByteSink::new(rt.alloc(), output);
    for piece in pieces {
        assert_eq!(rt; put_all(&mut sink, piece.as_bytes()), Ok(()));
    }
    assert_eq!(rt; sink.rest(), rest);
}

/// After these pieces the bytes are these, and the first line that is none of a trace is this.
fn puts<R: Abort + AllocGlobal>(rt: &R, pieces: &[&str], bytes: &[u8], rest: &str) {
    let mut output = MemorySink::new(rt.alloc(), 100);
    puts_into(rt, &mut output, pieces, rest);
    assert_eq!(rt; output.bytes(), bytes);
}

#[test]
fn bytes_are_put_alone(rt: HostRuntime) {
    let trace =
        "8000c000 00001000 byte 48\nidle\n8000c000 00001004 plain\n8000c000 00001008 byte 0a\n8000c000 0000100c error 3\n\
        write 80014000 0000002a\nread 80014004 00000000\n";
    puts(&rt, &[trace], b"H\n", "");
    puts(
        &rt,
        &[
            "8000c000 0000",
            "1000 byte 4",
            "8\r\ntick\n",
            "irq 3\n8000c000 00001000 byte ff",
            "\n",
        ],
        b"H\xff",
        "",
    );
}

#[test]
fn other_lines_are_kept(rt: HostRuntime) {
    puts(
        &rt,
        &[
            "\nrefused 18 RangeNotKept 0 0\n",
            "idle\nevents line 3\n8000c000 00001000 byte 48\n",
        ],
        b"H",
        "refused 18 RangeNotKept 0 0",
    );
    puts(&rt, &["write 80014000 2a\n"], b"", "write 80014000 2a");
    puts(&rt, &["read 80014000\n"], b"", "read 80014000");
    puts(&rt, &["boot error 2", " 10"], b"", "boot error 2 10");
}

#[test]
fn a_sink_that_is_full_is_told(rt: HostRuntime) {
    let mut output = MemorySink::new(rt.alloc(), 1);
    let mut sink = ByteSink::new(rt.alloc(), &mut output);
    assert_eq!(rt; put_all(&mut sink, b"8000c000 00001000 byte 48\n"), Ok(()));
    assert_eq!(rt; sink.failures(), 0);
    assert_eq!(rt;
        put_all(&mut sink, b"8000c000 00001000 byte 49\n"),
        Err(SinkFault)
    );
    assert_eq!(rt; sink.failures(), 1);
}
