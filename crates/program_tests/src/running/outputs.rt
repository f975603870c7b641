//! Sinks that take little.

ghost use Rattle.std.specs.Prelude.{Some, []};

use crate::images::bell;
use model::Event;
use runner::{MemorySink, RunFault, Sink, SinkFault, events, put_all, run, run_unverified};
use std::process::Abort;
use std::test::Fail;

/// Asserts what a run of the sample puts into a sink with so much room, and whether the sink failed.
fn puts(
    rt: &(impl Abort + AllocGlobal),
    events: &[Event],
    room: usize,
    want: &[u8],
    fails: bool,
) -> Result<(), Fail> {
    let image = bell(rt.alloc())?;
    let mut sink = MemorySink::new(rt.alloc(), room);
    let answer = run(rt.alloc(), image.as_slice(), events, &mut sink);
    let fault = if fails { Some(RunFault::Output) } else { None };
    assert_eq!(rt; answer.err(), fault);
    assert_eq!(rt; sink.bytes(), want);
    assert_eq!(rt; sink.failures(), u64::from(fails));
    Ok(())
}

#[test]
fn an_output_that_fails_holds_a_beginning(rt: HostRuntime) -> Result<(), Fail> {
    let events = [Event::Step; 3];
    let whole = b"8000c000 00001000 plain\n8000c000 00001004 plain\n8000c000 00001008 wait\n";
    puts(&rt, &events, 71, whole, false)?;
    for room in [70, 30, 24, 0] {
        let beginning = whole.get(..room).ok_or("the room is within")?;
        puts(&rt, &events, room, beginning, true)?;
    }
    Ok(())
}

/// A sink that answers of each piece that it took 0 bytes of it, and has failed so many times before.
#[derive(Drop)]
struct Full {
    failures: u64,
}

impl Sink for Full {
    ghost contents = { λ _. Some [] };

    ghost failures = { λ sink. sink.failures };

    fn put(&mut self, piece: &[u8]) -> Result<usize, SinkFault> {
        if !piece.is_empty() {
            self.failures = self.failures.saturating_add(1);
        }
        Ok(0)
    }

    fn failures(&self) -> u64 {
        self.failures
    }
}

#[test]
fn an_output_that_takes_no_byte_is_told_and_counted(rt: HostRuntime) -> Result<(), Fail> {
    let image = bell(rt.alloc())?;
    let events = [Event::Step; 3];
    for (before, behind) in [(0, 1), (u64::MAX - 1, u64::MAX), (u64::MAX, u64::MAX)] {
        let mut sink = Full { failures: before };
        let answer = run(rt.alloc(), image.as_slice(), &events, &mut sink);
        assert_eq!(rt; answer, Err(RunFault::Output));
        assert_eq!(rt; sink.failures(), behind);
    }
    let mut sink = Full { failures: 0 };
    let answer = run_unverified(rt.alloc(), image.as_slice(), &events, &mut sink);
    assert_eq!(rt; answer, Err(RunFault::Output));
    assert_eq!(rt; sink.failures(), 1);
    Ok(())
}

#[test]
fn nothing_is_no_failure(rt: HostRuntime) -> Result<(), Fail> {
    let mut sink = Full { failures: 0 };
    assert_eq!(rt; put_all(&mut sink, b""), Ok(()));
    let image = bell(rt.alloc())?;
    assert_eq!(rt; run(rt.alloc(), image.as_slice(), &[], &mut sink), Ok(()));
    assert_eq!(rt; sink.failures(), 0);
    Ok(())
}

#[test]
fn ticks_and_other_lines_leave_the_thread_as_it_is(rt: HostRuntime) -> Result<(), Fail> {
    let events = [Event::Irq(4), Event::Tick, Event::Irq(200), Event::Step];
    let lines = b"irq 4\ntick\nirq 200\n8000c000 00001000 plain\n";
    puts(&rt, &events, 1000, lines, false)
}

#[test]
fn a_signal_before_the_wait_is_taken_at_once(rt: HostRuntime) -> Result<(), Fail> {
    let step = Event::Step;
    let events = [Event::Irq(3), step, step, step, step];
    let lines = b"irq 3\n8000c000 00001000 plain\n8000c000 00001004 plain\n\
        8000c000 00001008 wait\n8000c000 0000100c plain\n";
    puts(&rt, &events, 1000, lines, false)
}

#[test]
fn a_trace_of_many_pieces_is_whole(rt: HostRuntime) -> Result<(), Fail> {
    let image = bell(rt.alloc())?;
    let list = events(rt.alloc(), b"step 10000\n").ok().ok_or("a list")?;
    let mut sink = MemorySink::new(rt.alloc(), 60_000);
    let answer = run(rt.alloc(), image.as_slice(), list.as_slice(), &mut sink);
    assert_eq!(rt; answer, Ok(()));
    // three lines of instructions, and "idle" for the others
    assert_eq!(rt; sink.bytes().len(), 71 + 9997 * 5);
    Ok(())
}
