//! Live runs, over lines that come in pieces.

ghost use Rattle.std.specs.Prelude.{None};

use crate::images::{bell, with_word};
use crate::running::outside::solo_with_device;
use model::{Event, Point, Refusal};
use runner::{
    EventLine, EventLines, LineFault, ListedLines, LiveFault, MemorySink, ReaderLines, RunFault,
    Sink, live, live_unverified,
};
use std::alloc::Global;
use std::io;
use std::io::Read;
use std::process::Abort;
use std::test::Fail;

/// More than any trace here has.
const ROOM: usize = 100_000;

/// The low word of bell's budget, which needs 4.
const BUDGET: usize = 256;

/// The lines of bell's trace, each by a letter. The thread waits at `c`, and line 3 wakes it once.
const LINES: &str = "
    a 8000c000 00001000 plain
    b 8000c000 00001004 plain
    c 8000c000 00001008 wait
    d 8000c000 0000100c plain
    i idle
    I irq 3
    T tick
";

/// What is put of lines of events, and how the run ends: `.` at their end, `!` where the input fails after them, and else the number of
/// the line at fault. After the second `|` are the lines, in which `/` is the end of one, `~` a carriage return and `^` the byte 0xFF.
const ROWS: &str = "
    |.|
    |.|///
    |.|# a comment ^~/#
    abc|.|step 3/
    abc|.|step 3
    abc|.|~/step 3~/~/
    abcI|.|step 3/irq 3
    abc|.|step/step 1/step 0001/
    abciiIdabciTi|.|step 5/irq 3/settle 9/tick/step/
    abci|.|settle 1000000/
    abci|.|settle 4/
    abc|.|settle 3
    abc|.|settle 2/settle 1/
    abcii|.|settle 9/settle 9~/
    |1|settle 0/
    |1|settle 1000001/
    |1|settle/step/
    |1|settle /
    |1|settle -1/
    |1|settle  4/
    a|2|step/stop/step/
    a|2|step/step 0
    ab|4|step//step/^/step/
    a|2|step/ step/
    a|2|step/step~~/
    a|2|step/irq 64/
    a|2|step/write 0x8000b000 1/step/
    a|2|step/read 0x8000b000/step/
    a|2|step/read 0x8000b002/
    |!|
    abc|!|step 3/
    abc|!|step 3/ste
    abc|!|step 3/step
    a|2|step/^/step
";

/// Gives bytes in pieces of so many at most; after the last of them there is an end, or the input fails.
#[derive(Drop)]
struct Pieces<'a> {
    rest: &'a [u8],
    most: usize,
    fails: bool,
}

impl Read for Pieces<'_> {
    fn read(&mut self, buf: &mut [u8]) -> io::Result<usize> {
        let most = self.most.min(buf.len());
        let count = self.rest.read(&mut buf[..most])?;
        if count == 0 && self.fails {
            return Err(io::Error::from(io::ErrorKind::BrokenPipe));
        }
        Ok(count)
    }
}

/// The bytes of lines.
fn bytes_of(alloc: Global, list: &str) -> Result<Vec<u8>, Fail> {
    let mut bytes = Vec::new(alloc);
    for byte in list.bytes() {
        bytes.push(match byte {
            b'/' => b'\n',
            b'~' => b'\r',
            b'^' => 0xFF,
            other => other,
        })?;
    }
    Ok(bytes)
}

/// The lines of a trace that letters name.
fn lines_of(alloc: Global, letters: &str) -> Result<String, Fail> {
    let mut lines = String::new(alloc);
    for letter in letters.chars() {
        let row = LINES
            .lines()
            .find(|row| row.trim().starts_with(letter))
            .ok_or("a letter")?;
        let (_, line) = row.trim().split_once(' ').ok_or(row)?;
        lines.push_str(line)?;
        lines.push('\n')?;
    }
    Ok(lines)
}

/// How a run is said to end, in the words of the rows.
fn end_of(alloc: Global, answer: Result<(), LiveFault>) -> Result<String, Fail> {
    Ok(match answer {
        Ok(()) => format!(in alloc; ".")?,
        Err(LiveFault::Line(line)) => format!(in alloc; "{line}")?,
        Err(LiveFault::Input) => format!(in alloc; "!")?,
        Err(fault) => format!(in alloc; "{fault}")?,
    })
}

/// Asserts what is put of lines, verified and not, and how the run ends.
fn answers(
    rt: &(impl Abort + AllocGlobal),
    image: &[u8],
    list: &[u8],
    most: usize,
    want: &str,
    end: &str,
) -> Result<(), Fail> {
    let fails = end == "!";
    for unverified in [false, true] {
        let mut sink = MemorySink::new(rt.alloc(), ROOM);
        let mut lines = ReaderLines::new(Pieces {
            rest: list,
            most,
            fails,
        });
        let answer = if unverified {
            live_unverified(rt.alloc(), image, &mut lines, &mut sink)
        } else {
            live(rt.alloc(), image, &mut lines, &mut sink)
        };
        assert_eq!(rt; sink.bytes(), want.as_bytes(), "pieces of {most}");
        assert_eq!(rt;
            end_of(rt.alloc(), answer)?.as_str(),
            end,
            "pieces of {most}"
        );
        assert_eq!(rt; sink.failures(), 0);
    }
    Ok(())
}

#[test]
fn lines_are_answered_wherever_they_are_cut(rt: HostRuntime) -> Result<(), Fail> {
    let image = bell(rt.alloc())?;
    for row in ROWS.trim().lines() {
        let (letters, rest) = row.trim_start().split_once('|').ok_or(row)?;
        let (end, list) = rest.split_once('|').ok_or(row)?;
        let want = lines_of(rt.alloc(), letters)?;
        let list = bytes_of(rt.alloc(), list)?;
        for most in 1..list.len() + 2 {
            answers(
                &rt,
                image.as_slice(),
                list.as_slice(),
                most,
                want.as_str(),
                end,
            )?;
        }
    }
    Ok(())
}

#[test]
fn a_line_has_64_bytes_at_most(rt: HostRuntime) -> Result<(), Fail> {
    let image = bell(rt.alloc())?;
    for length in [6, 63, 64, 65, 200, 5000] {
        let mut line = String::new(rt.alloc());
        line.push_str("step ")?;
        for _ in 6..length {
            line.push('0')?;
        }
        line.push('1')?;
        let (letters, end) = if length <= 64 { ("a", ".") } else { ("", "1") };
        let want = lines_of(rt.alloc(), letters)?;
        for most in [1, 7, 64, 65, 4096] {
            answers(
                &rt,
                image.as_slice(),
                line.as_bytes(),
                most,
                want.as_str(),
                end,
            )?;
        }
        line.push('\n')?;
        for most in [1, 7, 64, 65, 66, 4096] {
            answers(
                &rt,
                image.as_slice(),
                line.as_bytes(),
                most,
                want.as_str(),
                end,
            )?;
        }
    }
    Ok(())
}

#[test]
fn many_lines_are_answered(rt: HostRuntime) -> Result<(), Fail> {
    let image = bell(rt.alloc())?;
    let mut list = Vec::new(rt.alloc());
    for _ in 0..3000 {
        list.extend_from_slice(b"step\n# and\n")?;
    }
    for most in [1, 13, 4095, 4096, 50_000] {
        let mut sink = MemorySink::new(rt.alloc(), ROOM);
        let mut lines = ReaderLines::new(Pieces {
            rest: list.as_slice(),
            most,
            fails: false,
        });
        assert_eq!(rt;
            live(rt.alloc(), image.as_slice(), &mut lines, &mut sink),
            Ok(())
        );
        // three lines of instructions, and "idle" for the others
        assert_eq!(rt; sink.bytes().len(), 71 + 2997 * 5);
    }
    Ok(())
}

#[test]
fn device_pages_are_written_and_looked_at(rt: HostRuntime) -> Result<(), Fail> {
    let image = solo_with_device(rt.alloc())?;
    let list =
        b"read 0x8000b000\nwrite 0x8000b000 7\nread 0x8000b000\nwrite 0x8000bffc 0x12345678\nread 0x8000bffc\nread 0x8000c000\n";
    let want = "read 8000b000 00000000\nwrite 8000b000 00000007\nread 8000b000 00000007\n\
        write 8000bffc 12345678\nread 8000bffc 12345678\n";
    answers(&rt, image.as_slice(), list, 4096, want, "6")
}

/// Gives the same line for ever, and counts how often it was asked for one.
#[derive(Drop)]
struct Same {
    line: EventLine,
    asked: u64,
}

impl EventLines for Same {
    ghost left = { λ _. None };

    fn next_line(&mut self) -> Result<Option<EventLine>, LineFault> {
        self.asked = self.asked.saturating_add(1);
        Ok(Some(self.line))
    }
}

/// Each line of bell's trace before `wait` has 24 bytes.
#[test]
fn no_line_is_asked_for_before_the_last_is_answered(rt: HostRuntime) -> Result<(), Fail> {
    let image = bell(rt.alloc())?;
    let whole = lines_of(rt.alloc(), "abc")?;
    for (room, asked) in [(0, 1), (23, 1), (24, 2), (47, 2), (48, 3), (70, 3)] {
        let mut sink = MemorySink::new(rt.alloc(), room);
        let mut lines = Same {
            line: EventLine::Events(Event::Step, 1),
            asked: 0,
        };
        let answer = live(rt.alloc(), image.as_slice(), &mut lines, &mut sink);
        assert_eq!(rt; answer, Err(LiveFault::Output));
        assert_eq!(rt; lines.asked, asked, "room for {room}");
        assert_eq!(rt; Some(sink.bytes()), whole.as_bytes().get(..room));
        assert_eq!(rt; sink.failures(), 1);
    }
    Ok(())
}

#[test]
fn what_does_not_begin_asks_for_no_line(rt: HostRuntime) -> Result<(), Fail> {
    let mut sink = MemorySink::new(rt.alloc(), ROOM);
    let mut lines = Same {
        line: EventLine::Blank,
        asked: 0,
    };
    let small = with_word(bell(rt.alloc())?, BUDGET, 3)?;
    let answer = live(rt.alloc(), small.as_slice(), &mut lines, &mut sink);
    let refused = RunFault::Refused(Refusal::MeasureNotFalling(Point {
        thread: 0,
        point: 3,
    }));
    assert_eq!(rt; answer, Err(LiveFault::Start(refused)));
    let other = with_word(bell(rt.alloc())?, 0, 0)?;
    let answer = live_unverified(rt.alloc(), other.as_slice(), &mut lines, &mut sink);
    let refused = RunFault::Refused(Refusal::Magic);
    assert_eq!(rt; answer, Err(LiveFault::Start(refused)));
    assert_eq!(rt; lines.asked, 0);
    assert_eq!(rt; sink.bytes(), b"".as_slice());
    Ok(())
}

#[test]
fn listed_lines_are_answered_to_the_last(rt: HostRuntime) -> Result<(), Fail> {
    let image = bell(rt.alloc())?;
    let steps = EventLine::Events(Event::Step, 3);
    let outside = EventLine::Events(
        Event::Read {
            address: 0x8000_B000,
        },
        1,
    );
    let none = EventLine::Events(Event::Tick, 0);
    let listed = [
        steps,
        EventLine::Blank,
        none,
        EventLine::Settle(7),
        outside,
        steps,
    ];
    for (count, letters, end) in [
        (0, "", "."),
        (1, "abc", "."),
        (4, "abci", "."),
        (6, "abci", "5"),
    ] {
        let mut sink = MemorySink::new(rt.alloc(), ROOM);
        let mut lines = ListedLines::new(listed.get(..count).ok_or("so many")?);
        let answer = live(rt.alloc(), image.as_slice(), &mut lines, &mut sink);
        assert_eq!(rt; end_of(rt.alloc(), answer)?.as_str(), end);
        assert_eq!(rt; sink.bytes(), lines_of(rt.alloc(), letters)?.as_bytes());
    }
    Ok(())
}
