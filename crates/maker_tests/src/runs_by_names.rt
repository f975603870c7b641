//! Runs by the names of a system: events whose words are names, and the lines of a trace with names.

use model::Event;
use named_runs::{ListFault, NameSink, NamedLines, PartBytes, Printers, named_events};
use named_traces::TextNames;
use progress::Quiet;
use sinks::{EventLine, EventLines, LineFault, MemorySink, put_all};
use std::process::Abort;
use std::rt::{Env, Files};
use std::test::Fail;
use std::time::Clock;
use test_sessions::{Printed, put_file, take_files, words_of};
use tool::{NotRun, command, live_by_names, made};

/// More than any answer here has.
const ROOM: usize = 50_000;

/// At each interrupt the thread copies the first word of one page to the second word of the other, and acknowledges. Objects lie one
/// after another: the pages at 0x80011000 and 0x80012000, and after a root table and a page table the TCB at 0x80015000.
const SYSTEM: &str = "memory 17 4
untyped u 0x10000 16
object code u frame
object sensor u frame 1
object heater u frame 1
object vs u root
object pt u table
object main u tcb
object cs u cnode 4
object bell u notification
irq beat 7 bell 1
cap cs 1 bell 2 0
cap cs 2 beat 0 0
table vs 0 pt
map vs 0x1000 code 4
map vs 0x2000 sensor 2
map vs 0x3000 heater 3
thread main cs 28 vs 100 auto 0 again 0x1000
again: addi x10 x0 1
addi x17 x0 5
ecall
lui x6 2
lw x5 0(x6)
lui x7 3
sw x5 4(x7)
addi x10 x0 2
lui x11 18
addi x17 x0 3
ecall
jal x0 again
end
";

/// The thread waits; the world writes 215 and rings; the thread copies the word, and waits again.
const EVENTS: &str = "step 3\nwrite sensor 0 215\nirq beat\nstep 12\nread heater 1\nstep\n";

/// The same without names.
const PLAIN_EVENTS: &str = "step 3\nwrite 0x80011000 215\nirq 7\nstep 12\nread 0x80012004\nstep\n";

/// What is put: the thread's lines are 19 to 30, and its wait is the third.
const TRACE: &str = "main 00001000 plain # again, line 19
main 00001004 plain # again, line 20
main 00001008 wait # again, line 21
write sensor 0 000000d7
irq beat
main 0000100c plain # again, line 22
main 00001010 plain # again, line 23
main 00001014 plain # again, line 24
main 00001018 plain # again, line 25
main 0000101c plain # again, line 26
main 00001020 plain # again, line 27
main 00001024 plain # again, line 28
main 00001028 ok # again, line 29
main 0000102c plain # again, line 30
main 00001000 plain # again, line 19
main 00001004 plain # again, line 20
main 00001008 wait # again, line 21
read heater 1 000000d7
idle
";

/// The same without names.
const PLAIN_TRACE: &str = "80015000 00001000 plain
80015000 00001004 plain
80015000 00001008 wait
write 80011000 000000d7
irq 7
80015000 0000100c plain
80015000 00001010 plain
80015000 00001014 plain
80015000 00001018 plain
80015000 0000101c plain
80015000 00001020 plain
80015000 00001024 plain
80015000 00001028 ok
80015000 0000102c plain
80015000 00001000 plain
80015000 00001004 plain
80015000 00001008 wait
read 80012004 000000d7
idle
";

/// What the program answers to words, in which `@` begins the name of a file: its output, `status` with its status, and its errors.
fn answer_to<R: Files + Input + Env + Clock + AllocGlobal>(
    rt: &R,
    words: &str,
) -> Result<String, Fail> {
    let words = words_of(rt, words)?;
    let mut printed = Printed::new(rt.alloc(), ROOM);
    let status = command(
        rt,
        words.as_slice(),
        &mut printed.output,
        &mut printed.errors,
    );
    printed.with_status(rt.alloc(), status)
}

/// Asserts that the program answers so.
fn answers<R: Files + Input + Env + Clock + AllocGlobal + Abort>(
    rt: &R,
    words: &str,
    output: &str,
    rest: &str,
) -> Result<(), Fail> {
    let want = format!(in rt.alloc(); "{output}{rest}")?;
    assert_eq!(rt; answer_to(rt, words)?.as_str(), want.as_str(), "{words}");
    Ok(())
}

#[test]
fn events_and_traces_have_names(rt: HostRuntime) -> Result<(), Fail> {
    put_file(&rt, "named.txt", SYSTEM.as_bytes())?;
    put_file(&rt, "named.events", EVENTS.as_bytes())?;
    put_file(&rt, "plain.events", PLAIN_EVENTS.as_bytes())?;
    let done = "status 0\n";
    answers(&rt, "run @named.txt @named.events", TRACE, done)?;
    answers(&rt, "run @named.txt @plain.events", TRACE, done)?;
    answers(
        &rt,
        "run @named.txt @named.events --plain",
        PLAIN_TRACE,
        done,
    )?;
    put_file(&rt, "named.trace", TRACE.as_bytes())?;
    put_file(&rt, "plain.trace", PLAIN_TRACE.as_bytes())?;
    for words in [
        "test @named.txt @named.events @named.trace",
        "test @named.txt @named.events @plain.trace",
        "test @named.txt @plain.events @named.trace",
    ] {
        answers(&rt, words, "as expected\n", done)?;
    }
    let named = answer_to(&rt, "chart @named.trace @named.txt")?;
    let plain = answer_to(&rt, "chart @plain.trace @named.txt")?;
    assert_eq!(&rt; named.as_str(), plain.as_str());
    assert!(&rt; named.contains(">heater 1</text>"), "{named}");
    take_files(
        &rt,
        "named.txt named.events plain.events named.trace plain.trace",
    )?;
    Ok(())
}

/// In the text of an image the second object is `o1`, and the interrupt `i0`.
#[test]
fn images_have_the_names_of_their_texts(rt: HostRuntime) -> Result<(), Fail> {
    put_file(&rt, "listed.txt", SYSTEM.as_bytes())?;
    put_file(&rt, "listed.events", b"write o1 0 215\nirq i0\nread o2 1\n")?;
    answers(
        &rt,
        "make @listed.txt @listed.img",
        "main budget 12\n",
        "status 0\n",
    )?;
    answers(
        &rt,
        "run @listed.img @listed.events",
        "write o1 0 000000d7\nirq i0\nread o2 1 00000000\n",
        "status 0\n",
    )?;
    take_files(&rt, "listed.txt listed.events listed.img")?;
    Ok(())
}

/// Bell `tick` has one interrupt, and `both` has two.
#[test]
fn interrupts_of_descriptions_have_the_names_of_bells(rt: HostRuntime) -> Result<(), Fail> {
    let system =
        "bell tick\nbell both\npart p 1\nwaits tick line 7\nwaits both line 8 line 9\ncode\nagain: addi x10 x0 tick\n\
        addi x17 x0 5\necall\njal x0 again\nend\n";
    put_file(&rt, "bells.sys", system.as_bytes())?;
    put_file(
        &rt,
        "bells.events",
        b"irq tick\nirq tick_line7\nirq both_line9\nirq 8\nirq 10\n",
    )?;
    answers(
        &rt,
        "run @bells.sys @bells.events",
        "irq tick\nirq tick\nirq both_line9\nirq both_line8\nirq 10\n",
        "status 0\n",
    )?;
    put_file(&rt, "both.events", b"irq both\n")?;
    let told = answer_to(&rt, "run @bells.sys @both.events")?;
    assert!(&rt; told.starts_with("events line 1\nstatus 1\n"), "{told}");
    assert!(&rt;
        told.ends_with(
            "both.events:1: `both` is no interrupt line: a number from 0 to 63, or one of tick, both_line8, both_line9\n"
        ),
        "{told}"
    );
    take_files(&rt, "bells.sys bells.events both.events")?;
    Ok(())
}

/// The first line of a list that is refused is this, for this reason.
fn refuses<R: Abort + AllocGlobal>(
    rt: &R,
    names: &TextNames<'_>,
    list: &str,
    number: u64,
    reason: &str,
) {
    match named_events(rt.alloc(), names, list.as_bytes()) {
        Err(ListFault::Line { line, why }) => {
            assert_eq!(rt; line, number, "{list}");
            assert_eq!(rt; why.as_str(), reason, "{list}");
        }
        Err(ListFault::OutOfMemory) | Ok(_) => assert!(rt; false, "{list}"),
    }
}

#[test]
fn lines_at_fault_are_explained(rt: HostRuntime) -> Result<(), Fail> {
    let names = TextNames::read(rt.alloc(), SYSTEM)?;
    let word = "no word: a number from 0 to 4294967295, decimal or after `0x`";
    let address = "no address of a word: a multiple of 4 below 4294967296, decimal or after `0x`";
    let event =
        "no event: `step [N]`, `tick`, `irq LINE`, `write PAGE INDEX WORD` or `write ADDRESS WORD`, `read PAGE INDEX` or `read ADDRESS`, with one blank \
         between words";
    for (line, why) in [
        (
            "write sensr 0 1",
            "`sensr` is no device page: there are sensor, heater",
        ),
        (
            "write code 0 1",
            "`code` is no device page: there are sensor, heater",
        ),
        (
            "read heater 1024",
            "`1024` is no word of a page: a number from 0 to 1023",
        ),
        (
            "read heater -1",
            "`-1` is no word of a page: a number from 0 to 1023",
        ),
        (
            "irq bet",
            "`bet` is no interrupt line: a number from 0 to 63, or one of beat",
        ),
        (
            "irq 64",
            "`64` is no interrupt line: a number from 0 to 63, or one of beat",
        ),
        ("step 0", "`0` is no number of steps: 1 to 1000000"),
        ("settle 5", "`settle` is for live runs alone"),
    ] {
        let list = format!(in rt.alloc(); "tick\n{line}\n")?;
        refuses(&rt, &names, &list, 2, why);
    }
    for (line, at, wanted) in [
        ("write sensor 0 4294967296", "4294967296", word),
        ("write sensor 0 0xg", "0xg", word),
        ("write 0x80011000 +1", "+1", word),
        ("write 0x80011002 1", "0x80011002", address),
        ("read 4294967296", "4294967296", address),
        ("write sensor 1", "write sensor 1", event),
        ("read sensor", "read sensor", event),
        ("wait", "wait", event),
        ("write  sensor 0 1", "write  sensor 0 1", event),
    ] {
        let list = format!(in rt.alloc(); "\n{line}\n")?;
        let why = format!(in rt.alloc(); "`{at}` is {wanted}")?;
        refuses(&rt, &names, &list, 2, &why);
    }
    refuses(
        &rt,
        &names,
        "step 1000000\n# more\ntick\n",
        3,
        "more than 1000000 events",
    );
    Ok(())
}

#[test]
fn lines_come_one_after_another(rt: HostRuntime) -> Result<(), Fail> {
    let names = TextNames::read(rt.alloc(), SYSTEM)?;
    let input: &[u8] =
        b"settle 9\r\n# so\nwrite heater 0x3ff 0xffffffff\nirq beat\nread sensor 1024\nirq bell";
    let mut lines = NamedLines::new(rt.alloc(), &names, input);
    for said in [
        EventLine::Settle(9),
        EventLine::Blank,
        EventLine::Events(
            Event::Write {
                address: 0x8001_2FFC,
                word: 0xFFFF_FFFF,
            },
            1,
        ),
        EventLine::Events(Event::Irq(7), 1),
    ] {
        assert_eq!(&rt; lines.next_line(), Ok(Some(said)));
        assert_eq!(&rt; lines.why(), None);
    }
    assert_eq!(&rt; lines.next_line(), Err(LineFault::Malformed));
    assert_eq!(&rt;
        lines.why(),
        Some("`1024` is no word of a page: a number from 0 to 1023")
    );
    assert_eq!(&rt;
        lines.next_line(),
        Ok(Some(EventLine::Events(Event::Irq(7), 1)))
    );
    assert_eq!(&rt; lines.next_line(), Ok(None));
    Ok(())
}

/// Puts pieces of a trace with names.
fn put_named<R: Abort + AllocGlobal>(
    rt: &R,
    names: &TextNames<'_>,
    pieces: &[&str],
    output: &mut MemorySink,
) {
    let mut sink = NameSink::new(rt.alloc(), names, output);
    for piece in pieces {
        assert_eq!(rt; put_all(&mut sink, piece.as_bytes()), Ok(()));
    }
}

#[test]
fn pieces_of_any_size_get_names(rt: HostRuntime) -> Result<(), Fail> {
    let names = TextNames::read(rt.alloc(), SYSTEM)?;
    let mut output = MemorySink::new(rt.alloc(), ROOM);
    put_named(
        &rt,
        &names,
        &[
            "8001500",
            "0 00001008 wa",
            "it\ni",
            "rq 7\nirq 8\nwrite 80011004 0000002a\nread 80013000 00000000\n",
            "80016000 00001000 fault 3\nrefused 18 RangeNotKept 0 0\nid",
            "le\n",
        ],
        &mut output,
    );
    assert_eq!(&rt;
        std::str::from_utf8(output.bytes())?,
        "main 00001008 wait # again, line 21\nirq beat\nirq 8\nwrite sensor 1 0000002a\nread 80013000 00000000\n\
        80016000 00001000 fault 3\nrefused 18 RangeNotKept 0 0\nidle\n"
    );
    Ok(())
}

/// A trace in which the thread and one without a name print, in pieces.
const PRINTING: [&str; 3] = [
    "80015000 00001000 byte 41\n80015000 00001004 plain\n80015000 00001000 by",
    "te 42\n80016000 00001000 byte 43\nirq 7\n",
    "80015000 00001000 byte 44\n80015000 00001000 byte 0a\n80015000 00001000 byte 45\nrefused 1 BadMagic 0 0\n",
];

/// What is handed on of it.
fn printed_by<R: Abort + AllocGlobal>(
    rt: &R,
    printers: Printers,
    output: &mut MemorySink,
) -> Result<(), Fail> {
    let names = TextNames::read(rt.alloc(), SYSTEM)?;
    let mut sink = PartBytes::new(rt.alloc(), &names, printers, output);
    for piece in PRINTING {
        assert_eq!(rt; put_all(&mut sink, piece.as_bytes()), Ok(()));
    }
    Ok(())
}

#[test]
fn bytes_come_by_part(rt: HostRuntime) -> Result<(), Fail> {
    let mut one = MemorySink::new(rt.alloc(), ROOM);
    printed_by(&rt, Printers::One(0x8001_5000), &mut one)?;
    assert_eq!(&rt; std::str::from_utf8(one.bytes())?, "ABD\nE");
    let mut each = MemorySink::new(rt.alloc(), ROOM);
    printed_by(&rt, Printers::Each, &mut each)?;
    assert_eq!(&rt;
        std::str::from_utf8(each.bytes())?,
        "main: AB\n?: C\nmain: D\nmain: E"
    );
    Ok(())
}

/// The lines of a live run: those of a whole run to where the thread waits, and then an address that is no device page's.
const LIVE: &str =
    "settle 20\n\nwrite sensor 0 215\nirq beat\nsettle 20\nread heater 1\nwrite 0x80010000 1\ntick\n";

/// What a live run puts: a wait that is over is answered by `idle`.
const LIVE_TRACE: &str = "80015000 00001000 plain
80015000 00001004 plain
80015000 00001008 wait
idle
write 80011000 000000d7
irq 7
80015000 0000100c plain
80015000 00001010 plain
80015000 00001014 plain
80015000 00001018 plain
80015000 0000101c plain
80015000 00001020 plain
80015000 00001024 plain
80015000 00001028 ok
80015000 0000102c plain
80015000 00001000 plain
80015000 00001004 plain
80015000 00001008 wait
idle
read 80012004 000000d7
";

#[test]
fn a_live_run_ends_at_the_first_line_that_is_refused(rt: HostRuntime) -> Result<(), Fail> {
    let names = TextNames::read(rt.alloc(), SYSTEM)?;
    let Ok(made) = made(rt.alloc(), SYSTEM, &mut Quiet) else {
        assert!(&rt; false, "the system is accepted");
        return Ok(());
    };
    let mut output = MemorySink::new(rt.alloc(), ROOM);
    let ended = live_by_names(
        rt.alloc(),
        made.image.as_slice(),
        &names,
        LIVE.as_bytes(),
        &mut output,
    );
    assert!(&rt; matches!(ended, Err(NotRun::Line { line: 7, why: None })));
    assert_eq!(&rt; std::str::from_utf8(output.bytes())?, LIVE_TRACE);
    Ok(())
}
