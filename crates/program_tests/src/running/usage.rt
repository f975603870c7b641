//! What the program prints for files and words.

use crate::images::{bell, with_word};
use crate::running::sessions::plays;
use runner::{MemorySink, Sink, WriterSink, command};
use std::fs;
use std::test::Fail;
use test_sessions::{name_of, put_file, take_files};

/// The low word of bell's budget, which needs 4.
const BUDGET: usize = 256;

#[test]
fn verify_says_what_it_refuses(rt: HostRuntime) -> Result<(), Fail> {
    put_file(&rt, "four.img", bell(rt.alloc())?.as_slice())?;
    let three = with_word(bell(rt.alloc())?, BUDGET, 3)?;
    put_file(&rt, "three.img", three.as_slice())?;
    let two = with_word(bell(rt.alloc())?, BUDGET, 2)?;
    put_file(&rt, "two.img", two.as_slice())?;
    plays(
        &rt,
        "
        $ microsys verify @four.img
        accepted
        status 0
        $ microsys verify @three.img
        refused 20 MeasureNotFalling 0 3
        status 1
        $ microsys verify @two.img
        refused 21 OverBudget 0 0
        status 1
        ",
    )?;
    take_files(&rt, "four.img three.img two.img")?;
    Ok(())
}

#[test]
fn run_prints_a_line_for_each_event(rt: HostRuntime) -> Result<(), Fail> {
    put_file(&rt, "run.img", bell(rt.alloc())?.as_slice())?;
    put_file(&rt, "run.events", b"step 3\nirq 3\nstep 5\nirq 3\nstep\n")?;
    put_file(&rt, "empty.events", b"")?;
    put_file(&rt, "wrong.events", b"tick\nstep\nstop\n")?;
    plays(
        &rt,
        "
        $ microsys run @run.img @run.events
        8000c000 00001000 plain
        8000c000 00001004 plain
        8000c000 00001008 wait
        irq 3
        8000c000 0000100c plain
        8000c000 00001000 plain
        8000c000 00001004 plain
        8000c000 00001008 wait
        idle
        irq 3
        idle
        status 0
        $ microsys run @run.img @empty.events
        status 0
        $ microsys run @run.img @wrong.events
        events line 3
        status 1
        @wrong.events:3: no event: they are `step`, `step N`, `tick`, `irq N`, `write ADDRESS WORD` and `read ADDRESS`
        ",
    )?;
    take_files(&rt, "run.img run.events empty.events wrong.events")?;
    Ok(())
}

#[test]
fn a_line_that_is_no_event_is_reported_with_its_cause(rt: HostRuntime) -> Result<(), Fail> {
    put_file(&rt, "caused.img", bell(rt.alloc())?.as_slice())?;
    for (line, cause) in [
        ("irq 64", "the form is `irq N`, with N from 0 to 63"),
        (
            "step 0",
            "the form is `step` or `step N`, with N from 1 to 1000000",
        ),
        ("tick 2", "the form is `tick`, alone"),
        (
            " tick",
            "no blank is before an event, and one between two words",
        ),
        (
            "read 2",
            "the form is `read ADDRESS`, with a multiple of 4 below 2^32, decimal or after `0x`",
        ),
    ] {
        let list = format!(in rt.alloc(); "# a comment\r\n{line}\r\n")?;
        put_file(&rt, "caused.events", list.as_bytes())?;
        let session = format!(in rt.alloc();
            "$ microsys run @caused.img @caused.events\nevents line 2\nstatus 1\n@caused.events:2: {cause}"
        )?;
        plays(&rt, session.as_str())?;
    }
    take_files(&rt, "caused.img caused.events")?;
    Ok(())
}

#[test]
fn what_is_no_image_is_called_by_what_it_is(rt: HostRuntime) -> Result<(), Fail> {
    put_file(&rt, "a.txt", b"# a text\nmemory 16 4\n")?;
    put_file(&rt, "a.sys", b"\n  bell b # a bell\n")?;
    plays(
        &rt,
        "
        $ microsys verify @a.txt
        refused 1 Magic 0 0
        status 1
        @a.txt: the text of an image, and no image: `microsys build` makes one of it, and `microsys_tool explain` says whether it is accepted
        $ microsys verify @a.sys
        refused 1 Magic 0 0
        status 1
        @a.sys: the description of a system, and no image: `microsys_tool make` makes one of it
        $ microsys verify /dev/null
        refused 3 Truncated 0 0
        status 1
        ",
    )?;
    take_files(&rt, "a.txt a.sys")?;
    Ok(())
}

#[test]
fn a_source_is_not_overwritten(rt: HostRuntime) -> Result<(), Fail> {
    put_file(&rt, "kept.txt", b"a text")?;
    plays(
        &rt,
        "
        $ microsys build @kept.txt @kept.txt
        status 3
        file @kept.txt: it is the source, which is not overwritten
        ",
    )?;
    assert_eq!(&rt;
        take_files(&rt, "kept.txt")?.as_slice(),
        b"a text".as_slice()
    );
    Ok(())
}

#[test]
fn files_that_cannot_be_read_are_named(rt: HostRuntime) -> Result<(), Fail> {
    plays(
        &rt,
        "
        $ microsys verify .
        status 3
        file .
        $ microsys run /dev/null no/such.events
        status 3
        file no/such.events
        $ microsys run no/such.img no/such.events
        status 3
        file no/such.img
        ",
    )
}

#[test]
fn other_words_are_usage(rt: HostRuntime) -> Result<(), Fail> {
    plays(
        &rt,
        "
        $ microsys
        status 2
        usage
        $ microsys verify
        status 2
        usage
        $ microsys run a.img
        status 2
        usage
        $ microsys build a
        status 2
        usage
        $ microsys --help
        status 2
        usage
        ",
    )
}

#[test]
fn an_output_that_takes_nothing_is_told(rt: HostRuntime) -> Result<(), Fail> {
    let image = name_of(&rt, "taken.img")?;
    let words = ["verify", image.as_str()];
    for budget in [4, 3] {
        let bytes = with_word(bell(rt.alloc())?, BUDGET, budget)?;
        fs::write(&rt, image.as_str(), bytes.as_slice())?;
        let mut output = MemorySink::new(rt.alloc(), 0);
        let mut errors = MemorySink::new(rt.alloc(), 100);
        assert_eq!(rt; command(&rt, &words, &mut output, &mut errors), 3);
        assert_eq!(rt; errors.bytes(), b"output\n".as_slice());
    }
    fs::remove_file(&rt, image.as_str())?;
    Ok(())
}

#[test]
fn errors_that_nobody_takes_are_no_other_status(rt: HostRuntime) {
    let mut output = MemorySink::new(rt.alloc(), 0);
    let mut errors = MemorySink::new(rt.alloc(), 0);
    assert_eq!(rt; command(&rt, &["what"], &mut output, &mut errors), 2);
}

#[test]
fn a_full_device_is_told(rt: HostRuntime) -> Result<(), Fail> {
    put_file(&rt, "device.img", bell(rt.alloc())?.as_slice())?;
    put_file(&rt, "device.events", b"step\n")?;
    let image = name_of(&rt, "device.img")?;
    let list = name_of(&rt, "device.events")?;
    let words = ["run", image.as_str(), list.as_str()];
    let mut output = WriterSink::new(fs::create(&rt, "/dev/full")?);
    let mut errors = MemorySink::new(rt.alloc(), 100);
    assert_eq!(rt; command(&rt, &words, &mut output, &mut errors), 3);
    assert_eq!(rt; errors.bytes(), b"output\n".as_slice());
    assert_eq!(rt; output.failures(), 1);
    take_files(&rt, "device.img device.events")?;
    Ok(())
}
