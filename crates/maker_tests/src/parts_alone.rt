//! What the program for makers says of the parts of a system, and some parts as a system of their own.

use crate::commands::{answer_to, answers};
use std::process::Abort;
use std::rt::{Env, Files};
use std::test::Fail;
use std::time::Clock;
use test_sessions::{put_file, take_files};

/// A part counts and rings, and another waits and reads the count: the first takes nothing from the second.
const SYSTEM: &str = "page readings
bell clock
bell news
part meter 101
waits clock line 3
rings news
writes readings 0x2000
code
again: addi x10 x0 clock
addi x17 x0 5
ecall
addi x5 x5 1
lui x6 readings
sb x5 0(x6)
addi x10 x0 news
addi x17 x0 3
ecall
addi x10 x0 clock.line3
lui x11 18
addi x17 x0 1
ecall
jal x0 again
end
part log 100
waits news
sees readings 0x2000
code
again: addi x10 x0 news
addi x17 x0 5
ecall
lui x6 readings
lbu x10 0(x6)
addi x10 x10 48
addi x17 x0 9
ecall
jal x0 again
end
";

/// Two parts wait for one bell.
const WAITERS: &str = "bell r
part a 1
waits r
code
again: addi x10 x0 r
addi x17 x0 5
ecall
jal x0 again
end
part b 1
waits r
code
again: addi x10 x0 r
addi x17 x0 5
ecall
jal x0 again
end
";

/// The lines of what each part takes, by the capabilities and mappings that the description asks for.
const BY_READINGS: &str =
    "meter -> log by readings: meter writes it at 0x2000; log reads it at 0x2000\n";

const BY_NEWS: &str =
    "meter -> log by news: meter rings it by slot 3 of meter_slots; log waits for it by slot 1 of log_slots\n";

const METER: &str =
    "meter takes nothing from the others: no other part may change what it reads, receives or waits for; its priorities are above theirs\n";

const LOG: &str = "log takes what others may change: meter\n";

const ALL_EVENTS: &str = "as in the whole, over all events\n";

/// What is in a file before the program may write it.
const OLDER: &[u8] = b"an older file";

/// Asserts that words are refused so, and that the file that they name last is as it was.
fn leaves_the_file<R: Files + Input + Env + Clock + AllocGlobal + Abort>(
    rt: &R,
    words: &str,
    want: &str,
) -> Result<(), Fail> {
    put_file(rt, "kept", OLDER)?;
    answers(rt, words, want)?;
    assert_eq!(rt; take_files(rt, "kept")?.as_slice(), OLDER, "{words}");
    Ok(())
}

#[test]
fn parts_are_said_by_what_they_take(rt: HostRuntime) -> Result<(), Fail> {
    put_file(&rt, "parts.sys", SYSTEM.as_bytes())?;
    let want = format!(in rt.alloc(); "{BY_READINGS}{BY_NEWS}{METER}{LOG}status 0\n")?;
    answers(&rt, "parts @parts.sys", want.as_str())?;
    let said = answer_to(&rt, "make @parts.sys @parts.img")?;
    let want = format!(in rt.alloc(); "{METER}{LOG}status 0\n")?;
    assert!(&rt;
        said.starts_with("meter budget 14\nlog budget 9\n"),
        "{said}"
    );
    assert!(&rt; said.ends_with(want.as_str()), "{said}");
    take_files(&rt, "parts.sys parts.img")?;
    Ok(())
}

#[test]
fn parts_that_wait_for_one_bell_take_from_each_other(rt: HostRuntime) -> Result<(), Fail> {
    put_file(&rt, "waiters.sys", WAITERS.as_bytes())?;
    let want =
        "a <-> b by r: a waits for it by slot 1 of a_slots; b waits for it by slot 1 of b_slots\none group: a, b\nstatus 0\n";
    answers(&rt, "parts @waiters.sys", want)?;
    for words in [
        "expand @waiters.sys @waiters.txt",
        "make @waiters.sys @waiters.img",
    ] {
        let said = answer_to(&rt, words)?;
        assert!(&rt;
            said.contains(":1: note: a <-> b by r: each takes signals from the others\n"),
            "{said}"
        );
    }
    take_files(&rt, "waiters.sys waiters.txt waiters.img")?;
    Ok(())
}

/// Asserts that a part of the system is written so that it is accepted, and that this is said of it.
fn is_written<R: Files + Input + Env + Clock + AllocGlobal + Abort>(
    rt: &R,
    part: &str,
    want: &str,
) -> Result<(), Fail> {
    let words = format!(in rt.alloc(); "alone @whole.sys {part} @alone.txt")?;
    let said = format!(in rt.alloc(); "{want}status 0\n")?;
    answers(rt, words.as_str(), said.as_str())?;
    answers(rt, "build @alone.txt @alone.img", "status 0\n")?;
    answers(rt, "verify @alone.img", "accepted\nstatus 0\n")?;
    let text = take_files(rt, "alone.img alone.txt")?;
    let text = std::str::from_utf8(text.as_slice())?;
    let threads = text
        .lines()
        .filter(|line| line.starts_with("thread "))
        .count();
    let line = format!(in rt.alloc(); "\nthread {part} {part}_slots ")?;
    assert!(rt; threads == 1 && text.contains(line.as_str()), "{text}");
    Ok(())
}

#[test]
fn a_part_is_written_as_a_system_of_its_own(rt: HostRuntime) -> Result<(), Fail> {
    put_file(&rt, "whole.sys", SYSTEM.as_bytes())?;
    let want = format!(in rt.alloc(); "{METER}{ALL_EVENTS}")?;
    is_written(&rt, "meter", want.as_str())?;
    let want = format!(in rt.alloc(); "{BY_READINGS}{BY_NEWS}{LOG}not as in the whole\n")?;
    is_written(&rt, "log", want.as_str())?;
    take_files(&rt, "whole.sys")?;
    Ok(())
}

/// At one priority each step that a part makes is as in the whole, and others may come between.
#[test]
fn a_part_that_is_not_above_is_as_in_the_whole_over_its_own_events(
    rt: HostRuntime,
) -> Result<(), Fail> {
    let level = SYSTEM.replace(rt.alloc(), "part meter 101", "part meter 100")?;
    put_file(&rt, "level.sys", level.as_bytes())?;
    let said = answer_to(&rt, "alone @level.sys meter @level.txt")?;
    assert!(&rt;
        said.ends_with("\nas in the whole, over its own events\nstatus 0\n"),
        "{said}"
    );
    take_files(&rt, "level.sys level.txt")?;
    Ok(())
}

/// The image of a part of an image is written, too: it has the names that `list` gives.
#[test]
fn a_part_of_an_image_is_an_image(rt: HostRuntime) -> Result<(), Fail> {
    put_file(&rt, "listed.sys", SYSTEM.as_bytes())?;
    answer_to(&rt, "make @listed.sys @listed.img")?;
    answers(
        &rt,
        "alone @listed.img nobody @one.img",
        "status 2\nerror: there is no part `nobody`: the parts are o7, o8\n",
    )?;
    let said = answer_to(&rt, "alone @listed.img o7 @one.img")?;
    assert!(&rt;
        said.ends_with("as in the whole, over all events\nstatus 0\n"),
        "{said}"
    );
    answers(&rt, "verify @one.img", "accepted\nstatus 0\n")?;
    answer_to(&rt, "alone @listed.sys meter @one.txt")?;
    answers(&rt, "build @one.txt @built.img", "status 0\n")?;
    let built = take_files(&rt, "listed.sys listed.img one.txt built.img")?;
    assert_eq!(&rt; take_files(&rt, "one.img")?.as_slice(), built.as_slice());
    Ok(())
}

#[test]
fn words_that_name_no_part_are_answered_by_the_parts(rt: HostRuntime) -> Result<(), Fail> {
    put_file(&rt, "named.sys", SYSTEM.as_bytes())?;
    leaves_the_file(
        &rt,
        "alone @named.sys @kept",
        "status 2\nerror: no part is named: the parts are meter, log\n",
    )?;
    leaves_the_file(
        &rt,
        "alone @named.sys mixer @kept",
        "status 2\nerror: there is no part `mixer`: the parts are meter, log\n",
    )?;
    leaves_the_file(
        &rt,
        "alone @named.sys meter log @kept",
        "status 2\nerror: all parts are named, and the system alone is the system: the parts are meter, log\n",
    )?;
    take_files(&rt, "named.sys")?;
    Ok(())
}

#[test]
fn what_is_refused_or_damaged_has_no_part_alone(rt: HostRuntime) -> Result<(), Fail> {
    let refused = SYSTEM.replace(rt.alloc(), "rings news\n", "")?;
    put_file(&rt, "refused.sys", refused.as_bytes())?;
    put_file(&rt, "kept", OLDER)?;
    let said = answer_to(&rt, "alone @refused.sys meter @kept")?;
    assert!(&rt; said.starts_with("status 1\n"), "{said}");
    put_file(&rt, "damaged.img", b"MSYS no more than this")?;
    let said = answer_to(&rt, "alone @damaged.img meter @kept")?;
    assert!(&rt;
        said.starts_with("refused 2 Version ") && said.contains("\nstatus 1\n"),
        "{said}"
    );
    assert_eq!(&rt;
        take_files(&rt, "refused.sys damaged.img kept")?.as_slice(),
        OLDER
    );
    Ok(())
}

#[test]
fn a_file_that_cannot_be_written_is_named(rt: HostRuntime) -> Result<(), Fail> {
    put_file(&rt, "unwritten.sys", SYSTEM.as_bytes())?;
    let said = answer_to(&rt, "alone @unwritten.sys meter @no/folder/meter.txt")?;
    assert!(&rt; said.starts_with("status 3\n"), "{said}");
    assert!(&rt; said.contains("no/folder/meter.txt"), "{said}");
    take_files(&rt, "unwritten.sys")?;
    Ok(())
}
