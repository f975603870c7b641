//! The words of the program for makers over real files.

use std::process::Abort;
use std::rt::{Env, Files};
use std::test::Fail;
use std::time::Clock;
use test_sessions::{Printed, put_file, take_files, words_of};
use tool::command;

/// More than any answer here has.
const ROOM: usize = 50_000;

/// At each interrupt 3 the part prints a byte, and acknowledges it. From wait to wait it takes eleven instructions.
pub(crate) const SYSTEM: &str = "bell b
part p 1
waits b line 3
code
again: addi x10 x0 b
addi x17 x0 5
ecall
addi x10 x0 65
addi x17 x0 9
ecall
addi x10 x0 b.line3
lui x11 18
addi x17 x0 3
ecall
jal x0 again
end
";

/// The part waits, and is woken twice.
const EVENTS: &str = "step 3\nirq 3\nstep 11\nirq 3\nstep 11\n";

/// What the program answers to words, in which `@` begins the name of a file: its output, `status` with its status, and its errors.
pub(crate) fn answer_to<R: Files + Input + Env + Clock + AllocGlobal>(
    rt: &R,
    words: &str,
) -> Result<String, Fail> {
    let words = words_of(rt, words)?;
    let mut printed = Printed::new(rt.alloc(), ROOM);
    let status = command(
        rt,
        words.as_slice(),
        &mut printed.output,
        &mut printed.errors,
    );
    printed.with_status(rt.alloc(), status)
}

/// Asserts that the program answers so.
pub(crate) fn answers<R: Files + Input + Env + Clock + AllocGlobal + Abort>(
    rt: &R,
    words: &str,
    want: &str,
) -> Result<(), Fail> {
    assert_eq!(rt; answer_to(rt, words)?.as_str(), want, "{words}");
    Ok(())
}

#[test]
fn one_command_makes_a_system_that_runs(rt: HostRuntime) -> Result<(), Fail> {
    put_file(&rt, "made.sys", SYSTEM.as_bytes())?;
    put_file(&rt, "made.events", EVENTS.as_bytes())?;
    put_file(&rt, "made.bytes", b"41\n41\n")?;
    put_file(&rt, "other.bytes", b"41\n42\n")?;
    put_file(&rt, "wrong.bytes", b"41\nzz\n")?;
    answers(&rt, "make @made.sys @made.img", "p budget 11\nstatus 0\n")?;
    answers(&rt, "verify @made.img", "accepted\nstatus 0\n")?;
    answers(&rt, "run @made.img @made.events --bytes", "AAstatus 0\n")?;
    answers(&rt, "diff @made.sys @made.sys", "status 0\n")?;
    let test = "test @made.sys @made.events @made.bytes";
    answers(&rt, test, "as expected\nstatus 0\n")?;
    let other = answer_to(&rt, "test @made.sys @made.events @other.bytes")?;
    assert!(&rt; other.ends_with("status 1\n"), "{other}");
    let wrong = answer_to(&rt, "test @made.sys @made.events @wrong.bytes")?;
    assert!(&rt;
        wrong.contains("wrong.bytes:2: Malformed: not read\n"),
        "{wrong}"
    );
    let files = "made.sys made.events made.bytes other.bytes wrong.bytes made.img";
    take_files(&rt, files)?;
    Ok(())
}

#[test]
fn wrong_words_are_answered_by_what_is_wrong(rt: HostRuntime) -> Result<(), Fail> {
    let told =
        "status 2\nerror: unrecognized subcommand 'zzz'\n\nUsage: microsys_tool <COMMAND>\n\nFor more information, try '--help'.\n";
    answers(&rt, "zzz", told)?;
    let told =
        "status 2\nerror: the following required arguments were not provided:\n  <IMAGE>\n\nUsage: microsys_tool make <SYSTEM> <IMAGE>\n\n\
         For more information, try '--help'.\n";
    answers(&rt, "make a.sys", told)?;
    let version = answer_to(&rt, "--version")?;
    assert!(&rt; version.starts_with("microsys_tool "), "{version}");
    assert!(&rt; version.ends_with("status 0\n"), "{version}");
    let help = answer_to(&rt, "run --help")?;
    assert!(&rt; help.contains("--unverified"), "{help}");
    assert!(&rt; help.ends_with("status 0\n"), "{help}");
    Ok(())
}

#[test]
fn what_is_refused_leaves_no_image(rt: HostRuntime) -> Result<(), Fail> {
    let system = SYSTEM.replace(rt.alloc(), "waits b line 3", "rings b")?;
    put_file(&rt, "refused.sys", system.as_bytes())?;
    put_file(&rt, "kept.img", b"an older image")?;
    let told = answer_to(&rt, "make @refused.sys @kept.img")?;
    assert!(&rt; told.starts_with("status 1\n"), "{told}");
    assert_eq!(&rt;
        take_files(&rt, "refused.sys kept.img")?.as_slice(),
        b"an older image".as_slice()
    );
    Ok(())
}
