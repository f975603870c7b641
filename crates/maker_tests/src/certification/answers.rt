//! What the program answers, by its status and lines, and what it leaves of the file that it writes.

use crate::certification::rows::text_with;
use std::fs;
use std::process::Abort;
use std::rt::{Env, Files};
use std::test::Fail;
use std::time::Clock;
use test_sessions::name_of;
use tool::{MemorySink, command};

/// What is in the file that is written, before it is.
const BEFORE: &str = "an older text";

/// Asserts that certifying a text is refused, that its report on standard error begins so after the name of its file, and
/// that the target stays as it was.
pub(crate) fn is_refused<R: Files + Input + Env + Clock + AllocGlobal + Abort>(
    rt: &R,
    name: &str,
    text: &str,
    line: &str,
) -> Result<(), Fail> {
    let source = name_of(rt, name)?;
    let target = format!(in rt.alloc(); "{source}.out")?;
    fs::write(rt, source.as_str(), text.as_bytes())?;
    fs::write(rt, target.as_str(), BEFORE.as_bytes())?;
    let mut output = MemorySink::new(rt.alloc(), 200);
    let mut errors = MemorySink::new(rt.alloc(), 4000);
    let words = ["certify", source.as_str(), target.as_str()];
    let status = command(rt, &words, &mut output, &mut errors);
    let left = fs::read_to_string(rt, target.as_str())?;
    fs::remove_file(rt, source.as_str())?;
    fs::remove_file(rt, target.as_str())?;
    assert_eq!(rt; status, 1);
    assert_eq!(rt; output.bytes(), b"".as_slice());
    let head = format!(in rt.alloc(); "{source}:{line}")?;
    let told = std::str::from_utf8(errors.bytes())?;
    assert!(rt; told.starts_with(head.as_str()), "{told}");
    assert_eq!(rt; left.as_str(), BEFORE);
    Ok(())
}

#[test]
fn what_stops_a_certificate_is_told_by_its_line(rt: HostRuntime) -> Result<(), Fail> {
    // The loop begins on line 18, after 16 lines of declarations and the entry.
    let endless = text_with(&rt, "start: lui x8 2\nnext: lbu x5 0(x8)\nbne x5 x0 next\n")?;
    let told = "18: NoMeasure: thread main, `lbu x5 0(x8)`: no wait on this loop (lines 18 to 19)";
    is_refused(&rt, "endless", endless.as_str(), told)?;
    let unmapped = text_with(&rt, "start: lui x8 9\nlw x5 0(x8)\n")?;
    let told =
        "18: NotMapped: thread main, `lw x5 0(x8)`: load of bytes 0x9000 to 0x9003, where x8 is 0x9000\n";
    is_refused(&rt, "unmapped", unmapped.as_str(), told)?;
    let unknown = text_with(&rt, "start: addi x5 x0 4000\n")?;
    let told = "17: `start: addi x5 x0 4000`: a number is out of its range\n";
    is_refused(&rt, "unknown", unknown.as_str(), told)
}
