//! Sessions with the program over files in the system's folder for temporary files.

use runner::command;
use std::process::Abort;
use std::rt::{Env, Files};
use std::test::Fail;
use test_sessions::{Printed, name_of, words_of};

/// More than any trace here has.
const ROOM: usize = 500_000;

/// What the program prints for words: its output, `status` with its status, and its errors.
pub(crate) fn answer_to<R: Files + Env + Input + AllocGlobal>(
    rt: &R,
    words: &str,
) -> Result<String, Fail> {
    let words = words_of(rt, words)?;
    let mut printed = Printed::new(rt.alloc(), ROOM);
    let status = command(
        rt,
        words.as_slice(),
        &mut printed.output,
        &mut printed.errors,
    );
    printed.with_status(rt.alloc(), status)
}

/// Plays a session, line for line: after `$ microsys` are words, and after those what the program prints for them.
/// `@` begins the name of a file.
pub(crate) fn plays<R: Files + Env + Input + AllocGlobal + Abort>(
    rt: &R,
    session: &str,
) -> Result<(), Fail> {
    let folder = name_of(rt, "")?;
    let mut want = String::new(rt.alloc());
    let mut found = String::new(rt.alloc());
    for line in session.trim().lines() {
        let line = line.trim().replace(rt.alloc(), '@', folder.as_str())?;
        want.push_str(line.as_str())?;
        want.push('\n')?;
        if let Some(words) = line.strip_prefix("$ microsys") {
            found.push_str(line.as_str())?;
            found.push('\n')?;
            found.push_str(answer_to(rt, words)?.as_str())?;
        }
    }
    assert_eq!(rt; found, want);
    Ok(())
}
