//! Texts of images, rows of changes to their lines, and what the verifier says of them.

use asm::assemble;
use image::write;
use model::Refusal;
use std::alloc::Global;
use std::process::Abort;
use std::test::Fail;
use verify::verify;

/// What is said of the bytes of an image: `accepted`, or the refusal's name, its two items, and the error of a refused call.
pub(crate) fn verdict_on(alloc: Global, bytes: &[u8]) -> Result<String, Fail> {
    let Err(refusal) = verify(alloc, bytes) else {
        return Ok(format!(in alloc; "accepted")?);
    };
    let name = refusal.name();
    let (first, second) = refusal.items();
    Ok(match refusal {
        Refusal::CallRefused(_, error) => {
            let error = error.number();
            format!(in alloc; "{name} {first} {second} {error}")?
        }
        _ => format!(in alloc; "{name} {first} {second}")?,
    })
}

/// The bytes of the image of a text.
pub(crate) fn bytes_of(alloc: Global, text: &str) -> Result<Vec<u8>, Fail> {
    let image = assemble(alloc, text).ok().ok_or("the text is at fault")?;
    Ok(write(alloc, &image)?)
}

/// What is said of the image of a text.
pub(crate) fn verdict(alloc: Global, text: &str) -> Result<String, Fail> {
    let bytes = bytes_of(alloc, text)?;
    verdict_on(alloc, bytes.as_slice())
}

/// A text with some lines put another way: each change is a line's number, counted from 1, and what is in its place, and
/// ` ; ` parts them. `/` is the end of a line.
pub(crate) fn changed(alloc: Global, text: &str, changes: &str) -> Result<String, Fail> {
    let mut found = String::new(alloc);
    let mut left = text.lines();
    let mut passed = 0usize;
    for change in changes.split(" ; ") {
        let (number, new) = change.trim_start().split_once(' ').ok_or(change)?;
        let number = number.parse::<usize>()?;
        while passed < number {
            let line = left.next().ok_or(change)?;
            passed += 1;
            found.push_str(if passed == number { new } else { line })?;
            found.push('\n')?;
        }
    }
    for line in left {
        found.push_str(line)?;
        found.push('\n')?;
    }
    Ok(found.replace(alloc, '/', "\n")?)
}

/// Asserts what is said of a text with the changes of each row.
pub(crate) fn are_said(
    rt: &(impl Abort + AllocGlobal),
    text: &str,
    rows: &str,
) -> Result<(), Fail> {
    for row in rows.trim().lines() {
        let row = row.trim_start();
        if row.is_empty() || row.starts_with('#') {
            continue;
        }
        let (want, changes) = row.split_once(" | ").ok_or(row)?;
        let text = changed(rt.alloc(), text, changes)?;
        let found = verdict(rt.alloc(), text.as_str())?;
        assert_eq!(rt; found.as_str(), want, "for {row}");
    }
    Ok(())
}
