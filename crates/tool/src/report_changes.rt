//! The command that says what of the data of one report is not so in that of another one.

use crate::reports::ToolFault;
use console::{DONE, REFUSED, read_all, text_of};
use report_differences::{NotCompared, report_differences};
use sinks::{Sink, put_all};
use std::rt::Files;

/// How the names of reports as data end.
const DATA: &str = ".json";

/// Whether both files are reports as data, by their names.
pub(crate) fn are_reports(before: &str, after: &str) -> bool {
    before.ends_with(DATA) && after.ends_with(DATA)
}

/// Puts what is not the same in two reports, and returns the exit status: that of a refusal where something is not.
pub(crate) fn diff_reports<'a, R: Files + Input + AllocGlobal, W: Sink>(
    rt: &R,
    before: &'a str,
    after: &'a str,
    output: &mut W,
) -> Result<u8, ToolFault<'a>> {
    let old = text_of(rt.alloc(), read_all(rt, before)?, before)?;
    let new = text_of(rt.alloc(), read_all(rt, after)?, after)?;
    match report_differences(rt.alloc(), old.as_str(), new.as_str()) {
        Ok(found) => {
            put_all(output, found.lines.as_bytes())?;
            Ok(if found.lines.is_empty() {
                DONE
            } else {
                REFUSED
            })
        }
        Err(NotCompared::Before { line }) => Err(unread(before, line)),
        Err(NotCompared::After { line }) => Err(unread(after, line)),
        Err(NotCompared::OutOfMemory) => Err(ToolFault::Memory),
    }
}

/// A line of a report is no JSON.
fn unread(file: &str, line: usize) -> ToolFault<'_> {
    ToolFault::Unread {
        file,
        line: line as u64,
    }
}
