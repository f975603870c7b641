//! Two reports beside each other.

use crate::faults::{NotCompared, unread_after, unread_before};
use crate::flat::{Leaves, add_leaves};
use indexmap::IndexMap;
use serde_json::Value;
use std::alloc::{AllocError, Global};

/// What is not so in both of two reports, in lines.
#[derive(Drop)]
pub struct ReportChanges {
    /// `PATH: BEFORE -> AFTER`, `+ PATH: AFTER` or `- PATH: BEFORE`.
    pub lines: String,
}

/// What of the data of a report is not so in that of another one: a line for each leaf that has another value, is new or is gone.
///
/// Items of lists are told apart by their names, or what takes their place, and else by their places.
///
/// # Errors
///
/// A text is no JSON (RFC 8259), or memory is refused.
pub fn report_differences(
    alloc: Global,
    before: &str,
    after: &str,
) -> Result<ReportChanges, NotCompared> {
    let before = match Value::from_str(alloc, before) {
        Ok(before) => before,
        Err(error) => return Err(unread_before(error)),
    };
    let after = match Value::from_str(alloc, after) {
        Ok(after) => after,
        Err(error) => return Err(unread_after(error)),
    };
    let (before, after) = (leaves_of(alloc, &before)?, leaves_of(alloc, &after)?);
    Ok(ReportChanges {
        lines: changes_of(alloc, &before, &after)?,
    })
}

/// The leaves of a value.
fn leaves_of(alloc: Global, value: &Value) -> Result<Leaves, AllocError> {
    let mut leaves = IndexMap::new(alloc);
    add_leaves(alloc, &mut leaves, "", value)?;
    Ok(leaves)
}

/// A line for each leaf that is not the same.
fn changes_of(alloc: Global, before: &Leaves, after: &Leaves) -> Result<String, AllocError> {
    let mut lines = String::new(alloc);
    for (path, was) in before.iter() {
        push_change(&mut lines, path, was, after)?;
    }
    for (path, is) in after.iter() {
        if before.get(path).is_none() {
            writeln!(&mut lines, "+ {path}: {is}")?;
        }
    }
    Ok(lines)
}

/// The line of a leaf that is not the same after.
fn push_change(
    lines: &mut String,
    path: &String,
    was: &String,
    after: &Leaves,
) -> Result<(), AllocError> {
    match after.get(path) {
        Some(is) if is.as_str() == was.as_str() => Ok(()),
        Some(is) => writeln!(lines, "{path}: {was} -> {is}"),
        None => writeln!(lines, "- {path}: {was}"),
    }
}
