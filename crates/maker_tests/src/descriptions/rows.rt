//! Descriptions, and what is said of them.

use described_systems::Joined;
use expansion::{ExpansionFault, expand};
use std::alloc::Global;
use std::process::Abort;
use std::test::Fail;

/// The lines that are said of a description: why it is refused, or the notes on it.
pub(crate) fn said_of(alloc: Global, description: &str) -> Result<String, Fail> {
    match expand(alloc, &Joined::of(alloc, "d", description)?) {
        Ok(expansion) => Ok(expansion.notes),
        Err(ExpansionFault::Refused(lines)) => Ok(lines),
        Err(ExpansionFault::OutOfMemory) => Err(Fail::from("memory")),
    }
}

/// Of the description in each row is said what is after `@` there.
pub(crate) fn check(rt: &(impl AllocGlobal + Abort), rows: &str) -> Result<(), Fail> {
    for row in rows.split("\n@ ").skip(1) {
        let (want, description) = row.split_once('\n').ok_or(row)?;
        let said = said_of(rt.alloc(), description)?;
        let wanted = format!(in rt.alloc(); "d:{want}\n")?;
        assert_eq!(rt; said.as_str(), wanted.as_str(), "{description}");
    }
    Ok(())
}
