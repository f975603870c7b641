//! Texts with a line put another way.

use explaining::{Explanation, Text, explain};
use progress::Quiet;
use std::alloc::Global;
use std::process::Abort;
use std::test::Fail;
use test_sessions::with_line;

/// What is said of a text.
fn said_of(alloc: Global, text: &str) -> Result<String, Fail> {
    let text = Text {
        file: "text",
        content: text,
    };
    match explain(alloc, &text, &mut Quiet)
        .ok()
        .ok_or("nothing is said")?
    {
        Explanation::Refused(told) => Ok(told),
        Explanation::Accepted => Ok(format!(in alloc; "accepted\n")?),
    }
}

/// Each text is explained as its row says: after `@` the number of a line and what is in its place, then what is said.
pub(crate) fn check(rt: &(impl AllocGlobal + Abort), text: &str, rows: &str) -> Result<(), Fail> {
    for row in rows.split("\n@ ").skip(1) {
        let (change, want) = row.split_once('\n').ok_or(row)?;
        let (number, new) = change.split_once(' ').ok_or(row)?;
        let changed = with_line(rt.alloc(), text, number.parse::<usize>()?, new)?;
        let said = said_of(rt.alloc(), changed.as_str())?;
        assert_eq!(rt;
            said.as_str().strip_suffix('\n'),
            Some(want.trim_end()),
            "{change}"
        );
    }
    Ok(())
}
