//! Descriptions that include others: each line has the file that it is from.

use described_systems::Joined;
use expansion::{ExpansionFault, expand};
use std::alloc::Global;
use std::test::Fail;

/// What is said of a description with one of two lines in place of its second one, from the file `more`.
fn said_with(alloc: Global, included: &str) -> Result<String, Fail> {
    let description = "bell b\ninclude more\npart a 1\nwaits b\ncode\naddi x10 x0 b\nend\n";
    let whole = Joined::of(alloc, "d", description)?.include(2, "more", included)?;
    match expand(alloc, &whole) {
        Ok(expansion) => Ok(expansion.notes),
        Err(ExpansionFault::Refused(lines)) => Ok(lines),
        Err(ExpansionFault::OutOfMemory) => Err(Fail::from("memory")),
    }
}

#[test]
fn what_is_included_is_reported_by_its_own_line(rt: HostRuntime) -> Result<(), Fail> {
    let said = said_with(rt.alloc(), "# nothing\ndoor b\n")?;
    assert_eq!(&rt; said.as_str(), "more:2: `b` is declared already, in d:1\n");
    let said = said_with(rt.alloc(), "door c\ndoor c\n")?;
    assert_eq!(&rt;
        said.as_str(),
        "more:2: `c` is declared already, on line 1\n"
    );
    let said = said_with(rt.alloc(), "# nothing\ndoor c\n")?;
    assert_eq!(&rt; said.as_str(), "more:2: note: nobody serves the door c\n");
    Ok(())
}

#[test]
fn what_follows_an_include_has_its_line(rt: HostRuntime) -> Result<(), Fail> {
    let said = said_with(rt.alloc(), "page p\npage q\npart a 1\ncode\necall\nend\n")?;
    assert_eq!(&rt; said.as_str(), "d:3: `a` is declared already, in more:3\n");
    Ok(())
}
