//! The tables of a page.

use crate::findings::{
    Access, Answer, Declared, Part, Placed, ResponseRow, Share, Sharing, TestRuns, Untyped,
};
use crate::pages::Page;
use std::alloc::AllocError;

/// How many parts are side by side in a table.
const BESIDE: usize = 7;

/// Puts a cell with what others wrote.
fn push_cell(page: &mut Page, said: &str) -> Result<(), AllocError> {
    page.push_raw("<td>")?;
    page.push_said(said)?;
    page.push_raw("</td>")
}

/// Puts a cell with a number.
fn push_number(page: &mut Page, number: u64) -> Result<(), AllocError> {
    page.push_raw("<td class=\"number\">")?;
    page.push_number(number)?;
    page.push_raw("</td>")
}

/// Puts a cell with an address.
fn push_address(page: &mut Page, address: u64) -> Result<(), AllocError> {
    page.push_raw("<td class=\"number\">")?;
    page.push_address(address)?;
    page.push_raw("</td>")
}

/// Puts the beginning of a table with these words above its columns.
fn begin_table(page: &mut Page, columns: &[&str]) -> Result<(), AllocError> {
    page.push_raw("<table>\n<tr>")?;
    for column in columns {
        page.push_raw("<th>")?;
        page.push_said(column)?;
        page.push_raw("</th>")?;
    }
    page.push_raw("</tr>\n")
}

/// Puts the end of a row.
fn end_row(page: &mut Page) -> Result<(), AllocError> {
    page.push_raw("</tr>\n")
}

/// Puts the end of a table.
fn end_table(page: &mut Page) -> Result<(), AllocError> {
    page.push_raw("</table>\n")
}

/// Puts the parts with their priorities and budgets.
pub(crate) fn push_parts(page: &mut Page, declared: &Declared<'_>) -> Result<(), AllocError> {
    begin_table(page, &["part", "priority", "budget", "instructions"])?;
    for part in &declared.parts {
        page.push_raw("<tr>")?;
        push_cell(page, part.name)?;
        push_number(page, u64::from(part.priority))?;
        push_number(page, part.budget)?;
        push_number(page, part.instructions)?;
        end_row(page)?;
    }
    end_table(page)
}

/// Puts what a bound is made of.
fn push_shares(page: &mut Page, shares: &[Share]) -> Result<(), AllocError> {
    page.push_raw("<ul>\n")?;
    for share in shares {
        page.push_raw("<li>")?;
        page.push_number(share.steps)?;
        page.push_raw(": ")?;
        page.push_said(share.reason.as_str())?;
        page.push_raw("</li>\n")?;
    }
    page.push_raw("</ul>\n")
}

/// Puts what the bound of a level is made of.
fn push_response(page: &mut Page, row: &ResponseRow<'_>) -> Result<(), AllocError> {
    let Answer::Bound {
        later,
        shares,
        lines,
        ..
    } = &row.answer
    else {
        return Ok(());
    };
    page.push_raw("<h3>Priority ")?;
    page.push_number(u64::from(row.priority))?;
    page.push_raw(" and above: ")?;
    page.push_number(*later)?;
    page.push_raw(" steps once they have rested are at most</h3>\n")?;
    push_shares(page, shares.as_slice())?;
    for line in lines {
        page.push_raw("<p>Line ")?;
        page.push_number(u64::from(line.line))?;
        page.push_raw(" is dealt with within as many steps. An interrupt of it sets going:</p>\n")?;
        push_shares(page, line.sets_going.as_slice())?;
    }
    Ok(())
}

/// Puts what bounds are made of.
pub(crate) fn push_responses(page: &mut Page, rows: &[ResponseRow<'_>]) -> Result<(), AllocError> {
    for row in rows {
        push_response(page, row)?;
    }
    Ok(())
}

/// Puts the arrows between parts.
pub(crate) fn push_arrows(page: &mut Page, sharing: &Sharing<'_>) -> Result<(), AllocError> {
    if sharing.arrows.is_empty() {
        return Ok(());
    }
    page.push_raw("<p>Arrows between parts: ")?;
    page.push_number(sharing.arrow_count)?;
    page.push_raw(
        ", as <code>microsys_tool parts</code> says them, of which a thousand are here at most. <span class=\"ground\">counted in this file</span></p>\n<ul>\n",
    )?;
    for arrow in &sharing.arrows {
        page.push_raw("<li>")?;
        page.push_said(arrow.as_str())?;
        page.push_raw("</li>\n")?;
    }
    page.push_raw("</ul>\n")
}

/// Puts the lines of the machine and what they ring.
pub(crate) fn push_lines(page: &mut Page, declared: &Declared<'_>) -> Result<(), AllocError> {
    if declared.lines.is_empty() {
        return Ok(());
    }
    begin_table(page, &["line", "number", "rings", "with"])?;
    for line in &declared.lines {
        page.push_raw("<tr>")?;
        push_cell(page, line.name)?;
        push_number(page, u64::from(line.number))?;
        push_cell(page, line.bell)?;
        push_number(page, u64::from(line.badge))?;
        end_row(page)?;
    }
    end_table(page)
}

/// What a part may do, of the rows of one object.
fn may_of<'r>(rows: &'r [Access<'_>], part: &str) -> &'r str {
    match rows.iter().find(|row| row.part == part) {
        Some(row) => row.may.as_str(),
        None => "",
    }
}

/// Puts what some parts may do with an object, if they may do anything.
fn push_object_row(
    page: &mut Page,
    parts: &[Part<'_>],
    rows: &[Access<'_>],
) -> Result<(), AllocError> {
    let Some(first) = rows.first() else {
        return Ok(());
    };
    if !parts.iter().any(|part| !may_of(rows, part.name).is_empty()) {
        return Ok(());
    }
    page.push_raw("<tr><td>")?;
    page.push_said(first.object)?;
    page.push_raw("</td>")?;
    push_cell(page, first.kind.as_str())?;
    for part in parts {
        push_cell(page, may_of(rows, part.name))?;
    }
    end_row(page)
}

/// Puts what some parts may do, a row for each object and line.
fn push_beside(page: &mut Page, parts: &[Part<'_>], rows: &[Access<'_>]) -> Result<(), AllocError> {
    page.push_raw("<table>\n<tr><th>object</th><th>what it is</th>")?;
    for part in parts {
        page.push_raw("<th>")?;
        page.push_said(part.name)?;
        page.push_raw("</th>")?;
    }
    end_row(page)?;
    for these in rows.chunk_by(|row, next| row.object == next.object) {
        push_object_row(page, parts, these)?;
    }
    end_table(page)
}

/// Puts what parts may do: a table for each few parts.
pub(crate) fn push_access(
    page: &mut Page,
    declared: &Declared<'_>,
    rows: &[Access<'_>],
) -> Result<(), AllocError> {
    for parts in declared.parts.chunks(BESIDE) {
        push_beside(page, parts, rows)?;
    }
    Ok(())
}

/// Puts what is used of untyped memory and what is free.
pub(crate) fn push_untyped(page: &mut Page, untyped: &[Untyped<'_>]) -> Result<(), AllocError> {
    begin_table(page, &["memory", "at", "bytes", "used", "free"])?;
    for memory in untyped {
        page.push_raw("<tr>")?;
        push_cell(page, memory.name)?;
        push_address(page, memory.address)?;
        push_number(page, memory.bytes)?;
        push_number(page, memory.used)?;
        push_number(page, memory.free)?;
        end_row(page)?;
    }
    end_table(page)
}

/// Puts where objects lie.
pub(crate) fn push_objects(page: &mut Page, objects: &[Placed<'_>]) -> Result<(), AllocError> {
    begin_table(page, &["at", "bytes", "object", "what it is"])?;
    for object in objects {
        page.push_raw("<tr>")?;
        push_address(page, object.address)?;
        push_number(page, object.bytes)?;
        push_cell(page, object.name)?;
        push_cell(page, object.kind.as_str())?;
        end_row(page)?;
    }
    end_table(page)
}

/// Puts what runs showed of the parts.
fn push_part_runs(page: &mut Page, tests: &TestRuns<'_>) -> Result<(), AllocError> {
    begin_table(
        page,
        &[
            "part",
            "instructions that ran",
            "of",
            "longest stretch",
            "budget",
            "steps",
        ],
    )?;
    for part in &tests.parts {
        page.push_raw("<tr>")?;
        push_cell(page, part.part)?;
        push_number(page, part.covered)?;
        push_number(page, part.instructions)?;
        push_number(page, part.longest)?;
        push_number(page, part.budget)?;
        push_number(page, part.ran)?;
        end_row(page)?;
    }
    end_table(page)
}

/// Puts what runs showed of the levels.
fn push_level_runs(page: &mut Page, tests: &TestRuns<'_>) -> Result<(), AllocError> {
    begin_table(page, &["priority and above", "most steps on end", "bound"])?;
    for level in &tests.levels {
        page.push_raw("<tr>")?;
        push_number(page, u64::from(level.priority))?;
        push_number(page, level.longest)?;
        match level.bound {
            Some(bound) => push_number(page, bound)?,
            None => push_cell(page, "none")?,
        }
        end_row(page)?;
    }
    end_table(page)
}

/// Puts what runs showed of the endpoints.
fn push_door_runs(page: &mut Page, tests: &TestRuns<'_>) -> Result<(), AllocError> {
    if tests.doors.is_empty() {
        return Ok(());
    }
    begin_table(page, &["door", "messages that were sent"])?;
    for door in &tests.doors {
        page.push_raw("<tr>")?;
        push_cell(page, door.door)?;
        push_number(page, door.messages)?;
        end_row(page)?;
    }
    end_table(page)
}

/// Puts what runs showed.
pub(crate) fn push_tests(page: &mut Page, tests: &TestRuns<'_>) -> Result<(), AllocError> {
    page.push_raw(
        "<p>The tables are what these runs showed, and no more. <span class=\"ground measured\">measured</span></p>\n",
    )?;
    push_part_runs(page, tests)?;
    push_level_runs(page, tests)?;
    push_door_runs(page, tests)
}
