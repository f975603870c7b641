//! The commands that show something of a system.

use crate::budgets::with_found_budgets;
use crate::reports::ToolFault;
use crate::responding::answers_of;
use crate::sources::{SystemText, read_given, read_system};
use console::{DONE, REFUSED, read_all};
use differences::{DifferencesFault, differences};
use drawing::{ChartRequest, chart, draw};
use listed_images::{ListFault, list};
use sinks::{Sink, put_all};
use std::alloc::Global;
use std::rt::Files;
use std::time::Clock;
use system_pictures::picture;

/// The events that are drawn.
#[derive(Clone, Copy)]
pub(crate) struct Period {
    /// The first one, if not all from the beginning.
    pub(crate) from: Option<u64>,
    /// The last one, if not all to the end.
    pub(crate) to: Option<u64>,
}

/// Draws the system in a file, as SVG or for Graphviz.
pub(crate) fn draw_file<'a, R: Files + Input + Clock + AllocGlobal, W: Sink, E: Sink>(
    rt: &R,
    source: &'a str,
    is_svg: bool,
    given: &[&str],
    output: &mut W,
    errors: &mut E,
) -> Result<(), ToolFault<'a>> {
    let text = with_found_budgets(rt, read_given(rt, source, given)?.text, errors)?;
    if is_svg {
        let svg = picture(rt.alloc(), text.as_str())?;
        Ok(put_all(output, svg.as_bytes())?)
    } else {
        Ok(draw(rt.alloc(), text.as_str(), output)?)
    }
}

/// Draws the trace in a file, with the names and lines of the system that ran if that is given.
pub(crate) fn chart_file<'a, R: Files + Input + Clock + AllocGlobal, W: Sink, E: Sink>(
    rt: &R,
    trace: &'a str,
    source: Option<&'a str>,
    period: Period,
    output: &mut W,
    errors: &mut E,
) -> Result<(), ToolFault<'a>> {
    let trace = read_all(rt, trace)?;
    let Period { from, to } = period;
    match source {
        Some(source) => {
            let system = read_system(rt, source)?;
            let answers = answers_of(rt, &system, errors)?;
            let text = with_found_budgets(rt, system.text, errors)?;
            let request = ChartRequest {
                text: Some(text.as_str()),
                from,
                to,
                answers: answers.as_slice(),
            };
            Ok(chart(rt.alloc(), trace.as_slice(), &request, output)?)
        }
        None => {
            let request = ChartRequest {
                text: None,
                from,
                to,
                answers: &[],
            };
            Ok(chart(rt.alloc(), trace.as_slice(), &request, output)?)
        }
    }
}

/// Puts the text of the image in a file.
pub(crate) fn list_file<'a, R: Files + Input + AllocGlobal, W: Sink>(
    rt: &R,
    image: &'a str,
    output: &mut W,
) -> Result<(), ToolFault<'a>> {
    let bytes = read_all(rt, image)?;
    match list(rt.alloc(), bytes.as_slice()) {
        Ok(text) => Ok(put_all(output, text.as_bytes())?),
        Err(ListFault::Refused(refusal)) => Err(ToolFault::Image(refusal)),
        Err(ListFault::OutOfMemory) => Err(ToolFault::Memory),
    }
}

/// Puts what the second system may do that the first may not, and the other way round, and returns the exit status: that of a
/// refusal where there is more.
pub(crate) fn diff_files<'a, R: Files + Input + Clock + AllocGlobal, W: Sink, E: Sink>(
    rt: &R,
    before: &'a str,
    after: &'a str,
    output: &mut W,
    errors: &mut E,
) -> Result<u8, ToolFault<'a>> {
    let mut before = read_system(rt, before)?;
    let mut after = read_system(rt, after)?;
    before.text = with_found_budgets(rt, before.text, errors)?;
    after.text = with_found_budgets(rt, after.text, errors)?;
    let found = match differences(rt.alloc(), before.text.as_str(), after.text.as_str()) {
        Ok(found) => found,
        Err(fault) => return Err(not_compared(&before, &after, fault)),
    };
    put_all(output, found.more.as_bytes())?;
    put_all(output, found.less.as_bytes())?;
    put_all(output, found.changed.as_bytes())?;
    Ok(if found.more.is_empty() { DONE } else { REFUSED })
}

/// Why two systems are not compared.
fn not_compared<'a>(
    before: &SystemText<'a>,
    after: &SystemText<'a>,
    fault: DifferencesFault,
) -> ToolFault<'a> {
    match fault {
        DifferencesFault::Before { line } => ToolFault::Unread {
            file: before.name,
            line,
        },
        DifferencesFault::After { line } => ToolFault::Unread {
            file: after.name,
            line,
        },
        DifferencesFault::OutOfMemory => ToolFault::Memory,
    }
}
