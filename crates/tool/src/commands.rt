//! What the program answers to the words of its command line.

use crate::certificate_files::certify_file;
use crate::debugging_sessions::{Session, debug_file};
use crate::described_parts::{put_parts, write_alone};
use crate::expected::test_file;
use crate::explanations::explain_file;
use crate::images::{build_image, verify_image};
use crate::report_changes::{are_reports, diff_reports};
use crate::report_files::{ReportWords, report_file};
use crate::reports::{ToolFault, report};
use crate::responding::put_responses;
use crate::runs::{Run, run_file};
use crate::sources::check_target;
use crate::systems::{Making, expand_file, make_file};
use crate::views::{Period, chart_file, diff_files, draw_file, list_file};
use console::{DONE, words};
use sinks::Sink;
use std::convert::AsStr;
use std::rt::{Env, Files};
use std::time::Clock;
use tool_requests::{Request, ToolRequest, parse_words};

/// Carries out what the words after the program's name ask for, and returns the exit status. Where that takes more than a second, lines
/// on standard error say how far it is.
pub fn command<R: Files + Input + Clock + AllocGlobal, S: AsStr, W: Sink, E: Sink>(
    rt: &R,
    words: &[S],
    output: &mut W,
    errors: &mut E,
) -> u8 {
    match answer(rt, words, output, errors) {
        Ok(status) => status,
        Err(fault) => report(rt.alloc(), fault, output, errors),
    }
}

/// Gathers the words of the process's command line, and carries them out.
pub fn command_line<R: Files + Input + Env + Clock + AllocGlobal, W: Sink, E: Sink>(
    rt: &R,
    output: &mut W,
    errors: &mut E,
) -> u8 {
    match words(rt) {
        Ok(words) => command(rt, words.as_slice(), output, errors),
        Err(fault) => report(rt.alloc(), ToolFault::from(fault), output, errors),
    }
}

/// Carries out a request up to its failure, and returns the exit status.
fn answer<'a, R: Files + Input + Clock + AllocGlobal, S: AsStr, W: Sink, E: Sink>(
    rt: &R,
    words: &'a [S],
    output: &mut W,
    errors: &mut E,
) -> Result<u8, ToolFault<'a>> {
    let Request {
        asked,
        given,
        words,
        rates,
        is_strict,
    } = parse_words(rt.alloc(), words)?;
    let making = Making {
        given: given.as_slice(),
        is_strict,
    };
    match asked {
        ToolRequest::Verify { image } => Ok(verify_image(rt, image, output, errors)),
        ToolRequest::Build { source, image } => {
            check_target(rt, source, image)?;
            Ok(build_image(rt, source, image, output, errors))
        }
        ToolRequest::Test {
            system,
            events,
            expected,
        } => test_file(rt, system, events, expected, output, errors),
        ToolRequest::Alone { system } => {
            write_alone(rt, system, words.as_slice(), output, errors)?;
            Ok(DONE)
        }
        ToolRequest::Response { system } => {
            put_responses(rt, system, words.as_slice(), output, errors)?;
            Ok(DONE)
        }
        ToolRequest::Report {
            system,
            out,
            is_json,
        } => {
            let asked = ReportWords {
                system,
                out,
                is_json,
                events: words.as_slice(),
                rates: rates.as_slice(),
                given: making.given,
            };
            report_file(rt, &asked, output, errors)
        }
        ToolRequest::Diff { before, after } if are_reports(before, after) => {
            diff_reports(rt, before, after, output)
        }
        ToolRequest::Diff { before, after } => diff_files(rt, before, after, output, errors),
        request => {
            write_answer(rt, request, making, output, errors)?;
            Ok(DONE)
        }
    }
}

/// Carries out a request to write something of a system, or else to run or to show one, up to its failure.
fn write_answer<'a, R: Files + Input + Clock + AllocGlobal, W: Sink, E: Sink>(
    rt: &R,
    request: ToolRequest<'a>,
    making: Making<'_>,
    output: &mut W,
    errors: &mut E,
) -> Result<(), ToolFault<'a>> {
    match request {
        ToolRequest::Make { system, image } => {
            make_file(rt, system, image, making, output, errors)
        }
        ToolRequest::Expand { description, text } => {
            expand_file(rt, description, text, making, output, errors)
        }
        ToolRequest::Certify { source, certified } => {
            certify_file(rt, source, certified, output, errors)
        }
        ToolRequest::Explain { system } => {
            explain_file(rt, system, making.given, output, errors)
        }
        request => run_answer(rt, request, making, output, errors),
    }
}

/// Carries out a request to run a system, or else to show one, up to its failure.
fn run_answer<'a, R: Files + Input + Clock + AllocGlobal, W: Sink, E: Sink>(
    rt: &R,
    request: ToolRequest<'a>,
    making: Making<'_>,
    output: &mut W,
    errors: &mut E,
) -> Result<(), ToolFault<'a>> {
    match request {
        ToolRequest::Debug {
            system,
            events,
            part,
            unverified,
        } => {
            let session = Session {
                system,
                events,
                part,
                unverified,
            };
            debug_file(rt, session, output, errors)
        }
        ToolRequest::Run {
            system,
            events,
            unverified,
            shown,
        } => {
            let run = Run {
                system,
                events,
                unverified,
                shown,
            };
            run_file(rt, run, output, errors)
        }
        request => show_answer(rt, request, making, output, errors),
    }
}

/// Carries out a request to show something of a system, up to its failure.
fn show_answer<'a, R: Files + Input + Clock + AllocGlobal, W: Sink, E: Sink>(
    rt: &R,
    request: ToolRequest<'a>,
    making: Making<'_>,
    output: &mut W,
    errors: &mut E,
) -> Result<(), ToolFault<'a>> {
    match request {
        ToolRequest::Draw { system, is_svg } => {
            draw_file(rt, system, is_svg, making.given, output, errors)
        }
        ToolRequest::Parts { system } => put_parts(rt, system, output, errors),
        ToolRequest::Chart {
            trace,
            system,
            from,
            to,
        } => chart_file(rt, trace, system, Period { from, to }, output, errors),
        ToolRequest::List { image } => list_file(rt, image, output),
        _ => Ok(()),
    }
}
