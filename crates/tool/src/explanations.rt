//! Why a system is refused.

use crate::certification::budgets_found;
use crate::messages::report_of;
use crate::reports::{ToolFault, unexplained};
use crate::sources::read_given;
use explaining::{Certificates, ExplainFault, Explanation, Text, explain, wants_certificates};
use progress::Told;
use sinks::{Sink, SinkFault, put_all};
use std::rt::Files;
use std::time::Clock;

/// What a text turned out to be.
#[derive(Drop)]
pub(crate) enum Verdict {
    /// It is accepted, with these budgets where certificates were found for it.
    Accepted(String),
    /// It is refused, and these lines say why.
    Refused(String),
}

/// Explains a text with the certificates in it.
fn explained_as_written<R: Clock + AllocGlobal, E: Sink>(
    rt: &R,
    text: &Text<'_, '_>,
    errors: &mut E,
) -> Result<Verdict, ExplainFault> {
    let mut progress = Told::new(rt.alloc(), rt, errors);
    match explain(rt.alloc(), text, &mut progress)? {
        Explanation::Accepted => Ok(Verdict::Accepted(String::new(rt.alloc()))),
        Explanation::Refused(lines) => Ok(Verdict::Refused(lines)),
    }
}

/// Explains a text for which certificates are to be found.
fn explained_as_found<R: Clock + AllocGlobal, E: Sink>(
    rt: &R,
    text: &Text<'_, '_>,
    errors: &mut E,
) -> Result<Verdict, ExplainFault> {
    let mut progress = Told::new(rt.alloc(), rt, errors);
    match budgets_found(rt.alloc(), text.content, &mut progress) {
        Ok(budgets) => Ok(Verdict::Accepted(budgets)),
        Err(fault) => Ok(Verdict::Refused(report_of(
            rt.alloc(),
            text,
            Certificates::Written,
            fault,
        )?)),
    }
}

/// Explains a text, with the certificates that are found for it where it wants some.
pub(crate) fn explained<R: Clock + AllocGlobal, E: Sink>(
    rt: &R,
    text: &Text<'_, '_>,
    errors: &mut E,
) -> Result<Verdict, ExplainFault> {
    if wants_certificates(rt.alloc(), text.content)? {
        explained_as_found(rt, text, errors)
    } else {
        explained_as_written(rt, text, errors)
    }
}

/// Puts that a text is accepted, and with which budgets where certificates were found for it.
fn put_accepted<W: Sink>(output: &mut W, budgets: &str) -> Result<(), SinkFault> {
    if budgets.is_empty() {
        return put_all(output, b"accepted\n");
    }
    put_all(
        output,
        b"accepted, with the certificates that `certify` finds\n",
    )?;
    put_all(output, budgets.as_bytes())
}

/// Says of a system from a file whether it is accepted, or why it is refused.
pub(crate) fn explain_file<'a, R: Files + Input + Clock + AllocGlobal, W: Sink, E: Sink>(
    rt: &R,
    source: &'a str,
    given: &[&str],
    output: &mut W,
    errors: &mut E,
) -> Result<(), ToolFault<'a>> {
    let system = read_given(rt, source, given)?;
    system.check_programs(rt.alloc())?;
    let text = Text {
        file: system.name,
        content: system.text.as_str(),
    };
    match explained(rt, &text, errors) {
        Ok(Verdict::Accepted(budgets)) => Ok(put_accepted(output, budgets.as_str())?),
        Ok(Verdict::Refused(lines)) => Err(ToolFault::Refused(lines)),
        Err(fault) => Err(unexplained(fault, system.name)),
    }
}
