//! What is reported of a system that is refused: what `explain` says, as a page and as data.

use crate::digests::digest_of;
use crate::findings::{RefusedReport, Subject, Verdict};
use crate::pages::Page;
use crate::reports::FORMAT;
use std::alloc::{AllocError, Global};

/// A system that is refused.
#[derive(Clone, Copy)]
pub struct Refusing<'a> {
    /// The file, as it was named.
    pub name: &'a str,
    /// What was typed.
    pub command: &'a str,
    /// The program and the kit that proves it.
    pub program: &'a str,
    /// The bytes that are refused, if they are an image.
    pub image: Option<&'a [u8]>,
    /// The lines that say why.
    pub explanation: &'a str,
}

/// What is reported of it.
fn report_of<'a>(alloc: Global, refusing: &Refusing<'a>) -> Result<RefusedReport<'a>, AllocError> {
    let mut explanation = Vec::new(alloc);
    for line in refusing.explanation.lines() {
        explanation.push(line)?;
    }
    Ok(RefusedReport {
        format: FORMAT,
        verdict: Verdict::Refused,
        subject: Subject {
            name: refusing.name,
            sha256: match refusing.image {
                Some(bytes) => digest_of(alloc, bytes)?,
                None => String::new(alloc),
            },
            program: refusing.program,
            command: refusing.command,
        },
        explanation,
    })
}

/// The report on a refused system as JSON.
///
/// # Errors
///
/// Memory may be refused.
pub fn refused_json(alloc: Global, refusing: &Refusing<'_>) -> Result<String, AllocError> {
    let report = report_of(alloc, refusing)?;
    match serde_json::to_string_pretty(alloc, &report) {
        Ok(text) => Ok(text),
        Err(_) => Err(AllocError),
    }
}

/// The report on a refused system as a page.
///
/// # Errors
///
/// Memory may be refused.
pub fn refused_page(alloc: Global, refusing: &Refusing<'_>) -> Result<String, AllocError> {
    let report = report_of(alloc, refusing)?;
    let mut page = Page::begin(alloc, report.subject.name, "refused")?;
    page.push_subject(&report.subject)?;
    page.push_raw(
        "<p class=\"verdict\">This system is refused. It is not to be run.</p>\n<p>These lines are those of <code>microsys_tool explain</code>: what it found \
         that stands against each rule. No clause says more of them than that they are found safely.</p>\n<pre>",
    )?;
    for line in &report.explanation {
        page.push_said(line)?;
        page.push_raw("\n")?;
    }
    page.push_raw("</pre>\n")?;
    page.end()
}
