//! Texts and why they are refused.

use crate::builds::{Build, build_text};
use crate::faults::{ExplainFault, Explanation};
use crate::requests::{Certificates, Request};
use model::Refusal;
use progress::{Progress, Stage};
use source_gaps::Text;
use std::alloc::Global;
use verify::verify;

/// Reports why a text is refused: all lines that are at fault, or a rule on its declarations that is broken, or of each thread what is
/// wrong with it. The report is empty where nothing is found.
///
/// # Errors
///
/// Parts of the program disagree on the text, or memory was refused.
pub fn report_refused(
    alloc: Global,
    text: &Text<'_, '_>,
    certificates: Certificates,
) -> Result<String, ExplainFault> {
    let mut report = String::new(alloc);
    let request = Request {
        alloc,
        text: *text,
        certificates,
    };
    request.report(&mut report)?;
    Ok(report)
}

/// Whether the verifier accepts an image.
fn is_verified(alloc: Global, bytes: &[u8]) -> Result<bool, ExplainFault> {
    match verify(alloc, bytes).err() {
        None => Ok(true),
        Some(Refusal::OutOfMemory) => Err(ExplainFault::OutOfMemory),
        Some(_) => Ok(false),
    }
}

/// Whether a text makes an image that the verifier accepts. Progress is reported when the image is built, and when it is judged.
fn is_accepted<P: Progress>(
    alloc: Global,
    text: &str,
    progress: &mut P,
) -> Result<bool, ExplainFault> {
    match build_text(alloc, text)? {
        Build::Image(bytes) => {
            progress.reach(Stage::Built);
            let verified = is_verified(alloc, &bytes);
            progress.reach(Stage::Judged);
            verified
        }
        Build::Fault(_) => Ok(false),
    }
}

/// A report as an explanation, if it says anything.
fn refused_with(report: String) -> Result<Explanation, ExplainFault> {
    if report.is_empty() {
        Err(ExplainFault::Disagreement)
    } else {
        Ok(Explanation::Refused(report))
    }
}

/// Builds and verifies the image of a text, and says why that is refused: the line, the names, what is known there, and by how much it
/// misses. Progress is reported when the image is built, and when it is judged.
///
/// # Errors
///
/// Parts of the program disagree on the text, or memory was refused.
pub fn explain<P: Progress>(
    alloc: Global,
    text: &Text<'_, '_>,
    progress: &mut P,
) -> Result<Explanation, ExplainFault> {
    if is_accepted(alloc, text.content, progress)? {
        return Ok(Explanation::Accepted);
    }
    let report = report_refused(alloc, text, Certificates::Written)?;
    refused_with(report)
}
