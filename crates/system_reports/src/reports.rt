//! A report on an accepted image, as data.

ghost use Rattle.std.specs.Prelude.{◌≡◌, IfOk, OnOk, string_bytes};
ghost use Rattle.hex.specs.Hex.{encode_lower};
ghost use Rattle.sha2.specs.Sha256.{sha256};
ghost use Rattle.system_reports.specs.AcceptedBytes.{AreAccepted};

use crate::accesses::access_in;
use crate::digests::digest_of;
use crate::faults::ReportFault;
use crate::findings::{
    Declared, Facts, Memory, Responding, ResponseRow, Sharing, Subject, SystemReport, TestRuns,
    Verdict,
};
use crate::measuring::{Counted, EventRun, measured};
use crate::members::{arrows_in, devices_in, doors_in, groups_in, lines_in, parts_in};
use crate::memory_maps::{addresses_of, memory_in, objects_in, sizes_of};
use crate::responding::{rate_rows, responses_in, within_in};
use crate::statements::statements_of;
use image_reading::ImageRef;
use parts::parts_of;
use program_rules::views_of_programs;
use responses::{Rate, responded};
use source_texts::{SourceText, read};
use std::alloc::{AllocError, Global};
use system_pictures::{Uses, picture_of, uses_of};
use verify::{Accepted, verify};

/// The version of the form of reports.
pub(crate) const FORMAT: u32 = 1;

/// What a report is asked for.
#[derive(Clone, Copy)]
pub struct ReportRequest<'a> {
    /// The file, as it was named.
    pub name: &'a str,
    /// What was typed.
    pub command: &'a str,
    /// The program and the kit that proves it.
    pub program: &'a str,
    /// The text of the image, for names.
    pub text: &'a str,
    /// How often interrupts come.
    pub rates: &'a [Rate],
    /// A line for each part that deals with an interrupt as soon as it is asked to.
    pub kept: &'a str,
    /// A line for each that does not, each with lines after it that begin with a space and say why.
    pub broken: &'a str,
    /// Lists of events that were run.
    pub runs: &'a [EventRun<'a>],
}

/// What a text declares, whose objects lie at these addresses.
fn declared_in<'a>(
    alloc: Global,
    text: &SourceText<'a>,
    addresses: &[u64],
) -> Result<Declared<'a>, AllocError> {
    Ok(Declared {
        parts: parts_in(alloc, text)?,
        doors: doors_in(alloc, text)?,
        devices: devices_in(alloc, text, addresses)?,
        lines: lines_in(alloc, text)?,
    })
}

/// What the parts of an accepted image may do, by the names of its text.
fn sharing_in<'a>(
    alloc: Global,
    text: &SourceText<'a>,
    accepted: &Accepted<'_>,
    uses: &Uses,
) -> Result<Sharing<'a>, ReportFault> {
    let parts = parts_of(alloc, accepted)?;
    let groups = groups_in(alloc, text, &parts)?;
    let (arrows, count) = arrows_in(alloc, text, accepted.image(), &parts, groups.len())?;
    Ok(Sharing {
        groups,
        arrows,
        arrow_count: count as u64,
        access: access_in(alloc, text, uses)?,
    })
}

/// What runs showed of an accepted image, unless there are none.
fn tests_of<'a>(
    alloc: Global,
    text: &SourceText<'a>,
    accepted: &Accepted<'_>,
    offsets: &[u32],
    rows: &[ResponseRow<'a>],
    runs: &[EventRun<'a>],
) -> Result<Option<TestRuns<'a>>, ReportFault> {
    if runs.is_empty() {
        return Ok(None);
    }
    let views = views_of_programs(alloc, accepted.image())?;
    let counted = Counted {
        text,
        views: views.as_slice(),
        offsets,
        responses: rows,
    };
    Ok(Some(measured(alloc, counted, runs)?))
}

/// How soon the levels of an image come to rest, and what runs showed of it.
fn answers_in<'a>(
    alloc: Global,
    text: &SourceText<'a>,
    accepted: &Accepted<'_>,
    bytes: &[u8],
    request: &ReportRequest<'a>,
) -> Result<(Responding<'a>, Option<TestRuns<'a>>), ReportFault> {
    let found = responded(alloc, bytes, request.rates)?;
    let rows = responses_in(alloc, text, &found)?;
    let offsets = found.offsets.as_slice();
    let tests = tests_of(
        alloc,
        text,
        accepted,
        offsets,
        rows.as_slice(),
        request.runs,
    )?;
    let rates = rate_rows(alloc, request.rates)?;
    let within = within_in(alloc, request.kept, request.broken)?;
    let responding = Responding {
        rates,
        within,
        rows,
    };
    Ok((responding, tests))
}

/// What lies where in an accepted image.
fn laid_in<'a>(
    alloc: Global,
    text: &SourceText<'a>,
    image: &ImageRef<'_>,
    addresses: &[u64],
) -> Result<Memory<'a>, AllocError> {
    Ok(Memory {
        untyped: memory_in(alloc, text, image, addresses)?,
        objects: objects_in(alloc, text, image, addresses)?,
    })
}

/// What is known of an accepted image.
fn facts_of<'a>(
    alloc: Global,
    accepted: &Accepted<'_>,
    bytes: &[u8],
    request: &ReportRequest<'a>,
) -> Result<Facts<'a>, ReportFault> {
    let text = read(alloc, request.text)?;
    let addresses = addresses_of(alloc, accepted.image())?;
    let uses = uses_of(alloc, &text)?;
    let (responding, tests) = answers_in(alloc, &text, accepted, bytes, request)?;
    Ok(Facts {
        sizes: sizes_of(accepted.image(), bytes.len()),
        declared: declared_in(alloc, &text, addresses.as_slice())?,
        sharing: sharing_in(alloc, &text, accepted, &uses)?,
        responding,
        memory: laid_in(alloc, &text, accepted.image(), addresses.as_slice())?,
        tests,
        picture: picture_of(alloc, &text, &uses, &[])?,
    })
}

/// The image that bytes spell, if the verifier accepts them.
fn judged(alloc: Global, bytes: &[u8]) -> Result<Accepted<'_>, ReportFault>
    ensures { OnOk result (AreAccepted bytes.now) }
{
    match verify(alloc, bytes) {
        Ok(accepted) => Ok(accepted),
        Err(refusal) => Err(ReportFault::from(refusal)),
    }
}

/// A report on an image that the verifier accepts. It says so of no other bytes.
///
/// # Errors
///
/// The image is refused; the text is none, or a trace is none; or memory is refused.
pub fn report_of<'a>(
    alloc: Global,
    bytes: &[u8],
    request: &ReportRequest<'a>,
) -> Result<SystemReport<'a>, ReportFault>
    // The verifier accepts the bytes that are reported on.
    ensures accepted { IfOk result (λ _. AreAccepted bytes.now) }
    // The digits of the report are those of their SHA-256.
    ensures digest { IfOk result (λ report. string_bytes report.subject.sha256 ≡ encode_lower (sha256 bytes.now)) }
{
    let accepted = judged(alloc, bytes)?;
    let sha256 = digest_of(alloc, bytes)?;
    let facts = facts_of(alloc, &accepted, bytes, request)?;
    let statements = statements_of(alloc, &facts)?;
    Ok(SystemReport {
        format: FORMAT,
        verdict: Verdict::Accepted,
        subject: Subject {
            name: request.name,
            sha256,
            program: request.program,
            command: request.command,
        },
        statements,
        facts,
    })
}

/// A report as JSON.
///
/// # Errors
///
/// Memory may be refused.
pub fn json_of(alloc: Global, report: &SystemReport<'_>) -> Result<String, AllocError> {
    match serde_json::to_string_pretty(alloc, report) {
        Ok(text) => Ok(text),
        Err(_) => Err(AllocError),
    }
}
