//! The command that writes a report on a system.

ghost use Rattle.std.specs.Prelude.{◌≡◌, IfOk, string_bytes};
ghost use Rattle.hex.specs.Hex.{encode_lower};
ghost use Rattle.sha2.specs.Sha256.{sha256};
ghost use Rattle.system_reports.specs.AcceptedBytes.{AreAccepted};

use crate::described_parts::{Whole, whole_of};
use crate::expected::{FileBytes, traced};
use crate::explanations::{Verdict, explained};
use crate::reports::{ToolFault, unexplained};
use crate::responding::{rates_of_text, within_of};
use crate::sources::{SystemText, check_target, read_given};
use console::{DONE, STANDARD, read_all, write_file};
use explaining::Text;
use model::Refusal;
use responses::Rate;
use runner::MemorySink;
use sinks::{Sink, put_all};
use std::alloc::{AllocError, Global};
use std::rt::Files;
use std::time::Clock;
use system_reports::{
    EventRun, Refusing, ReportFault, ReportRequest, json_of, page_of, rate_of_word, refused_json,
    refused_page, report_of,
};
use tool_requests::VERSION;
use verify::verify;

/// What a report is asked for.
#[derive(Clone, Copy)]
pub(crate) struct ReportWords<'w, 'a> {
    pub(crate) system: &'a str,
    /// The file that gets the report.
    pub(crate) out: &'a str,
    /// Whether as data, and not as a page.
    pub(crate) is_json: bool,
    /// Files of lists of events.
    pub(crate) events: &'w [&'a str],
    /// Each as `LINE:BURST:PERIOD`.
    pub(crate) rates: &'w [&'a str],
    /// Numbers for names of the description.
    pub(crate) given: &'w [&'w str],
}

/// A report on an image: the page or the data, and the bytes that it speaks of.
#[derive(Drop)]
pub struct WrittenReport {
    pub written: String,
    /// The digits of the SHA-256 of the image, as the report has them.
    pub sha256: String,
    pub image: Vec<u8>,
}

/// The report on an image that the verifier accepts, as a page or as data.
///
/// # Errors
///
/// The image is refused; a text or a trace is none; or memory is refused.
pub fn reported(
    alloc: Global,
    image: Vec<u8>,
    request: &ReportRequest<'_>,
    is_json: bool,
) -> Result<WrittenReport, ReportFault>
    // The verifier accepts the bytes that are reported on.
    ensures accepted { IfOk result (λ reported. AreAccepted reported.image.items) }
    // The digits are those of their SHA-256.
    ensures digest { IfOk result (λ reported. string_bytes reported.sha256 ≡ encode_lower (sha256 reported.image.items)) }
{
    let report = report_of(alloc, image.as_slice(), request)?;
    let written = if is_json {
        json_of(alloc, &report)?
    } else {
        page_of(alloc, &report)?
    };
    Ok(WrittenReport {
        written,
        sha256: report.subject.sha256,
        image,
    })
}

/// The rates that words say, up to the first that says none.
fn rates_said(alloc: Global, words: &[&str]) -> Result<Vec<Rate>, AllocError> {
    let mut rates = Vec::new(alloc);
    for word in words {
        match rate_of_word(word) {
            Some(rate) => rates.push(rate)?,
            None => return Ok(rates),
        }
    }
    Ok(rates)
}

/// The rates that words say.
///
/// # Errors
///
/// A word says none, or memory is refused.
fn rates_of<'a>(alloc: Global, words: &[&str]) -> Result<Vec<Rate>, ToolFault<'a>> {
    let rates = rates_said(alloc, words)?;
    match words.get(rates.len()) {
        Some(word) => {
            let said = format!(in alloc;
                "error: `--rate {word}` is not of the form `--rate LINE:BURST:PERIOD`\n"
            )?;
            Err(ToolFault::Wrong(said))
        }
        None => Ok(rates),
    }
}

/// Puts words after a command, each after such a word.
fn push_all(command: &mut String, before: &str, words: &[&str]) -> Result<(), AllocError> {
    for word in words {
        write!(command, " {before}{word}")?;
    }
    Ok(())
}

/// The command that was typed.
fn command_of(alloc: Global, asked: &ReportWords<'_, '_>) -> Result<String, AllocError> {
    let (system, out) = (asked.system, asked.out);
    let mut command = format!(in alloc; "microsys_tool report {system} {out}")?;
    push_all(&mut command, "", asked.events)?;
    push_all(&mut command, "--rate ", asked.rates)?;
    push_all(&mut command, "-D ", asked.given)?;
    if asked.is_json {
        command.push_str(" --json")?;
    }
    Ok(command)
}

/// The program and the kit that proves it, in a line.
fn program_said(alloc: Global) -> Result<String, AllocError> {
    let mut said = String::from_str(alloc, "microsys_tool")?;
    let mut is_first = true;
    for line in VERSION.lines() {
        if is_first {
            said.push_str(" ")?;
            is_first = false;
        } else {
            said.push_str(", ")?;
        }
        said.push_str(line)?;
    }
    Ok(said)
}

/// Lists of events, each with the trace of an image over it.
#[derive(Drop)]
struct Traces<'a> {
    files: Vec<&'a str>,
    traces: Vec<MemorySink>,
}

impl<'a> Traces<'a> {
    /// One list of events more.
    fn add(&mut self, file: &'a str, trace: MemorySink) -> Result<(), AllocError> {
        self.files.push(file)?;
        self.traces.push(trace)?;
        Ok(())
    }

    /// The runs.
    fn runs<'t>(&'t self, alloc: Global) -> Result<Vec<EventRun<'t>>, AllocError> {
        let mut runs = Vec::new(alloc);
        for (file, trace) in self.files.iter().zip(&self.traces) {
            runs.push(EventRun {
                file: *file,
                trace: trace.bytes(),
            })?;
        }
        Ok(runs)
    }
}

/// The traces of an image of a system over lists of events.
fn traces_of<'a, R: Files + Input + AllocGlobal>(
    rt: &R,
    system: &SystemText<'a>,
    image: &[u8],
    events: &[&'a str],
) -> Result<Traces<'a>, ToolFault<'a>> {
    let mut all = Traces {
        files: Vec::new(rt.alloc()),
        traces: Vec::new(rt.alloc()),
    };
    for file in events {
        let bytes = read_all(rt, *file)?;
        let list = FileBytes {
            file: *file,
            bytes: bytes.as_slice(),
        };
        let trace = traced(rt.alloc(), system, image, list)?;
        all.add(*file, trace)?;
    }
    Ok(all)
}

/// Why there is no report on a system of this name.
fn not_reported<'a>(name: &'a str, fault: ReportFault) -> ToolFault<'a> {
    match fault {
        ReportFault::Refused(refusal) => ToolFault::Image(refusal),
        ReportFault::Malformed { line } => ToolFault::Unread { file: name, line },
        ReportFault::Disagreement => ToolFault::Disagreement(name),
        ReportFault::OutOfMemory => ToolFault::Memory,
    }
}

/// A system with certificates, if the verifier accepts it.
fn accepted_whole<'a, R: Clock + AllocGlobal, E: Sink>(
    rt: &R,
    system: &SystemText<'a>,
    errors: &mut E,
) -> Result<Whole, ToolFault<'a>> {
    let whole = whole_of(rt, system, errors)?;
    match verify(rt.alloc(), whole.image.as_slice()) {
        Ok(_) => {}
        Err(Refusal::OutOfMemory) => return Err(ToolFault::Memory),
        Err(refusal) => return Err(ToolFault::Image(refusal)),
    }
    Ok(whole)
}

/// The report on a system that is accepted, at these rates, or else those that it says.
fn report_on<'a, R: Files + Input + AllocGlobal>(
    rt: &R,
    asked: &ReportWords<'_, 'a>,
    system: &SystemText<'a>,
    whole: Whole,
    rates: &[Rate],
) -> Result<String, ToolFault<'a>> {
    let Whole { text, image } = whole;
    let traces = traces_of(rt, system, image.as_slice(), asked.events)?;
    let runs = traces.runs(rt.alloc())?;
    let (command, program) = (command_of(rt.alloc(), asked)?, program_said(rt.alloc())?);
    let said = rates_of_text(rt.alloc(), system.name, text.as_str())?;
    let rates = if rates.is_empty() {
        said.as_slice()
    } else {
        rates
    };
    let within = within_of(rt.alloc(), system.name, text.as_str(), image.as_slice())?;
    let request = ReportRequest {
        name: asked.system,
        command: command.as_str(),
        program: program.as_str(),
        text: text.as_str(),
        rates,
        kept: within.kept.as_str(),
        broken: within.broken.as_str(),
        runs: runs.as_slice(),
    };
    match reported(rt.alloc(), image, &request, asked.is_json) {
        Ok(reported) => Ok(reported.written),
        Err(fault) => Err(not_reported(system.name, fault)),
    }
}

/// Why a system is refused, as `explain` says it.
fn explanation_of<'a, R: Clock + AllocGlobal, E: Sink>(
    rt: &R,
    system: &SystemText<'a>,
    errors: &mut E,
) -> Result<String, ToolFault<'a>> {
    let text = Text {
        file: system.name,
        content: system.text.as_str(),
    };
    match explained(rt, &text, errors) {
        Ok(Verdict::Refused(lines)) => Ok(lines),
        Ok(Verdict::Accepted(_)) => Err(ToolFault::Disagreement(system.name)),
        Err(fault) => Err(unexplained(fault, system.name)),
    }
}

/// What is written of a system that is refused.
fn refusal_of(
    alloc: Global,
    asked: &ReportWords<'_, '_>,
    image: Option<&[u8]>,
    explanation: &str,
) -> Result<String, AllocError> {
    let (command, program) = (command_of(alloc, asked)?, program_said(alloc)?);
    let refusing = Refusing {
        name: asked.system,
        command: command.as_str(),
        program: program.as_str(),
        image,
        explanation,
    };
    if asked.is_json {
        refused_json(alloc, &refusing)
    } else {
        refused_page(alloc, &refusing)
    }
}

/// Writes a report where it is wanted.
fn write_report<'a, R: Files + AllocGlobal, W: Sink>(
    rt: &R,
    asked: &ReportWords<'_, 'a>,
    system: &SystemText<'a>,
    written: &str,
    output: &mut W,
) -> Result<(), ToolFault<'a>> {
    if asked.out == STANDARD {
        return Ok(put_all(output, written.as_bytes())?);
    }
    system.check_target(rt, asked.out)?;
    for events in asked.events {
        check_target(rt, events, asked.out)?;
    }
    Ok(write_file(rt, asked.out, written.as_bytes())?)
}

/// Writes a report on a system, and returns the exit status. Where the system is refused it says why, and so does standard error, with the
/// status of that.
pub(crate) fn report_file<'a, R: Files + Input + Clock + AllocGlobal, W: Sink, E: Sink>(
    rt: &R,
    asked: &ReportWords<'_, 'a>,
    output: &mut W,
    errors: &mut E,
) -> Result<u8, ToolFault<'a>> {
    let rates = rates_of(rt.alloc(), asked.rates)?;
    let system = read_given(rt, asked.system, asked.given)?;
    system.check_programs(rt.alloc())?;
    match accepted_whole(rt, &system, errors) {
        Ok(whole) => {
            let written = report_on(rt, asked, &system, whole, rates.as_slice())?;
            write_report(rt, asked, &system, written.as_str(), output)?;
            Ok(DONE)
        }
        Err(ToolFault::Refused(_) | ToolFault::Image(_)) => {
            let lines = explanation_of(rt, &system, errors)?;
            let image = match &system.image {
                Some(image) => Some(image.as_slice()),
                None => None,
            };
            let written = refusal_of(rt.alloc(), asked, image, lines.as_str())?;
            write_report(rt, asked, &system, written.as_str(), output)?;
            Err(ToolFault::Refused(lines))
        }
        Err(fault) => Err(fault),
    }
}
