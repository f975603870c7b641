//! Texts and their certificates: what is found is put into the text, and the verifier judges the image of that.

ghost use Rattle.std.specs.Prelude.{IfOk};
ghost use Rattle.certified_texts.specs.SameTexts.{SameButCertificates};
ghost use Rattle.tool.specs.AcceptedTexts.{IsAcceptedText};

use crate::trials::{drop_records, judged};
use asm::{SourceFault, assemble};
use certified_texts::{Draft, Layout, bare_text, is_same_but_certificates, layout_of};
use certifying::{Certificate, Effort, Reason, Unfit, certificates};
use explaining::point_of;
use image::write;
use model::Refusal;
use progress::{Progress, Stage};
use std::alloc::{AllocError, AllocFailed, Global};

/// A text with certificates that the verifier accepts.
#[derive(Drop)]
pub struct CertifiedText {
    pub text: Vec<u8>,
    /// The line `THREAD budget N` of each thread, with the least budget that is found.
    pub budgets: String,
}

/// What is wrong on a line.
#[derive(Clone, Copy, Debug, PartialEq, Eq)]
pub enum Why {
    /// No certificate is found.
    Unfit(Reason),
    /// The budget that is given is below the least that is found.
    BudgetTooSmall { given: u64, least: u64 },
    /// The verifier refuses it, whatever certificate it gets.
    Refused(Refusal),
    /// All certificates that are found are refused, which is a fault of the search.
    NotAccepted(Refusal),
}

/// Why a text gets no certificates.
#[derive(Clone, Copy, Debug, PartialEq, Eq)]
pub enum NotCertified {
    /// It is no text of an image.
    Source(SourceFault),
    /// For what is wrong on a line.
    Line { line: u64, why: Why },
    /// Its image is refused for something that is on no line of a program.
    Image(Refusal),
    /// Two parts of the program say different things of the text.
    Disagreement,
    /// Memory was refused.
    OutOfMemory,
}

impl From<AllocError> for NotCertified {
    fn from(_refused: AllocError) -> NotCertified {
        NotCertified::OutOfMemory
    }
}

impl<T: Drop> From<AllocFailed<T>> for NotCertified {
    fn from(_refused: AllocFailed<T>) -> NotCertified {
        NotCertified::OutOfMemory
    }
}

impl From<SourceFault> for NotCertified {
    fn from(fault: SourceFault) -> NotCertified {
        NotCertified::Source(fault)
    }
}

/// A refusal by the line of the text that it is reported on.
pub(crate) fn refused(layout: &Layout<'_>, refusal: Refusal) -> NotCertified {
    match (refusal, point_of(refusal)) {
        (Refusal::OutOfMemory, _) => NotCertified::OutOfMemory,
        (_, Some(at)) => NotCertified::Line {
            line: layout.line_of(at.thread, at.point),
            why: Why::Refused(refusal),
        },
        (_, None) => NotCertified::Image(refusal),
    }
}

/// Why no certificates are found, by the line of the text.
fn unfit(layout: &Layout<'_>, fault: Unfit) -> NotCertified {
    match fault {
        Unfit::Refused(refusal) => refused(layout, refusal),
        Unfit::Thread {
            thread,
            point,
            reason,
        } => NotCertified::Line {
            line: layout.line_of(thread, point),
            why: Why::Unfit(reason),
        },
        Unfit::OutOfMemory => NotCertified::OutOfMemory,
    }
}

/// A certificate with all of its records, and with the budget that is given.
fn draft_of(
    alloc: Global,
    layout: &Layout<'_>,
    number: usize,
    certificate: Certificate,
) -> Result<Draft, NotCertified> {
    if let Some(thread) = layout.threads.get(number) {
        if thread.budget < certificate.budget {
            return Err(NotCertified::Line {
                line: thread.line,
                why: Why::BudgetTooSmall {
                    given: thread.budget,
                    least: certificate.budget,
                },
            });
        }
    }
    Ok(Draft::new(alloc, certificate)?)
}

/// The certificates that are found for a text without any.
fn found(
    alloc: Global,
    bare: &str,
    layout: &Layout<'_>,
    effort: Effort,
) -> Result<Vec<Certificate>, NotCertified> {
    let image = assemble(alloc, bare)?;
    let bytes = write(alloc, &image)?;
    match certificates(alloc, bytes.as_slice(), effort) {
        Ok(found) => Ok(found),
        Err(fault) => Err(unfit(layout, fault)),
    }
}

/// What is found for a text without certificates.
fn drafts_of(
    alloc: Global,
    bare: &str,
    layout: &Layout<'_>,
    effort: Effort,
) -> Result<Vec<Draft>, NotCertified> {
    let found = found(alloc, bare, layout, effort)?;
    let mut drafts = Vec::new(alloc);
    'threads: for (number, certificate) in found.into_iter().enumerate() {
        drafts.push(draft_of(alloc, layout, number, certificate)?)?;
    }
    Ok(drafts)
}

/// The line `THREAD budget N` of each thread, with the least budget that is found.
fn budgets_of(alloc: Global, layout: &Layout<'_>, drafts: &[Draft]) -> Result<String, AllocError> {
    let mut lines = String::new(alloc);
    'threads: for (thread, draft) in layout.threads.iter().zip(drafts) {
        let name = thread.name;
        let budget = draft.certificate.budget;
        let line = format!(in alloc; "{name} budget {budget}\n")?;
        lines.push_str(line.as_str())?;
    }
    Ok(lines)
}

/// Why a text gets no certificates whose first ones were refused, and all others too: pages that are not mapped are reported by
/// the verifier alone, and what else it refuses was to be found.
fn searched_in_vain(first: NotCertified) -> NotCertified {
    match first {
        NotCertified::Line {
            line,
            why: Why::Refused(refusal),
        } if !matches!(refusal, Refusal::NotMapped(_)) => NotCertified::Line {
            line,
            why: Why::NotAccepted(refusal),
        },
        other => other,
    }
}

/// Why a text gets no certificates for which this is the reason at last: what the verifier found at first comes before it.
fn first_fault(first: Option<NotCertified>, last: NotCertified) -> NotCertified {
    match (first, last) {
        (_, NotCertified::OutOfMemory) => NotCertified::OutOfMemory,
        (Some(first), _) => searched_in_vain(first),
        (None, last) => last,
    }
}

/// Whether the verifier refuses certificates for a page that is not mapped. Records at all points, with the same ranges and slots,
/// leave it as it is.
fn is_not_mapped(fault: &NotCertified) -> bool {
    matches!(
        fault,
        NotCertified::Line {
            why: Why::Refused(Refusal::NotMapped(_)),
            ..
        }
    )
}

/// What is found for a text without certificates, if the verifier accepts it. Where it refuses that, more is noted, as long as that
/// can help.
fn searched<P: Progress>(
    alloc: Global,
    text: &str,
    bare: &str,
    layout: &Layout<'_>,
    progress: &mut P,
) -> Result<Vec<Draft>, NotCertified> {
    let mut first = None;
    'efforts: for effort in [Effort::Least, Effort::AllRanges, Effort::AllPoints] {
        let drafts = match drafts_of(alloc, bare, layout, effort) {
            Ok(drafts) => drafts,
            Err(fault) => return Err(first_fault(first, fault)),
        };
        progress.reach(Stage::Found);
        match judged(alloc, text, layout, drafts.as_slice()) {
            Ok(_) => return Ok(drafts),
            Err(NotCertified::OutOfMemory) => return Err(NotCertified::OutOfMemory),
            Err(fault) => {
                let is_last = effort == Effort::AllRanges && is_not_mapped(&fault);
                if first.is_none() {
                    first = Some(fault);
                }
                if is_last {
                    break;
                }
            }
        }
    }
    Err(searched_in_vain(first.unwrap_or(NotCertified::Disagreement)))
}

/// The text with these certificates, if the verifier accepts it. It is looked at whether all else is as it was given.
fn finished(
    alloc: Global,
    text: &str,
    layout: &Layout<'_>,
    drafts: &[Draft],
) -> Result<Vec<u8>, NotCertified>
    ensures accepted { IfOk result (λ written. IsAcceptedText written.items) }
    ensures from { IfOk result (λ written. SameButCertificates text.now written.items) }
{
    let written = judged(alloc, text, layout, drafts)?;
    if is_same_but_certificates(text.as_bytes(), written.as_slice()) {
        Ok(written)
    } else {
        Err(NotCertified::Disagreement)
    }
}

/// The text with these certificates, from which the records go that it does not need.
fn shortest<P: Progress>(
    alloc: Global,
    text: &str,
    layout: &Layout<'_>,
    mut drafts: Vec<Draft>,
    progress: &mut P,
) -> Result<CertifiedText, NotCertified>
    ensures accepted { IfOk result (λ made. IsAcceptedText made.text.items) }
    ensures from { IfOk result (λ made. SameButCertificates text.now made.text.items) }
{
    drop_records(alloc, text, layout, &mut drafts, progress)?;
    Ok(CertifiedText {
        text: finished(alloc, text, layout, drafts.as_slice())?,
        budgets: budgets_of(alloc, layout, drafts.as_slice())?,
    })
}

/// The text with certificates in place of its own, which the verifier accepts. Whoever watches hears when certificates are
/// found, when the verifier has judged them, and after each record that is tried.
///
/// # Errors
///
/// Why there are none ([`NotCertified`]).
pub fn certified<P: Progress>(
    alloc: Global,
    text: &str,
    progress: &mut P,
) -> Result<CertifiedText, NotCertified>
    // What is answered assembles to an image, and the verifier accepts its bytes.
    ensures accepted { IfOk result (λ made. IsAcceptedText made.text.items) }
    // It is the text that is given, but for its certificates.
    ensures from { IfOk result (λ made. SameButCertificates text.now made.text.items) }
{
    let bytes = bare_text(alloc, text)?;
    let Ok(bare) = std::str::from_utf8(bytes.as_slice()) else {
        return Err(NotCertified::Disagreement);
    };
    let layout = layout_of(alloc, bare)?;
    let drafts = searched(alloc, text, bare, &layout, progress)?;
    progress.reach(Stage::Judged);
    shortest(alloc, text, &layout, drafts, progress)
}

/// The line `THREAD budget N` of each thread of a text that is left without its certificates as `bare`.
fn budgets_of_bare<P: Progress>(
    alloc: Global,
    text: &str,
    bare: &str,
    progress: &mut P,
) -> Result<String, NotCertified> {
    let layout = layout_of(alloc, bare)?;
    let drafts = searched(alloc, text, bare, &layout, progress)?;
    progress.reach(Stage::Judged);
    Ok(budgets_of(alloc, &layout, drafts.as_slice())?)
}

/// The line `THREAD budget N` of each thread of a text for which certificates are found that the verifier accepts. Progress is reported
/// when they are found, and when the verifier has judged them.
///
/// # Errors
///
/// Why the text gets no certificates.
pub(crate) fn budgets_found<P: Progress>(
    alloc: Global,
    text: &str,
    progress: &mut P,
) -> Result<String, NotCertified> {
    let bytes = bare_text(alloc, text)?;
    match std::str::from_utf8(bytes.as_slice()) {
        Ok(bare) => budgets_of_bare(alloc, text, bare, progress),
        Err(_) => Err(NotCertified::Disagreement),
    }
}
