//! What is reported of a text that gets no certificates, or is refused.

use crate::certification::{NotCertified, Why};
use explaining::{Certificates, ExplainFault, Text, push_place, report_refused};
use model::Refusal;
use std::alloc::{AllocError, Global};

/// The line that says that the verifier refuses what was found, which is no fault of the text.
fn not_accepted(
    alloc: Global,
    text: &Text<'_, '_>,
    line: u64,
    refusal: Refusal,
) -> Result<String, AllocError> {
    let mut report = String::new(alloc);
    push_place(&mut report, text, line)?;
    let number = refusal.number();
    let name = refusal.name();
    write!(
        &mut report,
        "NotAccepted: the verifier refuses the certificate that is found, by {number} {name}: a fault of certify, please report it with the text\n"
    )?;
    Ok(report)
}

/// What is reported where nothing is found wrong with a text, though it gets no certificates.
fn report_of_nothing(
    alloc: Global,
    text: &Text<'_, '_>,
    fault: NotCertified,
) -> Result<String, ExplainFault> {
    match fault {
        NotCertified::Line {
            line,
            why: Why::NotAccepted(refusal) | Why::Refused(refusal),
        } => Ok(not_accepted(alloc, text, line, refusal)?),
        _ => Err(ExplainFault::Disagreement),
    }
}

/// What is wrong with a text that gets no certificates, as far as that is found.
fn report_of_text(
    alloc: Global,
    text: &Text<'_, '_>,
    certificates: Certificates,
    fault: NotCertified,
) -> Result<String, ExplainFault> {
    let report = report_refused(alloc, text, certificates)?;
    if report.is_empty() {
        report_of_nothing(alloc, text, fault)
    } else {
        Ok(report)
    }
}

/// Why a text gets no certificates, in lines.
pub(crate) fn report_of(
    alloc: Global,
    text: &Text<'_, '_>,
    certificates: Certificates,
    fault: NotCertified,
) -> Result<String, ExplainFault> {
    match fault {
        NotCertified::OutOfMemory => Err(ExplainFault::OutOfMemory),
        NotCertified::Disagreement => Err(ExplainFault::Disagreement),
        fault => report_of_text(alloc, text, certificates, fault),
    }
}
