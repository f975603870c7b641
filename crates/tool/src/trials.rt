//! Trials: the verifier judges a text with some of its records.

ghost use Rattle.std.specs.Prelude.{IfOk, OnOk};
ghost use Rattle.tool.specs.AcceptedTexts.{IsAcceptedText};

use crate::certification::{NotCertified, refused};
use asm::assemble;
use certified_texts::{Draft, Layout, certified_text};
use image::write;
use progress::{Progress, Stage};
use std::alloc::Global;
use verify::verify;

/// How many lines all trials may have together.
const MOST_LINES: usize = 1 << 19;

/// After how many seconds of a request no trial begins.
const MOST_SECONDS: u64 = 1;

/// Whether there is time for another trial. Without a clock there is.
fn has_time<P: Progress>(progress: &P) -> bool {
    match progress.seconds() {
        Some(seconds) => seconds < MOST_SECONDS,
        None => true,
    }
}

/// Whether the verifier accepts the image of a text.
fn check(alloc: Global, layout: &Layout<'_>, text: &str) -> Result<(), NotCertified>
    ensures { OnOk result (IsAcceptedText text.now) }
{
    let image = assemble(alloc, text)?;
    let bytes = write(alloc, &image)?;
    match verify(alloc, bytes.as_slice()) {
        Ok(_) => Ok(()),
        Err(refusal) => Err(refused(layout, refusal)),
    }
}

/// The text with certificates, if the verifier accepts it.
pub(crate) fn judged(
    alloc: Global,
    text: &str,
    layout: &Layout<'_>,
    drafts: &[Draft],
) -> Result<Vec<u8>, NotCertified>
    ensures accepted { IfOk result (λ written. IsAcceptedText written.items) }
{
    let written = certified_text(alloc, text, layout, drafts)?;
    let Ok(certified) = std::str::from_utf8(written.as_slice()) else {
        return Err(NotCertified::Disagreement);
    };
    check(alloc, layout, certified)?;
    Ok(written)
}

/// Whether the verifier accepts a text with these certificates. Memory that is refused ends the trials.
fn is_accepted(
    alloc: Global,
    text: &str,
    layout: &Layout<'_>,
    drafts: &[Draft],
) -> Result<bool, NotCertified> {
    match judged(alloc, text, layout, drafts) {
        Ok(_) => Ok(true),
        Err(NotCertified::OutOfMemory) => Err(NotCertified::OutOfMemory),
        Err(_) => Ok(false),
    }
}

/// Sets whether a record of a thread is in the text.
fn keep(drafts: &mut Vec<Draft>, thread: usize, record: usize, stands: bool) {
    if let Some(draft) = drafts.get_mut(thread) {
        draft.keep(record, stands);
    }
}

/// How many records a thread has.
fn record_count(drafts: &[Draft], thread: usize) -> usize {
    match drafts.get(thread) {
        Some(draft) => draft.certificate.records.len(),
        None => 0,
    }
}

/// Leaves out each record without which the text is accepted as well, as far as there is time for trials, by the clock and by how
/// many lines they have.
pub(crate) fn drop_records<P: Progress>(
    alloc: Global,
    text: &str,
    layout: &Layout<'_>,
    drafts: &mut Vec<Draft>,
    progress: &mut P,
) -> Result<(), NotCertified> {
    let lines = text.lines().count().max(1);
    let mut left = MOST_LINES / lines;
    'threads: for thread in 0..drafts.len() {
        'records: for record in 0..record_count(drafts, thread) {
            if left == 0 || !has_time(progress) {
                return Ok(());
            }
            left -= 1;
            keep(drafts, thread, record, false);
            if !is_accepted(alloc, text, layout, drafts.as_slice())? {
                keep(drafts, thread, record, true);
            }
            progress.reach(Stage::Tried {
                thread,
                record,
                records: record_count(drafts, thread),
            });
        }
    }
    Ok(())
}
