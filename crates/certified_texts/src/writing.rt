//! Texts with their certificates.

use crate::layouts::Layout;
use crate::pieces::{around_auto, is_certificate};
use crate::records::add_record;
use certifying::{Certificate, Record};
use std::alloc::{AllocError, Global};

/// A thread's certificate, and which of its records are in the text.
#[derive(Drop)]
pub struct Draft {
    pub certificate: Certificate,
    pub kept: Vec<bool>,
}

impl Draft {
    /// All of a certificate.
    ///
    /// # Errors
    ///
    /// Memory may be refused.
    pub fn new(alloc: Global, certificate: Certificate) -> Result<Draft, AllocError> {
        let mut kept = Vec::new(alloc);
        'records: for _ in &certificate.records {
            kept.push(true)?;
        }
        Ok(Draft { certificate, kept })
    }

    /// Whether a record is in the text.
    pub fn keeps(&self, record: usize) -> bool {
        self.kept.get(record).copied().unwrap_or(false)
    }

    /// Sets whether a record is in the text.
    pub fn keep(&mut self, record: usize, stands: bool) {
        if let Some(kept) = self.kept.get_mut(record) {
            *kept = stands;
        }
    }
}

/// A record, and the line that it is before.
#[derive(Clone, Copy)]
struct PlacedRecord<'r> {
    line: u64,
    record: &'r Record,
}

/// The records that are in the text, in the order of their lines.
fn placed_records<'r>(
    alloc: Global,
    layout: &Layout<'_>,
    drafts: &'r [Draft],
) -> Result<Vec<PlacedRecord<'r>>, AllocError> {
    let mut all = Vec::new(alloc);
    'threads: for (thread, draft) in layout.threads.iter().zip(drafts) {
        'records: for (number, record) in draft.certificate.records.iter().enumerate() {
            if draft.keeps(number) {
                let line = thread.line_of(record.point);
                all.push(PlacedRecord { line, record })?;
            }
        }
    }
    Ok(all)
}

/// The budget of the thread that begins on a line.
fn budget_on(layout: &Layout<'_>, drafts: &[Draft], line: u64) -> u64 {
    'threads: for (thread, draft) in layout.threads.iter().zip(drafts) {
        if thread.line == line {
            return draft.certificate.budget;
        }
    }
    1
}

/// A text that is written again.
#[derive(Drop)]
struct Written<'r, 't> {
    alloc: Global,
    layout: &'r Layout<'t>,
    drafts: &'r [Draft],
    records: Vec<PlacedRecord<'r>>,
    /// How many of the records are in the text.
    done: usize,
    text: Vec<u8>,
}

impl Written<'_, '_> {
    /// Adds the record that is before a line, if there is one.
    fn add_record_before(&mut self, line: u64) -> Result<(), AllocError> {
        if let Some(placed) = self.records.get(self.done) {
            if placed.line == line {
                add_record(self.alloc, &mut self.text, self.layout, placed.record)?;
                self.done = self.done.saturating_add(1);
            }
        }
        Ok(())
    }

    /// Adds a line of the text as it was, with its budget.
    fn add_line(&mut self, piece: &[u8], line: u64) -> Result<(), AllocError> {
        match around_auto(piece) {
            Some(around) => {
                let budget = budget_on(self.layout, self.drafts, line);
                let digits = format!(in self.alloc; "{budget}")?;
                self.text.extend_from_slice(around.before)?;
                self.text.extend_from_slice(digits.as_bytes())?;
                self.text.extend_from_slice(around.behind)?;
            }
            None => self.text.extend_from_slice(piece)?,
        }
        Ok(())
    }
}

/// A text with these certificates, those of its threads in their order, in place of its own.
///
/// # Errors
///
/// Memory may be refused.
pub fn certified_text(
    alloc: Global,
    text: &str,
    layout: &Layout<'_>,
    drafts: &[Draft],
) -> Result<Vec<u8>, AllocError> {
    let mut written = Written {
        alloc,
        layout,
        drafts,
        records: placed_records(alloc, layout, drafts)?,
        done: 0,
        text: Vec::new(alloc),
    };
    let mut number = 0u64;
    'lines: for piece in text.as_bytes().split_inclusive(|byte| *byte == b'\n') {
        number = number.saturating_add(1);
        if !is_certificate(piece) {
            written.add_record_before(number)?;
            written.add_line(piece, number)?;
        }
    }
    Ok(written.text)
}
