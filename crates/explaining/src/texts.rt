//! The threads of a text by their lines.

use source_texts::word_at;
use std::alloc::{AllocError, Global};

/// The lines of a thread: from the one that begins it to the one that ends it, or to the last before another begins.
#[derive(Clone, Copy, Debug, PartialEq, Eq)]
pub(crate) struct Block {
    pub(crate) first: u64,
    pub(crate) last: u64,
    /// Whether a record is in it.
    pub(crate) has_records: bool,
    /// Whether its budget is to be found.
    pub(crate) is_automatic: bool,
    /// Whether its line `end` has not come yet.
    is_open: bool,
}

impl Block {
    /// Whether a line is in it.
    pub(crate) fn has(&self, line: u64) -> bool {
        self.first <= line && line <= self.last
    }

    /// Whether no line ends it.
    pub(crate) fn is_open(&self) -> bool {
        self.is_open
    }

    /// Whether its certificate is to be found.
    pub(crate) fn wants_certificate(&self) -> bool {
        self.is_automatic || !self.has_records
    }
}

/// The thread that begins on a line.
fn begun(line: &str, number: u64) -> Block {
    Block {
        first: number,
        last: number,
        has_records: false,
        is_automatic: word_at(line, 6) == Some("auto"),
        is_open: true,
    }
}

/// Notes a line of an open thread.
fn note(block: &mut Block, line: &str, number: u64) {
    if !block.is_open {
        return;
    }
    block.last = number;
    match word_at(line, 0) {
        Some("measure") => block.has_records = true,
        Some("end") => block.is_open = false,
        _ => {}
    }
}

/// The threads of a text, in their order.
pub(crate) fn blocks_of(alloc: Global, text: &str) -> Result<Vec<Block>, AllocError> {
    let mut blocks = Vec::new(alloc);
    let mut number = 0u64;
    for line in text.lines() {
        number = number.saturating_add(1);
        if word_at(line, 0) == Some("thread") {
            blocks.push(begun(line, number))?;
        } else if let Some(block) = blocks.last_mut() {
            note(block, line, number);
        }
    }
    Ok(blocks)
}

/// Whether a certificate is to be found for a thread of a text: it has no record, or its budget is `auto`.
///
/// # Errors
///
/// Memory is refused.
pub fn wants_certificates(alloc: Global, text: &str) -> Result<bool, AllocError> {
    for block in blocks_of(alloc, text)? {
        if block.wants_certificate() {
            return Ok(true);
        }
    }
    Ok(false)
}

/// Whether a line is in another thread than this.
fn is_in_other(blocks: &[Block], own: &Block, line: u64) -> bool {
    if own.has(line) {
        return false;
    }
    for block in blocks {
        if block.has(line) {
            return true;
        }
    }
    false
}

/// A text with one of its threads alone: the lines of the others are empty, so that each line keeps its number.
pub(crate) fn thread_alone(
    alloc: Global,
    text: &str,
    blocks: &[Block],
    own: &Block,
) -> Result<String, AllocError> {
    let mut alone = String::new(alloc);
    let mut number = 0u64;
    for line in text.lines() {
        number = number.saturating_add(1);
        if !is_in_other(blocks, own, number) {
            alone.push_str(line)?;
        }
        alone.push_str("\n")?;
    }
    Ok(alone)
}
