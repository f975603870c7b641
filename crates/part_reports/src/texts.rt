//! The text of a part alone.

use crate::names::is_of;
use source_texts::{SourceText, word_at};
use std::alloc::{AllocError, Global};

/// Which lines of a text are kept, one after the other.
#[derive(Drop)]
struct Keeping<'t, 'n> {
    text: &'t SourceText<'n>,
    threads: u64,
    /// The thread that a line `thread` would begin.
    next: usize,
    /// Whether the line is of a thread that is left out.
    is_out: bool,
}

impl Keeping<'_, '_> {
    /// Whether the next line, whose number this is, is kept.
    fn keeps(&mut self, number: u64, line: &str) -> bool {
        if let Some(thread) = self.text.threads.get(self.next) {
            if thread.line == number {
                self.is_out = !is_of(self.threads, self.next);
                self.next = self.next.saturating_add(1);
            }
        }
        let is_kept = !self.is_out;
        if word_at(line, 0) == Some("end") {
            self.is_out = false;
        }
        is_kept
    }
}

/// A text without the lines of the threads that are not of a part: bit N is thread N of the text, from 0 on.
///
/// # Errors
///
/// Memory may be refused.
pub fn text_alone(
    alloc: Global,
    content: &str,
    text: &SourceText<'_>,
    threads: u64,
) -> Result<String, AllocError> {
    let mut keeping = Keeping {
        text,
        threads,
        next: 0,
        is_out: false,
    };
    let mut kept = String::new(alloc);
    let mut number = 0u64;
    for line in content.lines() {
        number = number.saturating_add(1);
        if keeping.keeps(number, line) {
            kept.push_str(line)?;
            kept.push_str("\n")?;
        }
    }
    Ok(kept)
}
